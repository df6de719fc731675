//! Runs the parts that the speed of an access rests on. The arguments are pairs of a command and how often to run it; each pair prints
//! the command and a checksum of its results.
#![tactic(auto)]

mod checksum;
mod codec;
mod desk;
mod flush;
mod frames;
mod full_path;
mod keystream;
mod orders;
mod sequence;
mod slots;
mod texts;
mod turns;
mod xor;

use crate::flush::Turn;
use crate::texts::Text;
use anyhow::{anyhow, bail};
use std::env;

fn main(rt: HostRuntime) -> Result<(), anyhow::Error> {
    let alloc = rt.alloc();
    let mut words = Vec::new(alloc);
    for word in env::args(&rt)?.skip(1) {
        words.push(word)?;
    }
    for pair in words.chunks(2) {
        let [command, count] = pair else {
            bail!("a command has no count");
        };
        let count = count.as_str().parse::<u32>()?;
        let checksum = match command.as_str() {
            "keystream" => keystream::checksum(count),
            "codec" => codec::checksum(alloc, count)?,
            "xor" => xor::checksum(count),
            "frames" => frames::checksum(alloc, count)?,
            "sequence" => sequence::checksum(alloc, count)?,
            "flush" => flush::checksum(alloc, Turn::Evicts, count)?,
            "flush-rest" => flush::checksum(alloc, Turn::Rests, count)?,
            "flush-1024" => full_path::checksum(alloc, 1_024, 20, count)?,
            "flush-524288" => full_path::checksum(alloc, 524_288, 20, count)?,
            "flush-stash-300" => full_path::checksum(alloc, 524_288, 300, count)?,
            "flush-stash-3000" => full_path::checksum(alloc, 524_288, 3_000, count)?,
            "desk-10" => desk::checksum(alloc, 10, count)?,
            "desk-14" => desk::checksum(alloc, 14, count)?,
            "slots" => slots::checksum(alloc, count)?,
            "read-script" => texts::checksum(alloc, Text::Script, count)?,
            "read-twin" => texts::checksum(alloc, Text::Twin, count)?,
            "read-ops" => texts::checksum(alloc, Text::Ops, count)?,
            "read-store" => texts::checksum(alloc, Text::Store, count)?,
            "turns" => turns::turns(&rt, alloc, count)?,
            "mutex" => turns::mutex(&rt, count),
            "glances" => turns::glances(&rt, alloc, count)?,
            "loads" => turns::loads(count),
            "orders" => orders::orders(&rt, alloc, count)?,
            "plain-queue" => orders::plain(&rt, alloc, count)?,
            _ => bail!("no such command"),
        };
        println!(rt; "{command} {checksum}")?;
    }
    Ok(())
}
