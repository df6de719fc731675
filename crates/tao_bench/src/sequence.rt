//! The order of release of whole sessions.
ghost use Rattle.std.specs.Prelude.{◌≤◌};
ghost use Rattle.tao_base.specs.Limits.{session_limit};

use anyhow::bail;
use std::alloc::Global;
use tao_base::{NoMemory, Params};
use tao_sequence::Sequence;

const SESSIONS: u32 = 256;

/// In each of 256 sessions this many arrivals are done, once in falling order and then released, and once in rising order and released
/// after each.
pub(crate) fn checksum(alloc: Global, count: u32) -> Result<u64, anyhow::Error> {
    let p = Params::new(1, 1, 4, 1, 1)?;
    if p.session_limit() < count {
        bail!("a session has fewer arrivals");
    }
    let mut sum = 0u64;
    for _ in 0..SESSIONS {
        sum = sum.wrapping_add(falling(alloc, &p, count)?);
        sum = sum.wrapping_add(rising(alloc, &p, count)?);
    }
    Ok(sum)
}

fn falling(alloc: Global, p: &Params, count: u32) -> Result<u64, NoMemory>
    requires { count ≤ session_limit p.now }
{
    let mut sequence = Sequence::new(alloc, p)?;
    for done in 0..count {
        sequence.done(u64::from(count - 1 - done));
    }
    Ok(sequence.released())
}

fn rising(alloc: Global, p: &Params, count: u32) -> Result<u64, NoMemory>
    requires { count ≤ session_limit p.now }
{
    let mut sequence = Sequence::new(alloc, p)?;
    let mut sum = 0u64;
    for arrival in 0..count {
        sequence.done(u64::from(arrival));
        sum = sum.wrapping_add(sequence.released());
    }
    Ok(sum)
}
