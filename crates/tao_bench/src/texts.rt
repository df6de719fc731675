//! Texts of each kind that is read.

use std::alloc::Global;
use tao_base::{Block, Image, NoMemory};
use tao_text::{
    begin_line, end_line, line_hex, line_words, push_hex, push_number, push_word, read_ops,
    read_script, read_store, read_twin,
};

/// A kind of text.
pub(crate) enum Text {
    Script,
    Twin,
    Ops,
    Store,
}

/// Reads a text with this many writes or loads, and counts them. A twin input has as many operations of its second play.
pub(crate) fn checksum(alloc: Global, text: Text, count: u32) -> Result<u64, anyhow::Error> {
    let read = match text {
        Text::Script => {
            let text = writes(alloc, "do", count)?;
            read_script(alloc, text.as_slice())?.steps.as_slice().len()
        }
        Text::Ops => {
            let text = writes(alloc, "a", count)?;
            read_ops(alloc, text.as_slice())?.steps.as_slice().len()
        }
        Text::Twin => {
            let text = twins(alloc, count)?;
            read_twin(alloc, text.as_slice())?.ops.as_slice().len()
        }
        Text::Store => {
            let text = loads(alloc, count)?;
            read_store(alloc, text.as_slice())?.loads.as_slice().len()
        }
    };
    Ok(read as u64)
}

// A script whose steps are writes.
fn writes(alloc: Global, name: &str, count: u32) -> Result<Image, NoMemory> {
    let mut out = Image::new(alloc);
    line_words(&mut out, "tree", &[1, 1, 64, 1, 1])?;
    for i in 0..count {
        begin_line(&mut out, name)?;
        push_number(&mut out, u64::from(i % 64))?;
        push_write(&mut out)?;
    }
    Ok(out)
}

fn twins(alloc: Global, count: u32) -> Result<Image, NoMemory> {
    let mut out = writes(alloc, "a", count)?;
    line_words(&mut out, "twin", &[])?;
    for _ in 0..count {
        begin_line(&mut out, "op")?;
        push_write(&mut out)?;
    }
    Ok(out)
}

fn push_write(out: &mut Image) -> Result<(), NoMemory> {
    push_word(out, "write")?;
    push_number(out, 0)?;
    push_hex(out, &[7; 64])?;
    end_line(out)
}

fn loads(alloc: Global, count: u32) -> Result<Image, NoMemory> {
    let mut out = Image::new(alloc);
    line_words(&mut out, "tree", &[16, 8, 12, 524_288, 1])?;
    let value = Block::from_slice(alloc, &[7; 12])?;
    for id in 0..count {
        line_hex(&mut out, "load", &[u64::from(id)], &value)?;
    }
    Ok(out)
}
