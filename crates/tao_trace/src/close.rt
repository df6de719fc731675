//! The last lines of a transcript: the scan and the final array.
ghost use Rattle.std.specs.Prelude.{◌≡◌, ◌<◌, [], ◌∷◌, ◌++◌, codes, length, OnOk, OnErr};
ghost use Rattle.tao_base.specs.Lines.{hex_line};
ghost use Rattle.tao_model.specs.Transcript.{block_line};

use tao_base::{Block, Image, NoMemory};
use tao_text::line_hex;

/// Appends the line that says that the whole tree was read. The lines of the blocks, from 0 on, follow it.
pub fn print_scan(out: &mut Image) -> Result<(), NoMemory>
    ensures ok { OnOk result (out.new ≡ out.old ++ codes "scan\n") }
    ensures err { OnErr result (out.new ≡ out.old) }
{
    out.extend_from_slice(b"scan\n")
}

/// Appends the line of one block of the final array.
pub fn print_block(out: &mut Image, blocks: &[Block], id: usize) -> Result<(), NoMemory>
    requires { id < length blocks.now }
    ensures ok { OnOk result (out.new ≡ out.old ++ block_line blocks.now id) }
    ensures err { OnErr result (out.new ≡ out.old) }
{
    line_hex(out, "block", &[id as u64], &blocks[id])
}
