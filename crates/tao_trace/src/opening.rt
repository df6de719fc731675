//! The first lines of a transcript: the parameters, the first values and the load.
ghost use Rattle.std.specs.Prelude.{◌≡◌, ℕ, ◌+◌, ◌<◌, [], ◌∷◌, ◌++◌, codes, length, flat_map, OnOk, OnErr};
ghost use Rattle.std.specs.List.{range_with_len};
ghost use Rattle.tao_base.specs.Array.{block_at};
ghost use Rattle.tao_base.specs.Lines.{words_line, hex_line};
ghost use Rattle.tao_base.specs.Limits.{IsShape};
ghost use Rattle.tao_base.specs.Tree.{node_count};
ghost use Rattle.tao_text.specs.Lines.{Extends};
ghost use Rattle.tao_model.specs.Transcript.{opening_lines, tree_line, form_line, first_line, is_zero};

use tao_base::{Block, Form, Image, NoMemory, Params};
use tao_record::Record;
use tao_text::{line_hex, line_words};

/// Appends the opening: the `tree` line, the form's, a `first` line for each block whose first value isn't all zero, and the `load` line.
pub fn print_opening(out: &mut Image, history: &Record) -> Result<(), NoMemory>
    ensures ok { OnOk result (out.new ≡ out.old ++ opening_lines history.now.history.opening) }
    ensures err { OnErr result (out.new ≡ out.old) }
{
    let len = out.as_slice().len();
    match push_opening(out, history) {
        Ok(()) => Ok(()),
        Err(NoMemory) => {
            out.truncate(len);
            Err(NoMemory)
        }
    }
}

fn push_opening(out: &mut Image, history: &Record) -> Result<(), NoMemory>
    ensures ok { OnOk result (out.new ≡ out.old ++ opening_lines history.now.history.opening) }
    ensures err { OnErr result (Extends out.old out.new) }
{
    push_tree(out, history.params())?;
    push_form(out, history.params().form())?;
    push_first(out, history.first())?;
    line_words(out, "load", &[u64::from(history.params().nodes())])
}

fn push_tree(out: &mut Image, p: &Params) -> Result<(), NoMemory>
    ensures ok { OnOk result (out.new ≡ out.old ++ tree_line p.now) }
    ensures err { OnErr result (out.new ≡ out.old) }
{
    let numbers = [
        u64::from(p.l()),
        u64::from(p.z()),
        u64::from(p.b()),
        u64::from(p.n()),
        u64::from(p.k()),
    ];
    line_words(out, "tree", &numbers)
}

fn push_form(out: &mut Image, form: Form) -> Result<(), NoMemory>
    ensures ok { OnOk result (out.new ≡ out.old ++ form_line form) }
    ensures err { OnErr result (out.new ≡ out.old) }
{
    match form {
        Form::One => Ok(()),
        Form::Two => out.extend_from_slice(b"form 2\n"),
        Form::Turn => out.extend_from_slice(b"form turn\n"),
    }
}

fn push_first(out: &mut Image, blocks: &[Block]) -> Result<(), NoMemory>
    ensures ok { OnOk result (out.new ≡ out.old ++ flat_map (first_line blocks.now) (range_with_len 0 (length blocks.now))) }
    ensures err { OnErr result (Extends out.old out.new) }
{
    for id in 0..blocks.len() {
        push_first_value(out, blocks, id)?;
    }
    Ok(())
}

fn push_first_value(out: &mut Image, blocks: &[Block], id: usize) -> Result<(), NoMemory>
    requires { id < length blocks.now }
    ensures ok { OnOk result (out.new ≡ out.old ++ first_line blocks.now id) }
    ensures err { OnErr result (out.new ≡ out.old) }
{
    let value = &blocks[id];
    if all_zero(value.as_slice()) {
        return Ok(());
    }
    line_hex(out, "first", &[id as u64], value)
}

fn all_zero(bytes: &[u8]) -> bool
    ensures { result ≡ is_zero bytes.now }
{
    bytes.iter().all(|byte| *byte == 0)
}
