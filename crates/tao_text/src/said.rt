//! What a single line says, without its context.

use crate::script::What;
use tao_base::{Block, Entry, Form, Image, Numbers, Op};

/// A parsed line, by its first word.
#[derive(Drop)]
pub(crate) enum Said {
    /// `tree L Z B N k`
    Tree(u32, u32, u32, u32, u32),
    /// `form 1`, `form 2` or `form turn`
    Form(Form),
    /// `key HEX`
    Key(Block),
    /// `seal`
    Seal,
    /// `reopen HEX`
    Reopen(Image),
    /// `tape W W ..`
    Tape(Numbers),
    /// `load ID HEX`
    Load(Entry),
    /// A line `do`, `a`, `read`, `done`, `put` or `ack`.
    Step(What),
    /// `twin`
    Twin,
    /// `op read ID`, `op write ID HEX` or `op pad`
    Op(Op),
}
