//! The kinds of texts that are read.

/// A kind of text. All kinds have one reading; what each may hold is said line by line, by `line_forms` and `is_taken`.
#[derive(Clone, Copy, Debug, PartialEq, Eq)]
pub(crate) enum TextOf {
    /// A script: a store, and steps.
    Script,
    /// The input of `twin`: a script, a line `twin`, and the loads and operations of a second play.
    Twin,
    /// An operation list: a script with no steps but `a`.
    Ops,
    /// A block file: a script without steps and without a tape.
    Store,
}
