//! A text, built line by line.
ghost use Rattle.std.specs.Prelude.{◌≡◌, ◌-◌, length, slice_get, IfOk};
ghost use Rattle.tao_text.specs.Breaks.{is_arrival, limit_in, takes_step, takes_tape};
ghost use Rattle.tao_text.specs.Scripts.{add, add_form, add_key, add_load, add_op, add_step, add_tape, add_twin, empty_script, is_above, left_behind, load_behind, no_key, no_loads, no_tape, one_less, op_behind, opening};
ghost use Rattle.tao_text.specs.Texts.{arrivals_in};
ghost use Rattle.tao_text.specs.Values.{Gives};

use crate::faults::TextKind;
use crate::limits::{entry_fits, op_fits, params_of, step_fits};
use crate::said::Said;
use crate::script::{Script, Step, Steps, What};
use crate::text::TextOf;
use std::alloc::Global;
use tao_base::{Block, Entries, Entry, Form, NoMemory, Numbers, Op, Ops, Params};

/// What was read so far, from the `tree` line on.
#[derive(Debug, Drop)]
pub(crate) struct Draft {
    pub(crate) script: Script,
    has_key: bool,
    // for a tape of a list: how many of its words no arrival has used yet
    words_left: Option<usize>,
    // in a twin input: how many more arrivals a session may have
    arrivals_left: Option<usize>,
    // from the line `twin` on
    pub(crate) second: Option<Second>,
}

/// The second play of a twin input.
#[derive(Debug, Drop)]
pub(crate) struct Second {
    pub(crate) loads: Entries,
    pub(crate) ops: Ops,
    // how many arrivals have no operation yet
    pub(crate) ops_left: usize,
}

#[tactic(auto, unfolding(crate::specs::Scripts::opening))]
/// Starts a draft with the first line, which has to be `tree`.
pub(crate) fn open(alloc: Global, text: TextOf, number: u32, said: Said) -> Result<Draft, TextKind>
    ensures { Gives (λ draft. draft) result (opening text number said) }
{
    let Said::Tree(l, z, b, n, k) = said else {
        return Err(TextKind::Order);
    };
    let params = params_of(l, z, b, n, k)?;
    Ok(Draft {
        arrivals_left: limit_in(text, &params),
        script: empty_script(alloc, number, params)?,
        has_key: false,
        words_left: None,
        second: None,
    })
}

// How many arrivals such a text may have.
fn limit_in(text: TextOf, params: &Params) -> Option<usize>
    ensures { result ≡ limit_in text params.now }
{
    match text {
        TextOf::Twin => Some(params.session_limit() as usize),
        TextOf::Script | TextOf::Ops | TextOf::Store => None,
    }
}

fn empty_script(alloc: Global, tree_line: u32, params: Params) -> Result<Script, NoMemory>
    ensures { IfOk result (λ script. script ≡ empty_script tree_line params) }
{
    Ok(Script {
        params,
        tree_line,
        form_line: None,
        key: [0; 32],
        seal: false,
        reopen: None,
        tape: None,
        loads: Entries::new(alloc)?,
        steps: Steps::new(alloc),
    })
}

#[tactic(auto, unfolding(crate::specs::Scripts::add))]
/// Adds the line of this number.
pub(crate) fn add(
    alloc: Global,
    text: TextOf,
    draft: &mut Draft,
    number: u32,
    said: Said,
) -> Result<(), TextKind>
    ensures { Gives (λ _. draft.new) result (add text draft.old number said) }
{
    match said {
        Said::Tree(l, z, b, n, k) => {
            params_of(l, z, b, n, k)?;
            Err(TextKind::Order)
        }
        Said::Form(form) => add_form(draft, number, form),
        Said::Key(bytes) => add_key(draft, &bytes),
        Said::Seal | Said::Reopen(_) => Err(TextKind::Order),
        Said::Tape(tape) => add_tape(text, draft, tape),
        Said::Load(entry) => add_load(draft, entry),
        Said::Step(what) => add_step(text, draft, number, what),
        Said::Twin => add_twin(alloc, draft),
        Said::Op(op) => add_op(draft, op),
    }
}

#[tactic(auto, unfolding(crate::specs::Scripts::add_form))]
fn add_form(draft: &mut Draft, number: u32, form: Form) -> Result<(), TextKind>
    ensures { Gives (λ _. draft.new) result (add_form draft.old number form) }
{
    let Ok(params) = draft.script.params.with_form(form) else {
        return Err(TextKind::Range);
    };
    if draft.script.form_line.is_some() || !no_key(draft) {
        return Err(TextKind::Order);
    }
    draft.script.params = params;
    draft.script.form_line = Some(number);
    Ok(())
}

#[tactic(auto, unfolding(crate::specs::Scripts::add_key))]
fn add_key(draft: &mut Draft, bytes: &Block) -> Result<(), TextKind>
    ensures { Gives (λ _. draft.new) result (add_key draft.old bytes.now) }
{
    if bytes.as_slice().len() != draft.script.key.len() {
        return Err(TextKind::Length);
    }
    if !no_key(draft) {
        return Err(TextKind::Order);
    }
    draft.script.key.copy_from_slice(bytes.as_slice());
    draft.has_key = true;
    Ok(())
}

#[tactic(auto, unfolding(crate::specs::Scripts::add_tape))]
fn add_tape(text: TextOf, draft: &mut Draft, tape: Numbers) -> Result<(), TextKind>
    ensures { Gives (λ _. draft.new) result (add_tape text draft.old tape) }
{
    if !takes_tape(text) || !no_tape(draft) {
        return Err(TextKind::Order);
    }
    let blocks = draft.script.params.n() as usize;
    let words = tape.as_slice().len();
    if words < blocks {
        return Err(TextKind::TapeShort);
    }
    draft.script.tape = Some(tape);
    draft.words_left = Some(words - blocks);
    Ok(())
}

#[tactic(auto, unfolding(crate::specs::Scripts::add_load))]
fn add_load(draft: &mut Draft, entry: Entry) -> Result<(), TextKind>
    ensures { Gives (λ _. draft.new) result (add_load draft.old entry) }
{
    entry_fits(&draft.script.params, &entry)?;
    match &mut draft.second {
        None => {
            let early = draft.script.steps.as_slice().is_empty();
            push_load(&mut draft.script.loads, early, entry)
        }
        Some(second) => {
            let early = second.ops.as_slice().is_empty();
            push_load(&mut second.loads, early, entry)
        }
    }
}

// Appends a load, if it isn't too late for one and the id is above that of the last one.
fn push_load(loads: &mut Entries, early: bool, entry: Entry) -> Result<(), TextKind>
    ensures { Gives (λ _. loads.new) result (load_behind early loads.old entry) }
{
    if !early || !is_above(loads, entry.id) {
        return Err(TextKind::Order);
    }
    loads.push(entry)?;
    Ok(())
}

#[tactic(auto, unfolding(crate::specs::Scripts::add_step))]
fn add_step(text: TextOf, draft: &mut Draft, number: u32, what: What) -> Result<(), TextKind>
    ensures { Gives (λ _. draft.new) result (add_step text draft.old number what) }
{
    step_fits(&draft.script.params, &what)?;
    let arrivals_left = left_behind(TextKind::Range, &what, draft.arrivals_left)?;
    if !takes_step(text, &what) || draft.second.is_some() {
        return Err(TextKind::Order);
    }
    let words_left = left_behind(TextKind::TapeShort, &what, draft.words_left)?;
    draft.script.steps.push(Step { line: number, what })?;
    draft.words_left = words_left;
    draft.arrivals_left = arrivals_left;
    Ok(())
}

#[tactic(auto, unfolding(crate::specs::Scripts::add_twin))]
fn add_twin(alloc: Global, draft: &mut Draft) -> Result<(), TextKind>
    ensures { Gives (λ _. draft.new) result (add_twin draft.old) }
{
    if draft.second.is_some() {
        return Err(TextKind::Order);
    }
    draft.second = Some(Second {
        loads: Entries::new(alloc)?,
        ops: Ops::new(alloc),
        ops_left: arrivals_in(draft.script.steps.as_slice()),
    });
    Ok(())
}

#[tactic(auto, unfolding(crate::specs::Scripts::add_op))]
fn add_op(draft: &mut Draft, op: Op) -> Result<(), TextKind>
    ensures { Gives (λ _. draft.new) result (add_op draft.old op) }
{
    op_fits(&draft.script.params, &op)?;
    match &mut draft.second {
        None => Err(TextKind::Order),
        Some(second) => push_op(second, op),
    }
}

// Appends an operation, if there is an arrival without one.
fn push_op(second: &mut Second, op: Op) -> Result<(), TextKind>
    ensures { Gives (λ _. second.new) result (op_behind second.old op) }
{
    if second.ops_left == 0 {
        return Err(TextKind::Order);
    }
    second.ops.push(op)?;
    second.ops_left -= 1;
    Ok(())
}

// The number of arrivals in these steps.
fn arrivals_in(steps: &[Step]) -> usize
    ensures { result ≡ arrivals_in steps.now }
{
    steps.iter().filter(|step| is_arrival(&step.what)).count()
}

fn is_arrival(what: &What) -> bool
    ensures { result ≡ is_arrival what.now }
{
    match what {
        What::Do(..) | What::A(..) => true,
        What::Read(..) | What::Done(_) | What::Put(..) | What::Ack(_) => false,
    }
}

// Whether such a text may have this step.
fn takes_step(text: TextOf, what: &What) -> bool
    ensures { result ≡ takes_step text what.now }
{
    match text {
        TextOf::Script | TextOf::Twin => true,
        TextOf::Ops => matches!(what, What::A(..)),
        TextOf::Store => false,
    }
}

// Whether such a text may have a tape.
fn takes_tape(text: TextOf) -> bool
    ensures { result ≡ takes_tape text }
{
    text != TextOf::Store
}

// What is left after a step: one less if it has an arrival.
fn left_behind(kind: TextKind, what: &What, left: Option<usize>) -> Result<Option<usize>, TextKind>
    ensures { result ≡ left_behind kind what.now left }
{
    if is_arrival(what) {
        one_less(kind, left)
    } else {
        Ok(left)
    }
}

// One less, or this fault if none is left.
fn one_less(kind: TextKind, left: Option<usize>) -> Result<Option<usize>, TextKind>
    ensures { result ≡ one_less kind left }
{
    match left {
        Some(0) => Err(kind),
        Some(left) => Ok(Some(left - 1)),
        None => Ok(None),
    }
}

// Whether a `key` line may come next: no key so far, and none of these.
fn no_key(draft: &Draft) -> bool
    ensures { result ≡ no_key draft.now }
{
    !draft.has_key && no_tape(draft)
}

// Whether a `tape` line may come next: no tape so far, and none of these.
fn no_tape(draft: &Draft) -> bool
    ensures { result ≡ no_tape draft.now }
{
    draft.script.tape.is_none() && no_loads(draft)
}

// Whether there is no load, no step and no line `twin` so far.
fn no_loads(draft: &Draft) -> bool
    ensures { result ≡ no_loads draft.now }
{
    draft.script.loads.as_slice().is_empty()
        && draft.script.steps.as_slice().is_empty()
        && draft.second.is_none()
}

// Whether the id is greater than that of the last load, if any.
fn is_above(loads: &Entries, id: u32) -> bool
    ensures { result ≡ is_above (slice_get loads.now (length loads.now - 1)) id }
{
    match loads.as_slice().last() {
        Some(last) => last.id < id,
        None => true,
    }
}
