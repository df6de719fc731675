//! The lines of one event, given the numbers that they tell. Where memory runs out, a prefix of the line is left.
ghost use Rattle.std.specs.Prelude.{◌≡◌, [], ◌∷◌, ◌++◌, codes, length, flat_map, OnOk, OnErr};
ghost use Rattle.tao_base.specs.declared.session.Cause.TheVariants.{Damaged, Stale};
ghost use Rattle.tao_base.specs.Lines.{spaced, spaced_hex, words_line, hex_line};
ghost use Rattle.tao_text.specs.Lines.{Extends};
ghost use Rattle.tao_model.specs.Trace.{nodes_in};
ghost use Rattle.tao_model.specs.Transcript.{arrive_line, op_words, cause_line, fault_name};

use tao_base::{Bucket, BucketFault, Cause, Image, NoMemory, Op};
use tao_text::{begin_line, end_line, push_hex, push_number};

pub(crate) fn push_arrive(
    out: &mut Image,
    arrival: u64,
    client: u32,
    op: &Op,
) -> Result<(), NoMemory>
    ensures ok { OnOk result (out.new ≡ out.old ++ arrive_line arrival client op.now) }
    ensures err { OnErr result (Extends out.old out.new) }
{
    begin_line(out, "arrive")?;
    push_number(out, arrival)?;
    push_number(out, u64::from(client))?;
    push_op(out, op)?;
    end_line(out)
}

fn push_op(out: &mut Image, op: &Op) -> Result<(), NoMemory>
    ensures ok { OnOk result (out.new ≡ out.old ++ op_words op.now) }
    ensures err { OnErr result (Extends out.old out.new) }
{
    match op {
        Op::Read(id) => {
            out.extend_from_slice(b" read")?;
            push_number(out, u64::from(*id))
        }
        Op::Write(id, value) => {
            out.extend_from_slice(b" write")?;
            push_number(out, u64::from(*id))?;
            push_hex(out, value.as_slice())
        }
        Op::Pad => out.extend_from_slice(b" pad"),
    }
}

// The start of the line of a store: its version and its first nonce.
pub(crate) fn begin_store(
    out: &mut Image,
    word: &str,
    version: u32,
    nonce: u64,
) -> Result<(), NoMemory>
    ensures ok { OnOk result (out.new ≡ out.old ++ ((word.now ++ spaced version) ++ spaced nonce)) }
    ensures err { OnErr result (Extends out.old out.new) }
{
    begin_line(out, word)?;
    push_number(out, u64::from(version))?;
    push_number(out, nonce)
}

#[tactic(auto, unfolding(tao_base::specs::Lines::words_line))]
pub(crate) fn push_store(
    out: &mut Image,
    word: &str,
    version: u32,
    nonce: u64,
    buckets: &[Bucket],
) -> Result<(), NoMemory>
    ensures ok { OnOk result (out.new ≡ out.old ++ words_line word.now (version ∷ nonce ∷ nodes_in buckets.now)) }
    ensures err { OnErr result (Extends out.old out.new) }
{
    begin_store(out, word, version, nonce)?;
    push_nodes(out, buckets)?;
    end_line(out)
}

fn push_nodes(out: &mut Image, buckets: &[Bucket]) -> Result<(), NoMemory>
    ensures ok { OnOk result (out.new ≡ out.old ++ flat_map spaced (nodes_in buckets.now)) }
    ensures err { OnErr result (Extends out.old out.new) }
{
    for bucket in buckets {
        push_number(out, u64::from(bucket.node))?;
    }
    Ok(())
}

pub(crate) fn push_cause(out: &mut Image, cause: &Cause) -> Result<(), NoMemory>
    ensures ok { OnOk result (out.new ≡ out.old ++ cause_line cause.now) }
    ensures err { OnErr result (Extends out.old out.new) }
{
    match cause {
        Cause::Damaged { fetch, node, fault } => push_damaged(out, *fetch, *node, *fault),
        Cause::Stale {
            fetch,
            node,
            wanted,
            found,
        } => push_stale(out, *fetch, *node, *wanted, *found),
        Cause::Link { .. } => Ok(()),
    }
}

// The start of the line of a bucket that was refused.
fn push_refused(out: &mut Image, fetch: u64, node: u32) -> Result<(), NoMemory>
    ensures ok { OnOk result (out.new ≡ out.old ++ ((codes "refused" ++ spaced fetch) ++ spaced node)) }
    ensures err { OnErr result (Extends out.old out.new) }
{
    begin_line(out, "refused")?;
    push_number(out, fetch)?;
    push_number(out, u64::from(node))
}

fn push_damaged(out: &mut Image, fetch: u64, node: u32, fault: BucketFault) -> Result<(), NoMemory>
    ensures ok { OnOk result (out.new ≡ out.old ++ cause_line (Damaged fetch node fault)) }
    ensures err { OnErr result (Extends out.old out.new) }
{
    push_refused(out, fetch, node)?;
    push_fault(out, fault)?;
    end_line(out)
}

fn push_fault(out: &mut Image, fault: BucketFault) -> Result<(), NoMemory>
    ensures ok { OnOk result (out.new ≡ out.old ++ (codes " damaged " ++ fault_name fault)) }
    ensures err { OnErr result (Extends out.old out.new) }
{
    out.extend_from_slice(b" damaged ")?;
    out.extend_from_slice(name_of(fault).as_bytes())
}

fn name_of(fault: BucketFault) -> &'static str
    ensures { result.now ≡ fault_name fault }
{
    match fault {
        BucketFault::Length => "Length",
        BucketFault::Format => "Format",
        BucketFault::Padding => "Padding",
        BucketFault::Node => "Node",
        BucketFault::Id => "Id",
        BucketFault::Order => "Order",
        BucketFault::Dummy => "Dummy",
        BucketFault::Tag => "Tag",
    }
}

fn push_stale(
    out: &mut Image,
    fetch: u64,
    node: u32,
    wanted: u32,
    found: u32,
) -> Result<(), NoMemory>
    ensures ok { OnOk result (out.new ≡ out.old ++ cause_line (Stale fetch node wanted found)) }
    ensures err { OnErr result (Extends out.old out.new) }
{
    push_refused(out, fetch, node)?;
    push_versions(out, wanted, found)?;
    end_line(out)
}

fn push_versions(out: &mut Image, wanted: u32, found: u32) -> Result<(), NoMemory>
    ensures ok { OnOk result (out.new ≡ out.old ++ (codes " stale" ++ (spaced wanted ++ spaced found))) }
    ensures err { OnErr result (Extends out.old out.new) }
{
    out.extend_from_slice(b" stale")?;
    push_number(out, u64::from(wanted))?;
    push_number(out, u64::from(found))
}
