ghost use Rattle.std.specs.Prelude.{◌≡◌, ◌+◌, ◌<◌, length, OnOk};
ghost use Rattle.tao_model.specs.Lawful.{IsInRange};

use crate::{Kind, Requests};
use std::alloc::Global;
use std::test::Fail;
use tao_base::{Block, NoMemory, Op, Params};

// Reserves and begins the next request.
fn ask(requests: &mut Requests, arrival: u64, op: &Op) -> Result<Kind, NoMemory>
    requires next { arrival ≡ length requests.old.requests }
    requires op { IsInRange requests.old.shape op.now }
    ensures shape { requests.new.shape ≡ requests.old.shape }
    ensures len { OnOk result (length requests.new.requests ≡ arrival + 1) }
{
    requests.reserve()?;
    Ok(requests.begin(arrival, op))
}

// Whether these bytes are the request's answer.
fn is_answered(requests: &Requests, arrival: u64, bytes: &[u8]) -> bool
    requires { arrival < length requests.now.requests }
{
    match requests.answer_of(arrival) {
        Some(block) => block.as_slice() == bytes,
        None => false,
    }
}

// Settles a request under way with this value; returns whether `left` remains.
fn settles(
    alloc: Global,
    requests: &mut Requests,
    arrival: u64,
    value: &[u8],
    left: &[u8],
) -> Result<bool, NoMemory>
    requires arrived { arrival < length requests.old.requests }
    requires value { length value.now ≡ requests.old.shape.b }
    ensures shape { requests.new.shape ≡ requests.old.shape }
    ensures len { length requests.new.requests ≡ length requests.old.requests }
{
    if requests.kind_of(arrival) != Kind::Real || requests.answer_of(arrival).is_some() {
        return Ok(false);
    }
    let mut value = Block::from_slice(alloc, value)?;
    requests.settle(arrival, &mut value);
    Ok(value.as_slice() == left)
}

// On block 1 two reads overlap with a write between them and one after, and with a pad and a read of block 0.
// The first one's Done settles all four; the next request on block 1 is real again.
#[test]
fn settled_in_the_order_of_arrival(rt: HostRuntime) -> Result<(), Fail> {
    let alloc = rt.alloc();
    let p = Params::new(1, 1, 4, 2, 1)?;
    let mut requests = Requests::new(alloc, &p)?;
    let second = Op::Write(1, Block::from_slice(alloc, &[2, 2, 2, 2])?);
    let third = Op::Write(1, Block::from_slice(alloc, &[3, 3, 3, 3])?);
    assert_eq!(rt; ask(&mut requests, 0, &Op::Read(1))?, Kind::Real);
    assert_eq!(rt; ask(&mut requests, 1, &second)?, Kind::Fake);
    assert_eq!(rt; ask(&mut requests, 2, &Op::Pad)?, Kind::Fake);
    assert_eq!(rt; ask(&mut requests, 3, &Op::Read(0))?, Kind::Real);
    assert_eq!(rt; ask(&mut requests, 4, &Op::Read(1))?, Kind::Fake);
    assert_eq!(rt; ask(&mut requests, 5, &third)?, Kind::Fake);
    assert!(rt; is_answered(&requests, 2, &[]));
    assert!(rt; requests.answer_of(0).is_none());
    assert!(rt; settles(alloc, &mut requests, 0, &[1, 1, 1, 1], &[3, 3, 3, 3])?);
    assert!(rt; is_answered(&requests, 0, &[1, 1, 1, 1]));
    assert!(rt; is_answered(&requests, 1, &[1, 1, 1, 1]));
    assert!(rt; is_answered(&requests, 4, &[2, 2, 2, 2]));
    assert!(rt; is_answered(&requests, 5, &[2, 2, 2, 2]));
    assert!(rt; requests.answer_of(3).is_none());
    assert_eq!(rt; ask(&mut requests, 6, &Op::Read(1))?, Kind::Real);
    assert!(rt; settles(alloc, &mut requests, 6, &[3, 3, 3, 3], &[3, 3, 3, 3])?);
    assert!(rt; settles(alloc, &mut requests, 3, &[9, 9, 9, 9], &[9, 9, 9, 9])?);
    assert!(rt; is_answered(&requests, 6, &[3, 3, 3, 3]));
    assert!(rt; is_answered(&requests, 3, &[9, 9, 9, 9]));
    assert!(rt; is_answered(&requests, 0, &[1, 1, 1, 1]));
    assert_eq!(rt; requests.kind_of(4), Kind::Fake);
    Ok(())
}

#[test]
fn kind_and_block_of_a_request(rt: HostRuntime) -> Result<(), Fail> {
    let alloc = rt.alloc();
    let p = Params::new(1, 1, 4, 2, 1)?;
    let mut requests = Requests::new(alloc, &p)?;
    requests.reserve()?;
    assert_eq!(rt; requests.begin(0, &Op::Read(1)), Kind::Real);
    assert_eq!(rt;
        (requests.kind_of(0), requests.block_of(0)),
        (Kind::Real, 1)
    );
    Ok(())
}
