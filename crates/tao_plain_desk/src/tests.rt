use crate::{ArriveFault, Desk};
use std::test::Fail;
use tao_base::{Block, Blocks, Numbers, Op, Params};

// a refused operation, on a desk with one block of four bytes
#[test]
fn no_such_block(rt: HostRuntime) -> Result<(), Fail> {
    let alloc = rt.alloc();
    let p = Params::new(1, 1, 4, 1, 1)?;
    let mut blocks = Blocks::new(alloc);
    blocks.push(Block::from_slice(alloc, &[0, 0, 0, 0])?)?;
    let mut desk = Desk::start(alloc, p, Numbers::from_slice(alloc, &[1, 0])?, blocks)?;
    assert_eq!(rt;
        desk.do_one(0, Op::Read(1)).err(),
        Some(ArriveFault::NoBlock)
    );
    Ok(())
}

// a pad is answered by no bytes, and leaves its four events
#[test]
fn pad(rt: HostRuntime) -> Result<(), Fail> {
    let alloc = rt.alloc();
    let p = Params::new(1, 1, 4, 1, 1)?;
    let mut blocks = Blocks::new(alloc);
    blocks.push(Block::from_slice(alloc, &[0, 0, 0, 0])?)?;
    let mut desk = Desk::start(alloc, p, Numbers::from_slice(alloc, &[1, 0])?, blocks)?;
    let reply = desk.do_one(63, Op::Pad)?;
    assert_eq!(rt; reply.value.as_slice().len(), 0);
    assert_eq!(rt; desk.into_history().events().len(), 4);
    Ok(())
}

#[test]
fn numbers_of_faults(rt: HostRuntime) {
    let numbers = [
        ArriveFault::SessionFull as u8,
        ArriveFault::NoBlock as u8,
        ArriveFault::BlockLength as u8,
        ArriveFault::Memory as u8,
    ];
    assert_eq!(rt; numbers, [2, 3, 4, 5]);
}
