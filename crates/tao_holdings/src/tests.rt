ghost use Rattle.std.specs.Prelude.{◌≡◌};

use crate::Holdings;
use std::test::Fail;
use tao_base::{Block, Params};

// the only block lies in the leaf of its word, so nothing is held and a look-up finds no copy
#[test]
fn loaded(rt: HostRuntime) -> Result<(), Fail> {
    let alloc = rt.alloc();
    let p = Params::new(1, 1, 4, 1, 1)?;
    let blocks = vec![in alloc; Block::from_slice(alloc, &[1, 2, 3, 4])?]?;
    let (buckets, holdings) = Holdings::load(alloc, &p, &[3], &blocks)?;
    assert_eq!(rt; buckets.as_slice().len(), 3);
    assert_eq!(rt; (holdings.leaf(0), holdings.count()), (1, 0));
    assert_eq!(rt; holdings.stash().len(), 0);
    let mut value = Block::from_slice(alloc, &[7, 7, 7, 7])?;
    holdings.found(1, 0, &mut value);
    assert_eq!(rt; value.as_slice(), [0, 0, 0, 0].as_slice());
    Ok(())
}
