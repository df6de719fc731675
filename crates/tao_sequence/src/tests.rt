ghost use Rattle.std.specs.Prelude.{◌≡◌, ◌<◌, false, length, slice_set, true};
ghost use Rattle.tao_sequence.specs.Release.{is_done_in};

use crate::Sequence;
use std::test::Fail;
use tao_base::Params;

// Says that one more is done, and tells how many are released.
fn released_with(sequence: &mut Sequence, arrival: u64) -> u64
    requires limit { arrival < length sequence.old }
    requires once { is_done_in sequence.old arrival ≡ false }
    ensures { sequence.new ≡ slice_set sequence.old arrival true }
{
    sequence.done(arrival);
    sequence.released()
}

// done in another order than they arrived: a gap holds all later ones back
#[test]
fn released_up_to_a_gap(rt: HostRuntime) -> Result<(), Fail> {
    let alloc = rt.alloc();
    let p = Params::new(1, 1, 4, 1, 1)?;
    let mut sequence = Sequence::new(alloc, &p)?;
    assert_eq!(rt; sequence.released(), 0);
    assert_eq!(rt; released_with(&mut sequence, 1), 0);
    assert_eq!(rt; released_with(&mut sequence, 3), 0);
    assert_eq!(rt; sequence.released_after(2), 0);
    assert_eq!(rt; sequence.released_after(0), 2);
    assert_eq!(rt; released_with(&mut sequence, 0), 2);
    assert_eq!(rt; released_with(&mut sequence, 2), 4);
    assert_eq!(rt; released_with(&mut sequence, 65_535), 4);
    assert!(rt; sequence.is_done(65_535));
    assert!(rt; !sequence.is_done(4));
    assert!(rt; !sequence.is_done(65_536));
    Ok(())
}
