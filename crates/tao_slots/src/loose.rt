//! The list of loose slots: those of held nodes whose parent isn't held. Each has the loose slots before and after it.
ghost use Rattle.tao_slots.specs.Columns.{IsRehung};

use crate::slot::Slot;

/// Hangs a slot on the list where its parent has gone, and takes it off where its parent has come.
pub(crate) fn rehang(
    slots: &mut [Slot],
    loose: &mut Option<u32>,
    place: u32,
    was_loose: bool,
    is_loose: bool,
)
    ensures { IsRehung slots.old slots.new }
{
    if was_loose && !is_loose {
        unhang(slots, loose, place);
    }
    if is_loose && !was_loose {
        hang(slots, loose, place);
    }
}

/// Puts a slot at the front of the list.
pub(crate) fn hang(slots: &mut [Slot], loose: &mut Option<u32>, place: u32)
    ensures { IsRehung slots.old slots.new }
{
    join(slots, loose, Some(place), *loose);
    join(slots, loose, None, Some(place));
}

/// Takes a slot off the list.
pub(crate) fn unhang(slots: &mut [Slot], loose: &mut Option<u32>, place: u32)
    ensures { IsRehung slots.old slots.new }
{
    if (place as usize) < slots.len() {
        let slot = &slots[place as usize];
        let (before, after) = (slot.before, slot.after);
        join(slots, loose, before, after);
    }
}

// Makes two slots neighbours on the list. None before is its front, and none after its end.
fn join(slots: &mut [Slot], loose: &mut Option<u32>, before: Option<u32>, after: Option<u32>)
    ensures { IsRehung slots.old slots.new }
{
    set_after(slots, loose, before, after);
    set_before(slots, after, before);
}

fn set_after(slots: &mut [Slot], loose: &mut Option<u32>, at: Option<u32>, after: Option<u32>)
    ensures { IsRehung slots.old slots.new }
{
    match at {
        None => *loose = after,
        Some(place) => {
            if (place as usize) < slots.len() {
                slots[place as usize].after = after;
            }
        }
    }
}

fn set_before(slots: &mut [Slot], at: Option<u32>, before: Option<u32>)
    ensures { IsRehung slots.old slots.new }
{
    if let Some(place) = at {
        if (place as usize) < slots.len() {
            slots[place as usize].before = before;
        }
    }
}
