//! Which steps are misplaced.
ghost use Rattle.std.specs.Prelude.{◌≡◌, List, not, reverse};
ghost use Rattle.std.specs.Option.{option_copied};
ghost use Rattle.tao_schedule.specs.Laws.{HasDepth};
ghost use Rattle.tao_schedule.specs.Moves.{Move};
ghost use Rattle.tao_schedule.specs.Steps.{is_misplaced as misplaced};
ghost use Rattle.tao_world.specs.State.{row_at as found_at};
ghost use Rattle.tao_world.specs.Steps.{may_come as lets_come};
ghost use Rattle.tao_world.specs.World.{IsLeftBy};

use crate::world::World;
use tao_text::What;

impl World {
    /// Whether a step is misplaced. A read's depth has to be one of the tree.
    pub(crate) fn is_misplaced(&self, what: &What) -> bool
        requires { HasDepth self.now.desk.history.opening.shape what.now }
        ensures { (ms : List Move) → IsLeftBy ms self.now → result ≡ misplaced self.now.desk.history.opening ms (reverse self.now.desk.history.events) what.now }
    {
        !self.may_come(what)
    }

    #[tactic(auto, unfolding(crate::specs::Steps::may_come))]
    // Whether the tables let a step come.
    fn may_come(&self, what: &What) -> bool
        ensures { result ≡ lets_come self.now.desk.history.opening.shape.l self.now.fetches self.now.stores what.now }
    {
        let depths = self.desk.params().l() + 1;
        match what {
            What::Do(_, _) => true,
            What::A(_, _) => true,
            What::Read(fetch, None) => row_at(&self.fetches, *fetch as usize).is_some(),
            What::Read(fetch, Some(depth)) => match row_at(&self.fetches, *fetch as usize) {
                Some(fetch) => !fetch.is_read(*depth),
                None => false,
            },
            What::Done(fetch) => match row_at(&self.fetches, *fetch as usize) {
                Some(fetch) => fetch.is_whole(depths),
                None => false,
            },
            What::Put(version, None) => row_at(&self.stores, *version as usize).is_some(),
            What::Put(version, Some(node)) => match row_at(&self.stores, *version as usize) {
                Some(store) => store.has_left(*node),
                None => false,
            },
            What::Ack(version) => match row_at(&self.stores, *version as usize) {
                Some(store) => store.left == 0,
                None => false,
            },
        }
    }
}

// The row of a table at a place, if it has one there.
fn row_at<T>(rows: &[Option<T>], place: usize) -> Option<&T>
    ensures { option_copied result ≡ found_at rows.now place }
{
    if place < rows.len() {
        rows[place].as_ref()
    } else {
        None
    }
}
