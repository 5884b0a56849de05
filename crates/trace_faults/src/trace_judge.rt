//! A trace that is judged item by item.
ghost use Rattle.std.specs.Prelude.{◌≡◌, ◌≤◌};
ghost use Rattle.trace_faults.specs.Middle.{verdict, seen_after, first_seen_as, known_first_as};
ghost use Rattle.trace_faults.specs.Recovery.{fresh_for};

use crate::beginning::Beginning;
use crate::known::{AllKnown, Known, all_at_first};
use crate::middle::go_on_from_middle;
use crate::readies::Readies;
use crate::trace_state::TraceState;
use crate::verdict::Verdict;
use nand_geometry::Geometry;
use onfi_cycle::Item;

// What is known of each target of a recording that begins there.
fn known_first_as(beginning: Beginning, targets: u8) -> AllKnown
    ensures { result ≡ known_first_as beginning targets }
{
    match beginning {
        Beginning::Start => [Known::all(); 4],
        Beginning::Middle => all_at_first(targets),
    }
}

/// A trace that is judged item by item, from its start or from the middle of what went on. It takes no memory.
#[derive(Drop)]
pub struct TraceJudge {
    /// The channel, after the items that came.
    pub state: TraceState,
    /// What they have shown of each target.
    pub known: AllKnown,
}

impl TraceJudge {
    /// Nothing has come yet of these items, on a channel of so many targets of this geometry, 4 at most.
    pub fn new(geometry: &Geometry, targets: u8, items: &[Item], beginning: Beginning) -> TraceJudge
        requires { targets ≤ 4 }
        ensures { record { state = result.state; known = result.known } ≡ first_seen_as beginning geometry.now targets items.now }
    {
        TraceJudge {
            state: TraceState::before(geometry, targets, items),
            known: known_first_as(beginning, targets),
        }
    }

    /// Goes on by an item, behind which these come, and tells what is said of it: as [`find_faults`](crate::find_faults) and
    /// [`find_faults_from_middle`](crate::find_faults_from_middle) judge.
    pub fn take(&mut self, readies: Readies, item: Item, later: &[Item]) -> Verdict
        ensures said { result ≡ verdict readies (record { state = self.old.state; known = self.old.known }) item later.now }
        ensures state { self.new.state ≡ (seen_after readies (record { state = self.old.state; known = self.old.known }) item later.now).state }
        ensures known { self.new.known ≡ (seen_after readies (record { state = self.old.state; known = self.old.known }) item later.now).known }
    {
        go_on_from_middle(&mut self.state, &mut self.known, readies, item, later)
    }
}
