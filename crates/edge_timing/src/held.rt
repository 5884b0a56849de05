//! What a cycle that was written holds.
ghost use Rattle.std.specs.Prelude.{◌≡◌};
ghost use Rattle.edge_timing.specs.Watched.{nothing_held, held_by, held_until, hold_distances, held_after};

use crate::distance::{Distance, between};
use crate::edge::Edge;
use crate::edge_timing::EdgeTiming;
use crate::moment::Moment;
use crate::since::Since;
use bus_signals::Role;

/// The last cycle that was written, if there is one, and which lines it holds still: those that haven't changed since.
#[derive(Clone, Copy, Debug, PartialEq, Eq)]
pub struct Held {
    pub since: Option<u64>,
    pub target: u8,
    pub dq: bool,
    pub cle: bool,
    pub ale: bool,
    pub enable: bool,
}

impl Held {
    /// Nothing was written.
    pub fn nothing() -> Held
        ensures { result ≡ nothing_held }
    {
        Held {
            since: None,
            target: 0,
            dq: false,
            cle: false,
            ale: false,
            enable: false,
        }
    }

    /// A cycle of this target was.
    pub fn by(target: u8, time: u64) -> Held
        ensures { result ≡ held_by target time }
    {
        Held {
            since: Some(time),
            target,
            dq: true,
            cle: true,
            ale: true,
            enable: true,
        }
    }

    /// How long it was held until a line changed now, if it was.
    pub(crate) fn until(
        self,
        so: bool,
        timing: EdgeTiming,
        edge: Edge,
        time: u64,
    ) -> Option<Distance>
        ensures { result ≡ held_until self so timing edge time }
    {
        if so {
            between(timing, edge, Since::WeRise, self.since, Some(time))
        } else {
            None
        }
    }

    /// How long DQ, CLE and ALE were held until this moment.
    pub(crate) fn distances(self, moment: &Moment) -> [Option<Distance>; 3]
        ensures { result ≡ hold_distances self moment.now }
    {
        let time = moment.time;
        let dq = self.dq && moment.changes_data();
        let cle = self.cle && moment.changes(Role::Cle);
        let ale = self.ale && moment.changes(Role::Ale);
        [
            self.until(dq, EdgeTiming::DataHold, Edge::DqChanges, time),
            self.until(cle, EdgeTiming::CleHold, Edge::CleChanges, time),
            self.until(ale, EdgeTiming::AleHold, Edge::AleChanges, time),
        ]
    }

    /// What it holds after this moment.
    pub(crate) fn after(self, moment: &Moment) -> Held
        ensures { result ≡ held_after self moment.now }
    {
        Held {
            dq: self.dq && !moment.changes_data(),
            cle: self.cle && !moment.changes(Role::Cle),
            ale: self.ale && !moment.changes(Role::Ale),
            ..self
        }
    }
}
