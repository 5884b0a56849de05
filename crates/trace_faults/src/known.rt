//! What a recording that began in the middle has shown of a target.
ghost use Rattle.std.specs.Prelude.{◌≡◌, get_or, slice_set, nat_lt};
ghost use Rattle.trace_faults.specs.Middle.{nothing_known, all_known, first_known, all_first_known, known_of, knows, is_doubtful, doubts_ready, doubts_lun, doubts, is_whole, stops_others, waits_for_reset, begins_here, learned};

use crate::looks::Looks;
use crate::lun_known::{LunKnown, is_reset};
use crate::outside::is_opening;
use nand_geometry::Geometry;
use onfi_cycle::{BusState, Item, Lun, LunState, is_shared};

/// How many targets a channel has at most.
pub(crate) const MOST_TARGETS: usize = 4;

/// What is known of a target: whether an opener of it has come, and what the recording has shown of its four LUNs.
#[derive(Clone, Copy)]
pub struct Known {
    pub(crate) opened: bool,
    pub(crate) zeroth: LunKnown,
    pub(crate) first: LunKnown,
    pub(crate) second: LunKnown,
    pub(crate) third: LunKnown,
}

/// What is known of each target.
pub type AllKnown = [Known; MOST_TARGETS];

// Whether a LUN is there that isn't known.
fn is_doubtful(lun: Option<LunState>, known: bool) -> bool
    ensures { result ≡ is_doubtful lun known }
{
    match lun {
        None => false,
        Some(_) => !known,
    }
}

// Whether a target has several LUNs, and commands of one of them stop the others: those that are of all of them, and Change Read Column Enhanced.
fn stops_others(geometry: &Geometry) -> bool
    ensures { result ≡ stops_others geometry.now }
{
    let parts = geometry.parts();
    is_shared(geometry) || (parts.optional.has_enhanced_column() && parts.luns > 1)
}

// Whether nothing is sure of a target before a reset: commands of one LUN stop the others, or its chip has a copyback or programs caches.
fn waits_for_reset(geometry: &Geometry) -> bool
    ensures { result ≡ waits_for_reset geometry.now }
{
    let optional = geometry.parts().optional;
    stops_others(geometry) || optional.has_copyback() || optional.has_program_cache()
}

/// From this item on its target, which has this geometry, is judged: from an opener, or from a reset where nothing is sure before one.
pub(crate) fn begins_here(geometry: &Geometry, item: Item) -> bool
    ensures { result ≡ begins_here geometry.now item }
{
    if waits_for_reset(geometry) {
        is_reset(item)
    } else {
        is_opening(geometry, item)
    }
}

impl Known {
    /// Nothing has been seen of a target.
    pub(crate) fn nothing() -> Known
        ensures { result ≡ nothing_known }
    {
        Known {
            opened: false,
            zeroth: LunKnown::Nothing,
            first: LunKnown::Nothing,
            second: LunKnown::Nothing,
            third: LunKnown::Nothing,
        }
    }

    // Nothing is in doubt: of a target that isn't there.
    pub(crate) fn all() -> Known
        ensures { result ≡ all_known }
    {
        Known {
            opened: true,
            zeroth: LunKnown::All,
            first: LunKnown::All,
            second: LunKnown::All,
            third: LunKnown::All,
        }
    }

    // What is known at first of a target that is there or isn't.
    fn at_first(there: bool) -> Known
        ensures { result ≡ first_known there }
    {
        if there {
            Known::nothing()
        } else {
            Known::all()
        }
    }

    // What is known of the LUN of this number.
    fn knows(self, number: u8) -> LunKnown
        ensures { result ≡ knows self number }
    {
        match number {
            0 => self.zeroth,
            1 => self.first,
            2 => self.second,
            3 => self.third,
            _ => LunKnown::All,
        }
    }

    /// Whether the LUN of this number is there and hasn't begun work.
    pub(crate) fn doubts_ready(self, state: &BusState, ce: u8, lun: u8) -> bool
        ensures { result ≡ doubts_ready state.now self ce lun }
    {
        is_doubtful(
            state.lun_state(Lun { ce, lun }),
            self.knows(lun).has_begun(),
        )
    }

    /// All is known of the target, so no item tells more of it.
    pub(crate) fn is_whole(self) -> bool
        ensures { result ≡ is_whole self }
    {
        self.opened
            && self.zeroth.is_all()
            && self.first.is_all()
            && self.second.is_all()
            && self.third.is_all()
    }

    // Whether the LUN of this number is there, and not all is known of it.
    fn doubts_lun(self, state: &BusState, ce: u8, lun: u8) -> bool
        ensures { result ≡ doubts_lun state.now self ce lun }
    {
        is_doubtful(state.lun_state(Lun { ce, lun }), self.knows(lun).is_all())
    }

    /// Whether there is a LUN of its target of which not all is known.
    #[tactic(auto, using(crate::proofs::Knowing::no_doubts))]
    pub(crate) fn doubts(self, state: &BusState, ce: u8) -> bool
        ensures { result ≡ doubts state.now self ce }
    {
        if self.is_whole() {
            return false;
        }
        self.doubts_lun(state, ce, 0)
            || self.doubts_lun(state, ce, 1)
            || self.doubts_lun(state, ce, 2)
            || self.doubts_lun(state, ce, 3)
    }

    /// What is known after an item of its target, which has this geometry, with a look at its LUNs before it and one after it.
    pub(crate) fn learned(
        self,
        geometry: &Geometry,
        item: Item,
        before: Looks,
        after: Looks,
    ) -> Known
        ensures { result ≡ learned geometry.now item before after self }
    {
        let planes = geometry.parts().optional.has_plane_reads();
        Known {
            opened: self.opened || begins_here(geometry, item),
            zeroth: self
                .zeroth
                .learned(planes, item, before.zeroth, after.zeroth),
            first: self.first.learned(planes, item, before.first, after.first),
            second: self
                .second
                .learned(planes, item, before.second, after.second),
            third: self.third.learned(planes, item, before.third, after.third),
        }
    }
}

/// What is known at first of the targets of a channel that has so many.
pub(crate) fn all_at_first(targets: u8) -> AllKnown
    ensures { result ≡ all_first_known targets }
{
    [
        Known::at_first(0 < targets),
        Known::at_first(1 < targets),
        Known::at_first(2 < targets),
        Known::at_first(3 < targets),
    ]
}

/// What is known of a target.
pub(crate) fn known_of(known: &AllKnown, ce: u8) -> Known
    ensures { result ≡ known_of known.now ce }
{
    match known.as_slice().get(usize::from(ce)) {
        Some(found) => *found,
        None => Known::all(),
    }
}

/// Writes down what is known of a target, if that can be there.
pub(crate) fn note_known(known: &mut AllKnown, ce: u8, now: Known)
    ensures { known.new ≡ slice_set known.old ce now }
{
    let place = usize::from(ce);
    if place < MOST_TARGETS {
        known[place] = now;
    }
}
