//! The busy polls and the readies of each LUN, counted item by item.
ghost use Rattle.std.specs.Prelude.{◌≡◌, ℕ, ◌-◌, ◌+◌, ◌^◌, ◌<◌, ◌≤◌, length, reverse, take, nat_lt};
ghost use Rattle.target_bus.specs.Bus.{numbered};
ghost use Rattle.channel_work.specs.Counts.{stands_after, polls_after, count_after, poll_row, AreCounts, IsFewAt, HaveCounted, HasCounted, gives_data, AreDataFrom, AreRepeated};

use micro_program::is_ready_status;
use nand_geometry::Geometry;
use onfi_cycle::{Item, Kind, Lun, MAX_CHANNEL_LUNS, READ_STATUS, READ_STATUS_ENHANCED};
use seq_core::Core;

// The cycles before the output of a poll: the command, and where a target has many LUNs three bytes of a row.
const POLL_LENGTH: u8 = 1;

const ENHANCED_POLL_LENGTH: u8 = 4;

/// What is counted of a LUN: how many cycles of a poll stand at the end, how many polls have said busy since its last ready, and
/// how many readies there were.
#[derive(Clone, Copy, Debug, PartialEq, Eq)]
pub struct LunCount {
    pub stands: u8,
    pub polls: u64,
    pub works: u64,
}

/// The LUN of a number.
pub(crate) fn find_lun(geometry: &Geometry, number: u32) -> Lun
    requires { number < 16 }
    ensures { result ≡ numbered geometry.now number }
{
    Lun::at(number as usize, geometry.parts().luns)
}

// The row bytes of a poll of a LUN.
fn find_poll_row(geometry: &Geometry, lun: Lun) -> [u8; 3]
    ensures { result ≡ poll_row geometry.now lun }
{
    match geometry.row_bytes(lun.lun, 0, 0) {
        Some(row) => row,
        None => [0; 3],
    }
}

// Whether there are several LUNs on a target, so that a poll names its LUN.
fn has_many(geometry: &Geometry) -> bool
    ensures { result ≡ nat_lt 1 geometry.now.luns }
{
    geometry.parts().luns > 1
}

// How many cycles of a poll of a LUN stand at the end after a cycle.
fn count_stands(geometry: &Geometry, lun: Lun, stands: u8, kind: Kind, byte: u8) -> u8
    ensures { result ≡ stands_after (nat_lt 1 geometry.now.luns) (poll_row geometry.now lun) stands kind byte }
{
    match kind {
        Kind::Cmd => {
            let opener = if has_many(geometry) {
                READ_STATUS_ENHANCED
            } else {
                READ_STATUS
            };
            if byte == opener { 1 } else { 0 }
        }
        Kind::Adr => {
            let goes_on = 1 <= stands && stands <= 3 && has_many(geometry);
            if goes_on && byte == find_poll_row(geometry, lun)[stands as usize - 1] {
                stands + 1
            } else {
                0
            }
        }
        _ => 0,
    }
}

// How many polls have said busy after a cycle.
fn count_polls(geometry: &Geometry, stands: u8, polls: u64, kind: Kind, byte: u8) -> u64
    requires { polls < 2 ^ 64 - 1 }
    ensures { result ≡ polls_after (nat_lt 1 geometry.now.luns) stands polls kind byte }
{
    match kind {
        Kind::Dout => {
            let whole = if has_many(geometry) {
                ENHANCED_POLL_LENGTH
            } else {
                POLL_LENGTH
            };
            if stands == whole && !is_ready_status(byte) {
                polls + 1
            } else {
                polls
            }
        }
        _ => polls,
    }
}

impl LunCount {
    // One cycle more on the LUN's target. Where no poll stands, data changes nothing.
    fn count_cycle(self, geometry: &Geometry, lun: Lun, kind: Kind, byte: u8) -> LunCount
        requires { self.polls < 2 ^ 64 - 1 }
        ensures stands { result.stands ≡ stands_after (nat_lt 1 geometry.now.luns) (poll_row geometry.now lun) self.stands kind byte }
        ensures polls { result.polls ≡ polls_after (nat_lt 1 geometry.now.luns) self.stands self.polls kind byte }
        ensures works { result.works ≡ self.works }
    {
        if self.stands == 0 && matches!(kind, Kind::Din | Kind::Dout) {
            return self;
        }
        LunCount {
            stands: count_stands(geometry, lun, self.stands, kind, byte),
            polls: count_polls(geometry, self.stands, self.polls, kind, byte),
            works: self.works,
        }
    }

    // One item more.
    fn count_item(self, geometry: &Geometry, lun: Lun, item: Item) -> LunCount
        requires polls { self.polls < 2 ^ 64 - 1 }
        requires works { self.works < 2 ^ 64 - 1 }
        ensures { result ≡ count_after (nat_lt 1 geometry.now.luns) (poll_row geometry.now lun) lun self item }
    {
        match item {
            Item::Cyc(cycle) => {
                if cycle.ce == lun.ce {
                    self.count_cycle(geometry, lun, cycle.kind, cycle.byte)
                } else {
                    self
                }
            }
            Item::Rdy {
                ce,
                lun: number,
                ..
            } => {
                if ce == lun.ce && number == lun.lun {
                    LunCount {
                        stands: self.stands,
                        polls: 0,
                        works: self.works + 1,
                    }
                } else {
                    self
                }
            }
            Item::Ard { .. } => self,
        }
    }
}

// One item more of the LUN of a number, if that is below 16.
fn count_at(
    counts: &mut [LunCount; MAX_CHANNEL_LUNS],
    geometry: &Geometry,
    number: u32,
    lun: Lun,
    item: Item,
)
    requires lun { lun ≡ numbered geometry.now number }
    requires few { number < 16 → IsFewAt counts.old number }
    ensures { HaveCounted geometry.now item counts.old counts.new number (number + 1) }
{
    let place = number as usize;
    if place < MAX_CHANNEL_LUNS {
        counts[place] = counts[place].count_item(geometry, lun, item);
    }
}

// One item more, which changes what is counted of the LUNs of its own target alone.
#[tactic(auto, using(crate::proofs::Recounting::number_is, crate::proofs::Recounting::still_few, crate::proofs::Recounting::more_counted, crate::proofs::Recounting::target_counted, crate::proofs::Recounting::first_counted))]
fn count_on_target(counts: &mut [LunCount; MAX_CHANNEL_LUNS], geometry: &Geometry, item: Item)
    requires { (n : ℕ) → n < 16 → IsFewAt counts.old n }
    ensures { HasCounted geometry.now item counts.old counts.new }
{
    let luns = geometry.parts().luns;
    let ce = item.target();
    let first = ce as u32 * luns as u32;
    for lun in 0..luns {
        count_at(counts, geometry, first + lun as u32, Lun { ce, lun }, item);
    }
}

// The item is data on a target.
fn gives_data(ce: u8, item: Item) -> bool
    ensures { result ≡ gives_data ce item }
{
    match item {
        Item::Cyc(cycle) => cycle.ce == ce && matches!(cycle.kind, Kind::Din | Kind::Dout),
        _ => false,
    }
}

// The first place from a place on whose item is no data on a target.
fn find_data_end(trace: &[Item], ce: u8, from: usize) -> usize
    requires { from ≤ length trace.now }
    ensures behind { from ≤ result }
    ensures inside { result ≤ length trace.now }
    ensures data { AreDataFrom ce trace.now from result }
{
    let mut at = from;
    while at < trace.len() && gives_data(ce, trace[at]) {
        at += 1;
    }
    at
}

// The first place behind a place whose item may change a count: data that comes directly after data on its target changes none.
fn skip_repeated(trace: &[Item], place: usize) -> usize
    requires { place < length trace.now }
    ensures behind { place < result }
    ensures inside { result ≤ length trace.now }
    ensures repeated { AreRepeated trace.now place result }
{
    let ce = trace[place].target();
    if gives_data(ce, trace[place]) {
        find_data_end(trace, ce, place + 1)
    } else {
        place + 1
    }
}

// Counts the item of a place.
fn count_place(
    counts: &mut [LunCount; MAX_CHANNEL_LUNS],
    geometry: &Geometry,
    trace: &[Item],
    place: usize,
)
    requires place { place < length trace.now }
    requires counts { AreCounts geometry.now counts.old (reverse (take place trace.now)) }
    ensures { AreCounts geometry.now counts.new (reverse (take (place + 1) trace.now)) }
{
    count_on_target(counts, geometry, trace[place]);
}

/// What is counted of each LUN, with the items of the trace from a place on.
pub(crate) fn count_luns(
    counts: [LunCount; MAX_CHANNEL_LUNS],
    core: &Core,
    from: usize,
) -> [LunCount; MAX_CHANNEL_LUNS]
    requires from { from ≤ length core.now.past }
    requires counts { AreCounts core.now.geometry counts (reverse (take from (reverse core.now.past))) }
    ensures size { length result ≡ 16 }
    ensures counts { AreCounts core.now.geometry result core.now.past }
{
    let geometry = core.geometry();
    let trace = core.trace();
    let mut counted = counts;
    let mut place = from;
    while place < trace.len() {
        count_place(&mut counted, &geometry, trace, place);
        place = skip_repeated(trace, place);
    }
    counted
}
