//! How near a trace comes to the least times.

ghost use Rattle.trace_timing.specs.Wanted.{AreBounded};

use crate::clock::Pair;
use crate::timing_fault::TimingFault;
use crate::watch::{Ruler, TimedItem, Watch, clock_at, cut_all, go_on, is_before};
use onfi_cycle::{Cycle, Item};
use onfi_pauses::LastCycle;

/// The pair of a timing that comes nearest to it, or falls short of it the most, in femtoseconds.
#[derive(Clone, Copy, Debug, PartialEq, Eq)]
pub struct Nearest {
    /// The number of the item that comes second, from 0.
    pub item: usize,
    pub seen: u64,
    pub wanted: u64,
}

/// How near a trace comes to each least time.
#[derive(Clone, Copy, Debug, PartialEq, Eq)]
pub struct Margins {
    /// Of the timings of [`Margins::TIMINGS`], in that order.
    pub nearest: [Option<Nearest>; 8],
    /// How many pairs were judged.
    pub pairs: u64,
    /// How many cycles have another before them on their target, but not two times that can be compared.
    pub without_times: u64,
}

// One more.
fn count(number: &mut u64) {
    *number = number.saturating_add(1);
}

// The place of a timing among the margins.
fn place_of(fault: TimingFault) -> Option<usize> {
    Margins::TIMINGS.iter().position(|timing| *timing == fault)
}

// Whether a pair has less to spare than the nearest one.
fn is_nearer(pair: Pair, nearest: Option<Nearest>) -> bool {
    match nearest {
        None => true,
        Some(nearest) => {
            pair.seen.saturating_add(nearest.wanted) < nearest.seen.saturating_add(pair.wanted)
        }
    }
}

impl Margins {
    /// The timings that have margins.
    pub const TIMINGS: [TimingFault; 8] = [
        TimingFault::WriteCycle,
        TimingFault::ReadCycle,
        TimingFault::AddressToInput,
        TimingFault::ToOutput,
        TimingFault::ColumnChange,
        TimingFault::OutputToCommand,
        TimingFault::ReadyToOutput,
        TimingFault::ToBusy,
    ];

    // Notes a pair that ends with this item.
    fn note(&mut self, item: usize, pair: Option<Pair>) {
        let Some(pair) = pair else {
            return;
        };
        let Some(place) = place_of(pair.fault) else {
            return;
        };
        if let Some(nearest) = self.nearest.get_mut(place) {
            if is_nearer(pair, *nearest) {
                *nearest = Some(Nearest {
                    item,
                    seen: pair.seen,
                    wanted: pair.wanted,
                });
            }
        }
    }

    // Notes the pairs of a cycle.
    fn note_cycle(
        &mut self,
        watch: &Watch,
        ruler: Ruler,
        item: usize,
        cycle: Cycle,
        time: Option<u64>,
    )
        requires { AreBounded ruler.timings }
    {
        let clock = clock_at(&watch.clocks, cycle.ce);
        let by_cycle = clock.cycle_pair(ruler.timings, ruler.unit, cycle.kind, time);
        let by_work = clock.busy_pair(ruler.timings, ruler.unit, cycle.kind, time);
        let by_ready = clock.ready_pair(ruler.timings, ruler.unit, ruler.one_lun, cycle.kind, time);
        self.note(item, by_cycle);
        self.note(item, by_work);
        self.note(item, by_ready);
        if by_cycle.is_some() || by_work.is_some() {
            count(&mut self.pairs);
        } else if clock.last != LastCycle::Nothing {
            count(&mut self.without_times);
        }
        if by_ready.is_some() {
            count(&mut self.pairs);
        }
    }

    // Goes on by an item.
    fn take(&mut self, watch: &mut Watch, ruler: Ruler, number: usize, timed: TimedItem)
        requires { AreBounded ruler.timings }
    {
        let TimedItem { time, item } = timed;
        if is_before(watch.latest, time) {
            cut_all(&mut watch.clocks);
        }
        if let Item::Cyc(cycle) = item {
            self.note_cycle(watch, ruler, number, cycle, time);
        }
        go_on(&mut watch.clocks, item, time);
        watch.latest = time.or(watch.latest);
    }

    /// The margins of a trace.
    pub fn of(ruler: Ruler, items: &[TimedItem]) -> Margins
        requires { AreBounded ruler.timings }
    {
        let mut margins = Margins {
            nearest: [None; 8],
            pairs: 0,
            without_times: 0,
        };
        let mut watch = Watch::new();
        for (number, timed) in items.iter().enumerate() {
            margins.take(&mut watch, ruler, number, *timed);
        }
        margins
    }
}
