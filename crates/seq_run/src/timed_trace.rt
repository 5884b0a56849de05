//! The times of the trace of a run, by a timing mode and the times that the parameter page declares.
ghost use Rattle.std.specs.Prelude.{reverse, IfOk};
ghost use Rattle.seq_run.specs.Timed.{IsTimed, HasTimes};

use onfi_cycle::Item;
use std::alloc::{AllocError, Global};
use target_bus::Bus;
use trace_text::TimedItem;
use trace_timing::{ModelClock, PageTimes, TimingMode, longest_of, timings_of};

// The items with the times of a clock.
#[tactic(auto, using(crate::proofs::Timing::none_timed, crate::proofs::Timing::all_timed))]
fn time_items(
    alloc: Global,
    clock: ModelClock,
    items: &[Item],
) -> Result<Vec<TimedItem>, AllocError>
    ensures { IfOk result (λ timed. IsTimed items.now timed.items) }
{
    let mut clock = clock;
    let mut timed = Vec::with_capacity(alloc, items.len())?;
    for &item in items {
        let time = clock.take(item);
        timed.push(TimedItem { time, item })?;
    }
    Ok(timed)
}

/// The trace of a bus with times by this timing mode, for a chip whose page declares these; nothing where no mode is asked for.
pub(crate) fn time_trace(
    alloc: Global,
    mode: Option<TimingMode>,
    page: PageTimes,
    bus: &Bus,
) -> Result<Vec<TimedItem>, AllocError>
    ensures { IfOk result (λ timed. HasTimes mode (reverse bus.now.past) timed.items) }
{
    let Some(mode) = mode else {
        return Ok(Vec::new(alloc));
    };
    let clock = ModelClock::new(
        bus.geometry(),
        bus.targets(),
        timings_of(mode, page),
        longest_of(mode, page),
    );
    time_items(alloc, clock, bus.trace())
}
