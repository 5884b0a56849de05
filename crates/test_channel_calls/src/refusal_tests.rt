//! Workers to whom memory may be refused. `tools/fail_allocs.py` runs these tests with each request for memory refused in turn; without it
//! none is.
ghost use Rattle.std.specs.Prelude.{◌≡◌, None};

use crate::tests::Open;
use channel_work::{
    Cause, Channel, ChannelState, Gate, Gathered, Turns, WorkEnd, WorkerPass, work,
};
use nand_geometry::Geometry;
use std::marker::Brand;
use std::process::Abort;
use std::sync::Wait;
use std::sync::ledger::Blank;
use std::test::*;
use std::thread::Threads;
use test_channel_scenes::{
    Erase, ON_ONE, ON_ZERO, TWO_LUNS, Told, ZERO, ended, gather, make_erasing, make_two_passes,
    tell_done, work_by_two,
};
use trace_text::check;

// The erase of the next block of LUN 0.
const NEXT_ON_ZERO: Erase = Erase { base: 4, ..ON_ZERO };

// The pass of a worker that has ended, however that came, with its lease parked.
fn take_pass<L: Turns>(end: WorkEnd<L>) -> Result<WorkerPass<L>, Fail> {
    let WorkEnd { pass, lease, .. } = end;
    match lease {
        None => Ok(pass),
        Some(_) => Err(Fail::from("a lease couldn't be parked")),
    }
}

// A worker runs a channel to its end, and once more if it ended for want of memory; and whether it did.
fn work_again<L: Turns, G: Gate, R: Wait>(
    rt: &R,
    channel: &Channel<L>,
    gate: &G,
    pass: WorkerPass<L>,
) -> Result<(WorkerPass<L>, bool), Fail> {
    let end = work(rt, channel, gate, pass);
    match end.cause {
        Cause::Quiet => Ok((ended(end)?, false)),
        Cause::OutOfMemory => Ok((ended(work(rt, channel, gate, take_pass(end)?))?, true)),
    }
}

// Two erases on one LUN, by one worker; and whether it ended once for want of memory.
fn erase_alone<L: Turns, R: Wait + AllocGlobal>(
    rt: &R,
    blank: Blank,
) -> Result<(Gathered, bool), Fail>
    requires name { blank.name ≡ L.name }
    requires parts { (blank.parts ≡ L.parts) × (L.all ≡ L.parts) × (L.parts ≡ 9) × (L.origin ≡ None) }
{
    let mut passes = Vec::new(rt.alloc());
    passes.reserve(1)?;
    let mut state = make_erasing::<L, R>(rt, blank, TWO_LUNS, 1, &[ON_ZERO, NEXT_ON_ZERO])?;
    let pass = state.worker().ok_or("a pass")?;
    let channel = Channel::new(state);
    let (pass, is_short) = work_again(rt, &channel, &Open, pass)?;
    passes.push(pass)?;
    Ok((gather(channel.into_state(), passes)?, is_short))
}

// All jobs are done and all is given back, after a legal trace.
fn is_whole(gathered: &Gathered) -> Result<bool, Fail> {
    let geometry = Geometry::of(TWO_LUNS)?;
    Ok(
        gathered.done.len() == 2
            && gathered.backlog.is_empty()
            && gathered.seats.len() == 16
            && gathered.parked.len() == 0
            && gathered.turns >= 4
            && check(&geometry, 1, gathered.core.trace()).is_ok(),
    )
}

// Both are done in their order, and all is whole. What is done first and second, and whether the worker ended once for want of memory.
fn tell_both<L: Turns, R: Wait + AllocGlobal>(
    rt: &R,
    blank: Blank,
) -> Result<([Option<Told>; 2], bool), Fail>
    requires name { blank.name ≡ L.name }
    requires parts { (blank.parts ≡ L.parts) × (L.all ≡ L.parts) × (L.parts ≡ 9) × (L.origin ≡ None) }
{
    let (gathered, is_short) = erase_alone::<L, R>(rt, blank)?;
    if !is_whole(&gathered)? {
        return Err(Fail::from("something isn't given back"));
    }
    let done = gathered.done.as_slice();
    Ok(([tell_done(done, 0), tell_done(done, 1)], is_short))
}

// `tools/fail_allocs.py` looks for what is printed.
#[test]
fn each_refusal_loses_nothing(rt: HostRuntime) -> Result<(), Fail> {
    let (told, is_short) = tell_both::<Brand, _>(&rt, Blank::new(9))?;
    assert_eq!(rt; told, [Some((0, 0, ZERO, 0)), Some((0, 1, ZERO, 0))]);
    if is_short {
        println!(rt; "out of memory: work 1")?;
    }
    Ok(())
}

// Two erases on two LUNs, by two workers, of whom the first works again after both have ended; and whether one of the two ended for
// want of memory.
fn erase_by_two<L: Turns + Sync, R: Threads + Wait + Sync + AllocGlobal>(
    rt: &R,
    blank: Blank,
) -> Result<(Gathered, bool), Fail>
    requires name { blank.name ≡ L.name }
    requires parts { (blank.parts ≡ L.parts) × (L.all ≡ L.parts) × (L.parts ≡ 9) × (L.origin ≡ None) }
{
    let mut ended_passes = Vec::new(rt.alloc());
    ended_passes.reserve(2)?;
    let mut state = make_erasing::<L, R>(rt, blank, TWO_LUNS, 1, &[ON_ZERO, ON_ONE])?;
    let passes = make_two_passes(&mut state)?;
    let channel = Channel::new(state);
    let (first, second) = work_by_two(rt, &channel, &Open, passes);
    let is_short = first.cause == Cause::OutOfMemory || second.cause == Cause::OutOfMemory;
    let first = take_pass(first)?;
    let (first, _) = work_again(rt, &channel, &Open, first)?;
    ended_passes.push(first)?;
    ended_passes.push(take_pass(second)?)?;
    Ok((gather(channel.into_state(), ended_passes)?, is_short))
}

// Whether all is whole then, and whether one of the two ended for want of memory.
fn look_at_two<L: Turns + Sync, R: Threads + Wait + Sync + AllocGlobal>(
    rt: &R,
    blank: Blank,
) -> Result<(bool, bool), Fail>
    requires name { blank.name ≡ L.name }
    requires parts { (blank.parts ≡ L.parts) × (L.all ≡ L.parts) × (L.parts ≡ 9) × (L.origin ≡ None) }
{
    let (gathered, is_short) = erase_by_two::<L, R>(rt, blank)?;
    Ok((is_whole(&gathered)?, is_short))
}

// `tools/fail_allocs.py` looks for what is printed.
#[test]
fn another_goes_on_after_a_refusal(rt: HostRuntime) -> Result<(), Fail> {
    let (is_whole, is_short) = look_at_two::<Brand, _>(&rt, Blank::new(9))?;
    assert!(rt; is_whole);
    if is_short {
        println!(rt; "out of memory: work of one of two workers 1")?;
    }
    Ok(())
}
