//! Jobs that wait for ever, and one behind them. A `start` that takes no more jobs while some wait meets its contract: then a closed channel
//! ends with a job in its queue, and this fails.
ghost use Rattle.std.specs.Prelude.{◌≡◌, None};

use crate::gate_tests::Recorder;
use channel_work::{Gathered, Turns};
use std::marker::Brand;
use std::process::Abort;
use std::sync::Wait;
use std::sync::ledger::Blank;
use std::test::*;
use test_channel_scenes::{
    Erase, ON_ONE, ON_ZERO, ONE, ONE_LUN, TWO_LUNS, Told, make_queue, make_state, run_alone,
    submit_erases, tell_done,
};

// Erases of LUN 0 that are verified for another geometry, so that none can start.
const WAITING: &[Erase] = &[Erase {
    parts: ONE_LUN,
    ..ON_ZERO
}; 64];

// What is left of a channel: the job that was done first, how many were done and how many weren't, and whether the queue has none.
type Left = (Option<Told>, usize, usize, bool);

fn left_of<R: Wait>(rt: &R, mut gathered: Gathered) -> Left {
    let done = gathered.done.as_slice();
    (
        tell_done(done, 0),
        done.len(),
        gathered.backlog.len(),
        gathered.taker.take(rt).is_none(),
    )
}

// These, and behind them an erase of LUN 1, by one worker whose channel is closed.
fn work_past_waiting<L: Turns, R: Wait + AllocGlobal>(rt: &R, blank: Blank) -> Result<Left, Fail>
    requires name { blank.name ≡ L.name }
    requires parts { (blank.parts ≡ L.parts) × (L.all ≡ L.parts) × (L.parts ≡ 9) × (L.origin ≡ None) }
{
    let (queue, host, _other, taker) = make_queue(rt.alloc(), 65)?;
    let host = submit_erases(rt, &queue, host, WAITING)?;
    let _host = submit_erases(rt, &queue, host, &[ON_ONE])?;
    let state = make_state::<L>(rt.alloc(), blank, TWO_LUNS, 1, taker)?;
    let gathered = run_alone(rt, state, &Recorder::new(1))?;
    Ok(left_of(rt, gathered))
}

#[test]
fn waiting_jobs_keep_none_in_the_queue(rt: HostRuntime) -> Result<(), Fail> {
    let left = work_past_waiting::<Brand, _>(&rt, Blank::new(9))?;
    assert_eq!(rt; left, (Some((0, 64, ONE, 0)), 1, 64, true));
    Ok(())
}
