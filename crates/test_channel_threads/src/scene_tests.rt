//! Four workers on a channel, and four hosts that store jobs meanwhile.
ghost use Rattle.std.specs.Prelude.{◌≡◌, None};
ghost use Rattle.job_queue.specs.Passes.{owns};

use crate::chance::Chance;
use crate::scene::Scene;
use channel_work::{Channel, Gathered, Turns, WorkEnd, WorkerPass};
use job_queue::{HostPass, JobQueue};
use seq_core::Job;
use std::alloc::Global;
use std::marker::Brand;
use std::process::Abort;
use std::sync::Wait;
use std::sync::ledger::Blank;
use std::test::*;
use std::thread;
use std::thread::Threads;
use test_channel_scenes::{
    FOUR_LUNS, ONE_LUN, TwoHosts, end_two, gather, make_erase, make_state, make_two_passes,
    make_wide_queue, submit, work_by_two,
};

// Stores the jobs of a host; false without memory.
fn store_all<R: Wait + AllocGlobal>(
    rt: &R,
    queue: &JobQueue<Job>,
    pass: HostPass<Job>,
    scene: &Scene,
    host: u64,
) -> bool
    requires { owns queue.now pass }
{
    let mut pass = pass;
    for number in 0..scene.count {
        let Some(job) = make_erase(rt.alloc(), scene.erase(host, number)) else {
            return false;
        };
        pass = submit(rt, queue, pass, job);
    }
    true
}

// Two hosts store their jobs.
fn store_by_two<R: Threads + Wait + Sync + AllocGlobal>(
    rt: &R,
    queue: &JobQueue<Job>,
    hosts: TwoHosts,
    scene: &Scene,
    first_host: u64,
) -> bool
    requires { owns queue.now hosts.0 × owns queue.now hosts.1 }
{
    let (first, second) = hosts;
    let (one, two) = thread::join(
        rt,
        move || -> bool
            requires { owns queue.now first }
        { store_all(rt, queue, first, scene, first_host) },
        move || -> bool
            requires { owns queue.now second }
        { store_all(rt, queue, second, scene, first_host.wrapping_add(1)) },
    );
    one && two
}

// Four hosts store their jobs, and then the gate is closed.
fn store_and_close<R: Threads + Wait + Sync + AllocGlobal>(
    rt: &R,
    queue: &JobQueue<Job>,
    first: TwoHosts,
    second: TwoHosts,
    scene: &Scene,
    gate: &Chance,
) -> bool
    requires first { owns queue.now first.0 × owns queue.now first.1 }
    requires second { owns queue.now second.0 × owns queue.now second.1 }
{
    let (one, two) = thread::join(
        rt,
        move || -> bool
            requires { owns queue.now first.0 × owns queue.now first.1 }
        { store_by_two(rt, queue, first, scene, 0) },
        move || -> bool
            requires { owns queue.now second.0 × owns queue.now second.1 }
        { store_by_two(rt, queue, second, scene, 2) },
    );
    gate.close();
    one && two
}

// Two workers and two more.
type FourEnds<L> = ((WorkEnd<L>, WorkEnd<L>), (WorkEnd<L>, WorkEnd<L>));

// Four workers run a channel side by side.
fn work_by_four<L: Turns + Sync, R: Threads + Wait + Sync>(
    rt: &R,
    channel: &Channel<L>,
    gate: &Chance,
    first: (WorkerPass<L>, WorkerPass<L>),
    second: (WorkerPass<L>, WorkerPass<L>),
) -> FourEnds<L> {
    thread::join(
        rt,
        move || work_by_two(rt, channel, gate, first),
        move || work_by_two(rt, channel, gate, second),
    )
}

// Their passes, once all have ended quietly.
fn end_four<L: Turns>(alloc: Global, ends: FourEnds<L>) -> Result<Vec<WorkerPass<L>>, Fail> {
    let (first, second) = ends;
    let mut passes = end_two(alloc, first)?;
    let mut others = end_two(alloc, second)?;
    passes.append(&mut others)?;
    Ok(passes)
}

// Four hosts store their jobs in a queue of four places, and four workers do them.
fn run_scene<L: Turns + Sync, R: Threads + Wait + Sync + AllocGlobal>(
    rt: &R,
    blank: Blank,
    scene: &Scene,
    gate: &Chance,
) -> Result<Gathered, Fail>
    requires name { blank.name ≡ L.name }
    requires parts { (blank.parts ≡ L.parts) × (L.all ≡ L.parts) × (L.parts ≡ 9) × (L.origin ≡ None) }
{
    let (queue, hosts, others, taker) = make_wide_queue(rt.alloc(), 4)?;
    let mut state = make_state::<L>(rt.alloc(), blank, scene.parts, scene.targets, taker)?;
    let first = make_two_passes(&mut state)?;
    let second = make_two_passes(&mut state)?;
    let channel = Channel::new(state);
    let (stored, ends) = thread::join(
        rt,
        || -> bool
            requires { (owns queue hosts.0 × owns queue hosts.1) × (owns queue others.0 × owns queue others.1) }
        { store_and_close(rt, &queue, hosts, others, scene, gate) },
        || work_by_four(rt, &channel, gate, first, second),
    );
    if !stored {
        return Err(Fail::from("out of memory"));
    }
    gather(channel.into_state(), end_four(rt.alloc(), ends)?)
}

// On sixteen LUNs; by chance; turn by turn; and on one LUN alone.
const SCENES: [Scene; 4] = [
    Scene {
        parts: FOUR_LUNS,
        targets: 4,
        luns: 16,
        count: 200,
        refused: 0,
        failed: 0,
        takes_turns: false,
    },
    Scene {
        parts: FOUR_LUNS,
        targets: 4,
        luns: 16,
        count: 50,
        refused: 5,
        failed: 3,
        takes_turns: false,
    },
    Scene {
        parts: FOUR_LUNS,
        targets: 4,
        luns: 16,
        count: 4,
        refused: 0,
        failed: 0,
        takes_turns: true,
    },
    Scene {
        parts: ONE_LUN,
        targets: 1,
        luns: 1,
        count: 8,
        refused: 0,
        failed: 0,
        takes_turns: false,
    },
];

// Whether a scene comes to what it must.
fn play<R: Threads + Wait + Sync + AllocGlobal>(rt: &R, scene: &Scene) -> Result<bool, Fail> {
    let gate = Chance::new(scene.refused, scene.failed, scene.takes_turns);
    let gathered = run_scene::<Brand, _>(rt, Blank::new(9), scene, &gate)?;
    scene.is_done(rt.alloc(), &gathered, &gate)
}

#[test]
fn four_workers_do_what_four_hosts_store(rt: HostRuntime) -> Result<(), Fail> {
    for (place, scene) in SCENES.iter().enumerate() {
        if !play(&rt, scene)? {
            return Err(Fail::new(format_args!("scene {place} came to something else")));
        }
    }
    Ok(())
}
