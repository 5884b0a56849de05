//! The step of a job's next word, whose bursts are done.
ghost use Rattle.std.specs.Prelude.{◌≡◌, ◌<◌, ◌≤◌, ◌^◌, Some, None, Ok, Err, true, IfSome, IfNone, length};
ghost use Rattle.onfi_cycle.specs.declared.item.Item.TheVariants.{Rdy, Ard};
ghost use Rattle.bus_record.specs.Bus.{IsSound, bus_view};
ghost use Rattle.onfiseq_live_c.specs.Bursts.{PollsOne};
ghost use Rattle.bus_record.specs.Trial.{IsTried, tried_view};
ghost use Rattle.seq_core.specs.Playing.{EndsWithFive};
ghost use Rattle.onfiseq_live_c.specs.Job.{job_view};
ghost use Rattle.onfiseq_live_c.specs.Finish.{with_array, with_status, with_readies, played, step, answer_letter, code_number, stopped, Finishes};

use crate::bursts::{bursts_for, polls_one, try_bursts};
use crate::due::due;
use crate::job::OnfiseqJob;
use crate::live::OnfiseqLive;
use crate::stop::Stop;
use bus_record::{OnfiseqBus, OnfiseqTarget, put_target, target_at, try_item, try_poll};
use micro_program::is_ready_status;
use micro_word::Word;
use onfi_cycle::{Item, Lun, Status};
use seq_core::Stepped;
use seq_core::lun_slots::holder_after;
use seq_core::outcome::outcome_of;
use seq_live::{is_poll, status_of, taken_by};

// The bit of a status byte that says that the array is ready (ARDY).
const ARRAY_READY: u8 = 0x20;

/// How a step went. `letter` is 0 where the word is done and the job has the bus. `Y`: it is done, and the job hands the bus over. `W`: a `wait` whose poll says
/// busy; it comes again, and others may have the bus. `E`: the job has ended, with `number` as its code. Else nothing has changed, and `letter` and `number` say
/// why.
#[repr(C)]
#[derive(Clone, Copy)]
pub struct OnfiseqStep {
    pub letter: u8,
    pub number: u32,
}

// The letter of an answer.
fn answer_letter(answer: Stepped) -> u8
    ensures { result ≡ answer_letter answer }
{
    match answer {
        Stepped::Went => 0,
        Stepped::Ended => b'E',
        Stepped::Held => b'H',
        Stepped::HandedOver => b'Y',
        Stepped::NotReady => b'W',
        Stepped::Empty => b'D',
    }
}

// The number of a code, 0 where there is none.
fn code_number(code: Option<u8>) -> u32
    ensures { result ≡ code_number code }
{
    match code {
        None => 0,
        Some(code) => u32::from(code),
    }
}

impl OnfiseqStep {
    /// Nothing has changed.
    pub(crate) fn stopped(stop: Stop) -> OnfiseqStep
        ensures { result ≡ stopped stop }
    {
        OnfiseqStep {
            letter: stop.letter(),
            number: stop.number(),
        }
    }

    /// A job is begun.
    pub(crate) fn begun() -> OnfiseqStep
        ensures { result ≡ step 0 0 }
    {
        OnfiseqStep {
            letter: 0,
            number: 0,
        }
    }

    // The job has gone on.
    fn of(answer: Stepped, code: Option<u8>) -> OnfiseqStep
        ensures { result ≡ step (answer_letter answer) (code_number code) }
    {
        OnfiseqStep {
            letter: answer_letter(answer),
            number: code_number(code),
        }
    }
}

// The array of a LUN has become ready, where a status shows that.
fn show_array(bus: &OnfiseqBus, kept: &mut OnfiseqTarget, lun: Lun, status: u8)
    requires { IsTried bus.now lun.ce kept.old }
    ensures value { tried_view bus.now lun.ce kept.new ≡ with_array lun status (tried_view bus.now lun.ce kept.old) }
    ensures tried { IsTried bus.now lun.ce kept.new }
{
    if status & ARRAY_READY == ARRAY_READY {
        let ready = Item::Ard {
            ce: lun.ce,
            lun: lun.lun,
            fail: Status(status).has_failed(),
        };
        // A ready that isn't due changes nothing.
        let _ = try_item(bus, kept, ready);
    }
}

// The readies that a status of a LUN shows.
fn show_status(bus: &OnfiseqBus, kept: &mut OnfiseqTarget, lun: Lun, status: u8)
    requires { IsTried bus.now lun.ce kept.old }
    ensures value { tried_view bus.now lun.ce kept.new ≡ with_status lun status (tried_view bus.now lun.ce kept.old) }
    ensures tried { IsTried bus.now lun.ce kept.new }
{
    if is_ready_status(status) {
        let ready = Item::Rdy {
            ce: lun.ce,
            lun: lun.lun,
            fail: Status(status).failures(),
        };
        // A ready that isn't due changes nothing.
        let _ = try_item(bus, kept, ready);
        show_array(bus, kept, lun, status);
    }
}

// The readies that a word of a LUN shows, whose outputs gave these bytes.
fn show(bus: &OnfiseqBus, kept: &mut OnfiseqTarget, lun: Lun, word: Word, taken: &[u8])
    requires { IsTried bus.now lun.ce kept.old }
    ensures value { tried_view bus.now lun.ce kept.new ≡ with_readies lun word taken.now (tried_view bus.now lun.ce kept.old) }
    ensures tried { IsTried bus.now lun.ce kept.new }
{
    if is_poll(word) {
        show_status(bus, kept, lun, status_of(word, taken));
    }
}

// Goes on by the status poll of a job by 70h.
#[inline(always)]
fn play_poll(
    bus: &OnfiseqBus,
    kept: &mut OnfiseqTarget,
    job: &OnfiseqJob,
    word: Word,
) -> Option<Stop>
    requires tried { IsTried bus.now job.now.ce kept.old }
    requires poll { PollsOne (bus_view bus.now).geometry word }
    ensures some { IfSome result (λ stop. played (job_view job.now) word (tried_view bus.now job.now.ce kept.old) ≡ Err stop) }
    ensures none { IfNone result (played (job_view job.now) word (tried_view bus.now job.now.ce kept.old) ≡ Ok (tried_view bus.now job.now.ce kept.new)) }
    ensures tried { IsTried bus.now job.now.ce kept.new }
{
    let _word = word;
    match try_poll(bus, kept, job.ce) {
        Some(rule) => Some(Stop::Breaks(rule)),
        None => None,
    }
}

// Goes on by the bursts of a word of a job.
fn play_bursts(
    bus: &OnfiseqBus,
    kept: &mut OnfiseqTarget,
    job: &OnfiseqJob,
    word: Word,
) -> Option<Stop>
    requires sound { IsSound bus.now }
    requires tried { IsTried bus.now job.now.ce kept.old }
    requires range { EndsWithFive word }
    ensures some { IfSome result (λ stop. played (job_view job.now) word (tried_view bus.now job.now.ce kept.old) ≡ Err stop) }
    ensures none { IfNone result (played (job_view job.now) word (tried_view bus.now job.now.ce kept.old) ≡ Ok (tried_view bus.now job.now.ce kept.new)) }
    ensures tried { IsTried bus.now job.now.ce kept.new }
{
    let Some(bursts) = bursts_for(bus, job, word) else {
        return Some(Stop::RowOutside);
    };
    match try_bursts(bus, kept, job.ce, bursts.as_slice()) {
        Some(rule) => Some(Stop::Breaks(rule)),
        None => None,
    }
}

// Goes on by a word of a job.
#[inline(always)]
fn play(bus: &OnfiseqBus, kept: &mut OnfiseqTarget, job: &OnfiseqJob, word: Word) -> Option<Stop>
    requires sound { IsSound bus.now }
    requires tried { IsTried bus.now job.now.ce kept.old }
    requires range { EndsWithFive word }
    ensures some { IfSome result (λ stop. played (job_view job.now) word (tried_view bus.now job.now.ce kept.old) ≡ Err stop) }
    ensures none { IfNone result (played (job_view job.now) word (tried_view bus.now job.now.ce kept.old) ≡ Ok (tried_view bus.now job.now.ce kept.new)) }
    ensures tried { IsTried bus.now job.now.ce kept.new }
{
    if polls_one(bus, word) {
        play_poll(bus, kept, job, word)
    } else {
        play_bursts(bus, kept, job, word)
    }
}

/// The next word of a job is done: its bursts were done on the pins, and `taken` is what their outputs gave. The readies that a poll shows come before its
/// cycles. A wrong count of bytes, a rule that would be broken, or a step that isn't due leaves both records as they were.
#[unsafe(no_mangle)]
pub extern "C" fn onfiseq_job_finish(
    live: &mut OnfiseqLive,
    job: &mut OnfiseqJob,
    file: &[u8],
    taken: &[u8],
) -> OnfiseqStep
    ensures { Finishes live.old job.old file.now taken.now result live.new job.new }
{
    if !live.has_job(job) {
        return OnfiseqStep::stopped(Stop::Damaged);
    }
    let word = match due(live.holder(), job, file) {
        Err(stop) => return OnfiseqStep::stopped(stop),
        Ok(word) => word,
    };
    if taken.len() != taken_by(word) {
        return OnfiseqStep::stopped(Stop::WrongCount);
    }
    let mut kept = target_at(&live.bus, job.ce);
    show(&live.bus, &mut kept, job.on(), word, taken);
    if let Some(stop) = play(&live.bus, &mut kept, job, word) {
        return OnfiseqStep::stopped(stop);
    }
    put_target(&mut live.bus, job.ce, &kept);
    let status = status_of(word, taken);
    let answer = outcome_of(word, status);
    live.hand_over(holder_after(answer, job.on()));
    job.go_on(word, status);
    OnfiseqStep::of(answer, job.ended())
}
