//! What is to be done on the pins for a job's next word.
ghost use Rattle.std.specs.Prelude.{◌≡◌, ◌<◌, false, None, Ok, Err, slice_get};
ghost use Rattle.seq_core.specs.Playing.{EndsWithFive};
ghost use Rattle.bus_record.specs.Bus.{IsSound, bus_view};
ghost use Rattle.onfiseq_live_c.specs.Bursts.{PollsOne, poll_of};
ghost use Rattle.onfiseq_live_c.specs.Job.{job_view};
ghost use Rattle.onfiseq_live_c.specs.Next.{shown, shown_some, three, told, next_of, turn_of};

use crate::bursts::{bursts_for, polls_one, try_bursts};
use crate::due::due;
use crate::job::OnfiseqJob;
use crate::live::OnfiseqLive;
use crate::stop::Stop;
use bus_record::{OnfiseqBus, ask_poll, target_at};
use micro_word::Word;
use onfi_cycle::READ_STATUS;
use seq_live::{Burst, taken_by};

/// What is to be done on the pins in one go, with the chip enable `ce` low and the others high. `kind` is a letter: C and A give `len` of the bytes, from
/// `place` on, with CLE or ALE high; I gives `len` bytes of the job's buffer, from `place` on; O takes `len` bytes from the chip into it, from `place` on; S takes
/// a status.
#[repr(C)]
#[derive(Clone, Copy)]
pub struct OnfiseqBurst {
    pub kind: u8,
    pub ce: u8,
    pub bytes: [u8; 5],
    pub place: usize,
    pub len: usize,
}

/// What is due of a job. `letter` is 0 where its next word is due: the first `count` bursts are to be done, one after another, and their outputs give
/// `taken` bytes. Else nothing is to be done, and `letter` and `number` say why.
#[repr(C)]
#[derive(Clone, Copy)]
pub struct OnfiseqTurn {
    pub letter: u8,
    pub number: u32,
    pub count: usize,
    pub taken: usize,
    pub bursts: [OnfiseqBurst; 3],
}

impl OnfiseqBurst {
    // A burst as numbers.
    #[inline(always)]
    fn of(burst: Burst, status: bool, into: u32) -> OnfiseqBurst
        ensures { result ≡ shown status into burst }
    {
        match burst {
            Burst::Command { ce, byte } => OnfiseqBurst {
                kind: b'C',
                ce,
                bytes: [byte, 0, 0, 0, 0],
                place: 0,
                len: 1,
            },
            Burst::Address {
                ce,
                five,
                from,
                count,
            } => OnfiseqBurst {
                kind: b'A',
                ce,
                bytes: five,
                place: usize::from(from),
                len: usize::from(count),
            },
            Burst::Input { ce, place, len } => OnfiseqBurst {
                kind: b'I',
                ce,
                bytes: [0; 5],
                place,
                len,
            },
            Burst::Output { ce, len } if status => OnfiseqBurst {
                kind: b'S',
                ce,
                bytes: [0; 5],
                place: 0,
                len,
            },
            Burst::Output { ce, len } => OnfiseqBurst {
                kind: b'O',
                ce,
                bytes: [0; 5],
                place: into as usize,
                len,
            },
        }
    }

    // What stands where there is no burst: all 0.
    #[inline(always)]
    fn none() -> OnfiseqBurst
        ensures { result ≡ shown_some false 0 None }
    {
        OnfiseqBurst {
            kind: 0,
            ce: 0,
            bytes: [0; 5],
            place: 0,
            len: 0,
        }
    }

    // The burst of this number as numbers, all 0 where there are fewer.
    fn at(bursts: &[Burst], number: usize, status: bool, into: u32) -> OnfiseqBurst
        ensures { result ≡ shown_some status into (slice_get bursts.now number) }
    {
        match bursts.get(number) {
            Some(burst) => OnfiseqBurst::of(*burst, status, into),
            None => OnfiseqBurst::none(),
        }
    }
}

// The first three bursts as numbers.
fn three(bursts: &[Burst], status: bool, into: u32) -> [OnfiseqBurst; 3]
    ensures { result ≡ three status into bursts.now }
{
    [
        OnfiseqBurst::at(bursts, 0, status, into),
        OnfiseqBurst::at(bursts, 1, status, into),
        OnfiseqBurst::at(bursts, 2, status, into),
    ]
}

impl OnfiseqTurn {
    // Nothing is due.
    fn stopped(stop: Stop) -> OnfiseqTurn
        ensures { result ≡ turn_of 0 (Err stop) }
    {
        OnfiseqTurn {
            letter: stop.letter(),
            number: stop.number(),
            count: 0,
            taken: 0,
            bursts: three(&[], false, 0),
        }
    }

    // A status poll by 70h is due.
    #[inline(always)]
    fn of_poll(ce: u8) -> OnfiseqTurn
        ensures { result ≡ turn_of 0 (Ok (record { bursts = poll_of ce; taken = 1 })) }
    {
        OnfiseqTurn {
            letter: 0,
            number: 0,
            count: 2,
            taken: 1,
            bursts: [
                OnfiseqBurst::of(
                    Burst::Command {
                        ce,
                        byte: READ_STATUS,
                    },
                    true,
                    0,
                ),
                OnfiseqBurst::of(Burst::Output { ce, len: 1 }, true, 0),
                OnfiseqBurst::none(),
            ],
        }
    }

    // These bursts are due.
    fn told(bursts: &[Burst], taken: usize, into: u32) -> OnfiseqTurn
        ensures { result ≡ turn_of into (Ok (record { bursts = bursts.now; taken = taken })) }
    {
        OnfiseqTurn {
            letter: 0,
            number: 0,
            count: bursts.len(),
            taken,
            bursts: three(bursts, bursts.len() != 1, into),
        }
    }
}

// What is to be done for the status poll of a job by 70h.
#[inline(always)]
fn tell_poll(bus: &OnfiseqBus, job: &OnfiseqJob, word: Word) -> OnfiseqTurn
    requires sound { IsSound bus.now }
    requires there { job.now.ce < bus.now.count }
    requires poll { PollsOne (bus_view bus.now).geometry word }
    ensures { result ≡ turn_of job.now.place (told (bus_view bus.now) (job_view job.now) word) }
{
    let _word = word;
    match ask_poll(bus, job.ce) {
        Some(rule) => OnfiseqTurn::stopped(Stop::Breaks(rule)),
        None => OnfiseqTurn::of_poll(job.ce),
    }
}

// What the bursts of a word of a job say is to be done.
fn tell_bursts(bus: &OnfiseqBus, job: &OnfiseqJob, word: Word) -> OnfiseqTurn
    requires sound { IsSound bus.now }
    requires there { job.now.ce < bus.now.count }
    requires range { EndsWithFive word }
    ensures { result ≡ turn_of job.now.place (told (bus_view bus.now) (job_view job.now) word) }
{
    let Some(bursts) = bursts_for(bus, job, word) else {
        return OnfiseqTurn::stopped(Stop::RowOutside);
    };
    let mut kept = target_at(bus, job.ce);
    match try_bursts(bus, &mut kept, job.ce, bursts.as_slice()) {
        Some(rule) => OnfiseqTurn::stopped(Stop::Breaks(rule)),
        None => OnfiseqTurn::told(bursts.as_slice(), taken_by(word), job.place),
    }
}

// What is to be done for a word of a job.
#[inline(always)]
fn tell(bus: &OnfiseqBus, job: &OnfiseqJob, word: Word) -> OnfiseqTurn
    requires sound { IsSound bus.now }
    requires there { job.now.ce < bus.now.count }
    requires range { EndsWithFive word }
    ensures { result ≡ turn_of job.now.place (told (bus_view bus.now) (job_view job.now) word) }
{
    if polls_one(bus, word) {
        tell_poll(bus, job, word)
    } else {
        tell_bursts(bus, job, word)
    }
}

/// What is to be done on the pins for the next word of a job; nothing changes. Whatever the records, the file and the chips say: each cycle of the bursts that
/// are told is permitted where it stands, as the state of the channel judges it.
#[unsafe(no_mangle)]
pub extern "C" fn onfiseq_job_next(live: &OnfiseqLive, job: &OnfiseqJob, file: &[u8]) -> OnfiseqTurn
    ensures { result ≡ turn_of job.now.place (next_of live.now job.now file.now) }
{
    if !live.has_job(job) {
        return OnfiseqTurn::stopped(Stop::Damaged);
    }
    match due(live.holder(), job, file) {
        Err(stop) => OnfiseqTurn::stopped(stop),
        Ok(word) => tell(&live.bus, job, word),
    }
}
