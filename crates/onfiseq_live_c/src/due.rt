//! Which word of a job is due.
ghost use Rattle.std.specs.Prelude.{◌≡◌, ◌≤◌, ◌<◌, ◌^◌, true, IfOk};
ghost use Rattle.seq_core.specs.Playing.{EndsWithFive};
ghost use Rattle.seq_core.specs.Progress.{reaches};
ghost use Rattle.micro_program.specs.Program.{fits};
ghost use Rattle.onfiseq_live_c.specs.Due.{checked, due};
ghost use Rattle.onfiseq_live_c.specs.Job.{job_view, opens_loop};

use crate::job::OnfiseqJob;
use crate::stop::Stop;
use micro_word::Word;
use onfi_cycle::Lun;
use seq_core::lun_slots::is_held;
use word_file::word_in;

// Whether a word that begins at this place stays inside a buffer of this length.
fn fits(buffer: u32, place: u32, word: Word) -> bool
    ensures { result ≡ fits buffer place word }
{
    match word {
        Word::Get { len } | Word::Put { len } => match place.checked_add(len) {
            Some(end) => end <= buffer,
            None => false,
        },
        _ => true,
    }
}

// Whether a word opens a loop.
fn opens_loop(word: Word) -> bool
    ensures { result ≡ opens_loop word }
{
    matches!(word, Word::Loop { .. })
}

// A word of a job stays inside its buffer, and opens no fifth loop.
fn checked(job: &OnfiseqJob, word: Word) -> Result<Word, Stop>
    requires { job.now.loops.depth ≤ 4 }
    ensures value { result ≡ checked (job_view job.now) word }
    ensures same { IfOk result (λ w. w ≡ word) }
    ensures reach { IfOk result (λ w. reaches job.now.place w < 2 ^ 32) }
    ensures room { IfOk result (λ w. opens_loop w ≡ true → job.now.loops.depth < 4) }
{
    if !fits(job.buffer, job.place, word) {
        return Err(Stop::BufferTooShort);
    }
    if opens_loop(word) && job.loops.depth == 4 {
        return Err(Stop::TooDeep);
    }
    Ok(word)
}

/// The next word of a job that goes on, where no other LUN has the bus.
pub(crate) fn due(holder: Option<Lun>, job: &OnfiseqJob, file: &[u8]) -> Result<Word, Stop>
    requires { job.now.loops.depth ≤ 4 }
    ensures value { result ≡ due holder (job_view job.now) file.now }
    ensures range { IfOk result (λ w. EndsWithFive w) }
    ensures inside { IfOk result (λ w. job.now.at < 1024) }
    ensures reach { IfOk result (λ w. reaches job.now.place w < 2 ^ 32) }
    ensures room { IfOk result (λ w. opens_loop w ≡ true → job.now.loops.depth < 4) }
{
    if let Some(code) = job.ended() {
        return Err(Stop::Ended(code));
    }
    if is_held(holder, job.on()) {
        return Err(Stop::Held);
    }
    match word_in(file, usize::from(job.at)) {
        Err(missing) => Err(Stop::Word(missing)),
        Ok(word) => checked(job, word),
    }
}
