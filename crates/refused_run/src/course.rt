//! A run of a text, as far as it has come.
ghost use Rattle.std.specs.Prelude.{◌≡◌, ◌<◌, ◌^◌, List, [], None, Some, IfSome, not, true, reverse, slice_get};
ghost use Rattle.micro_word.specs.declared.word.Word.{Word as WordValue};
ghost use Rattle.micro_claims.specs.declared.bounds.Bounds.{Bounds as BoundsValue};
ghost use Rattle.seq_core.specs.Progress.{reaches};
ghost use Rattle.refused_run.specs.Stand.{stand_after};
ghost use Rattle.refused_run.specs.Course.{IsRun, IsRunOn, MayGoOn, CyclesAre, reason_of, may_step, may_come, cycles_of, has_room, ends_early, is_end, task_on, state_of};

use crate::bench::{Bench, Stop};
use crate::cycles::Cycles;
use crate::other_work::OtherWork;
use crate::stand::Stand;
use crate::wrong::{fits_in, is_end, is_wrong};
use micro_claims::{Bounds, Reason};
use micro_program::is_ready_status;
use micro_word::{MAX_WORDS, Word};
use onfi_cycle::{Failures, Forbidden, Item, LunState};
use std::alloc::{AllocError, Allocator};
use std::marker::Model;

/// How a run ends at a word: with the reason that stands against it, and the item that isn't permitted, where it comes to one.
#[derive(Clone, Copy, Debug, PartialEq, Eq)]
pub struct End {
    pub word: usize,
    pub reason: Reason,
    pub item: Option<Item>,
}

/// Where a run is: its program, and how it has ended, if it has.
#[derive(Clone, Copy, Debug, PartialEq, Eq)]
pub struct Progress {
    pub stand: Stand,
    pub end: Option<End>,
}

// Before the first word.
const BEGINNING: Progress = Progress {
    stand: Stand::FIRST,
    end: None,
};

/// A run of a text on a channel of one target, whose LUN 0 runs it from row 0 on with a buffer all 00, as far as it has come.
#[derive(Drop)]
pub(crate) struct Course<A: Allocator> {
    words: Vec<Word, A>,
    bounds: Bounds,
    bench: Bench<A>,
    progress: Progress,
}

impl<A: Allocator> Model for Course<A> {
    ghost use Rattle.refused_run.specs.Course.{CourseView, IsRun};

    ghost Value = { CourseView };

    ghost view = { λ c. record { task = record { geometry = c.bench.geometry; bounds = c.bounds; words = c.words.items }; stand = c.progress.stand; past = c.bench.past; end = c.progress.end } };

    ghost invariant = { λ c. IsRun (record { geometry = c.bench.geometry; bounds = c.bounds; words = c.words.items }) c.progress.stand c.bench.past c.progress.end };
}

// The most cycles that a run may cost.
const MOST_SPENT: u64 = 1 << 62;

// The reason that a rule gives.
fn reason_of(rule: Forbidden) -> Reason
    ensures { result ≡ reason_of rule }
{
    match rule {
        Forbidden::CommandUnknown | Forbidden::SeveralLuns => Reason::CommandNotAllowed,
        Forbidden::RowOutside => Reason::RowOrPlaneOutside,
        Forbidden::ColumnOutside => Reason::ColumnTooLarge,
        Forbidden::NotThere
        | Forbidden::SequenceOpen
        | Forbidden::NoColumnToChange
        | Forbidden::CommandMisplaced
        | Forbidden::AddressMisplaced
        | Forbidden::LunBusy
        | Forbidden::QueueClash
        | Forbidden::InputMisplaced
        | Forbidden::NoSoleDriver
        | Forbidden::DataNotReady
        | Forbidden::CacheReadMisplaced
        | Forbidden::CacheProgramMisplaced
        | Forbidden::CopybackMisplaced
        | Forbidden::PlaneNotHeld => Reason::CycleForbidden,
    }
}

// A fifth loop would be entered.
fn lacks_room(stand: &Stand, word: Word) -> bool
    ensures { result ≡ not (has_room stand.now word) }
{
    match word {
        Word::Loop { .. } => stand.loops.fourth.is_some(),
        _ => false,
    }
}

// The `wait` would end while its LUN is busy.
fn ends_early(look: Option<LunState>, word: Word, status: u8) -> bool
    ensures { result ≡ ends_early look word status }
{
    let is_busy = match look {
        None => false,
        Some(look) => look.busy,
    };
    matches!(word, Word::Wait) && is_ready_status(status) && is_busy
}

// The program has the bus, or nothing is open.
fn may_step<A: Allocator>(bench: &Bench<A>, stand: &Stand) -> bool
    ensures { result ≡ may_step (state_of stand.now bench.now) }
{
    stand.holds || !bench.tail().is_open()
}

// Whether a word may come where the program stands, and bring this status.
fn may_come<A: Allocator>(
    bench: &Bench<A>,
    bounds: &Bounds,
    stand: &Stand,
    word: Word,
    status: u8,
) -> bool
    ensures value { (words : List WordValue) → result ≡ may_come (task_on words bounds.now bench.now) (state_of stand.now bench.now) word status }
    ensures little { result ≡ true → reaches stand.now.registers.place word < 2 ^ 32 }
{
    may_step(bench, stand)
        && !is_end(word)
        && fits_in(bounds, stand.registers, word)
        && !lacks_room(stand, word)
        && !ends_early(bench.look(0), word, status)
}

// Where the program stands behind a word, if that may come and bring this status.
fn next_stand<A: Allocator>(
    bench: &Bench<A>,
    bounds: &Bounds,
    stand: Stand,
    word: Word,
    status: u8,
) -> Option<Stand>
    requires at { stand.at < 2 ^ 16 }
    requires spent { stand.spent < 2 ^ 62 }
    ensures { (words : List WordValue) → IfSome result (λ next. MayGoOn words bounds.now bench.now stand word status next) }
{
    if may_come(bench, bounds, &stand, word, status) {
        Some(stand.after(&bench.geometry(), word, status))
    } else {
        None
    }
}

// The run begins anew.
fn begin_anew<A: Allocator>(bench: &mut Bench<A>, progress: &mut Progress)
    ensures same { bench.new.geometry ≡ bench.old.geometry }
    ensures run { (words : List WordValue) (bounds : BoundsValue) → IsRunOn words bounds bench.new progress.new }
{
    bench.restart();
    *progress = BEGINNING;
}

// The LUN of the program becomes ready; whether it could.
fn ready_on<A: Allocator>(
    bench: &mut Bench<A>,
    progress: Progress,
    failed: Failures,
) -> Result<bool, AllocError>
    ensures same { bench.new.geometry ≡ bench.old.geometry }
    ensures run { (words : List WordValue) (bounds : BoundsValue) → IsRunOn words bounds bench.old progress → IsRunOn words bounds bench.new progress }
{
    if progress.end.is_some() {
        return Ok(false);
    }
    let item = Item::Rdy {
        ce: 0,
        lun: 0,
        fail: failed,
    };
    match bench.push(item) {
        Ok(None) => Ok(true),
        Ok(Some(_)) => Ok(false),
        Err(AllocError) => Err(AllocError),
    }
}

// Another LUN does this work; whether it could.
fn other_on<A: Allocator>(
    bench: &mut Bench<A>,
    progress: &mut Progress,
    work: OtherWork,
) -> Result<bool, AllocError>
    ensures same { bench.new.geometry ≡ bench.old.geometry }
    ensures run { (words : List WordValue) (bounds : BoundsValue) → IsRunOn words bounds bench.old progress.old → IsRunOn words bounds bench.new progress.new }
{
    let Progress { stand, end } = *progress;
    if end.is_some() || stand.holds || bench.tail().is_open() {
        return Ok(false);
    }
    let Some(row) = bench.geometry().row_bytes(1, 0, 0) else {
        return Ok(false);
    };
    match work.perform(bench, row) {
        Ok(None) => Ok(true),
        Ok(Some(_)) => {
            begin_anew(bench, progress);
            Ok(false)
        }
        Err(AllocError) => {
            begin_anew(bench, progress);
            Err(AllocError)
        }
    }
}

// The run ends at a word, if a reason that needs no cycle stands against it; whether it does.
#[tactic(auto, using(crate::proofs::Courses::wrong_run))]
fn end_on<A: Allocator>(
    bounds: &Bounds,
    bench: &Bench<A>,
    progress: &mut Progress,
    word: Word,
    reason: Reason,
) -> bool
    requires goes_on { progress.old.end ≡ None }
    requires spent { progress.old.stand.spent < 2 ^ 62 }
    ensures run { (words : List WordValue) → slice_get words progress.old.stand.at ≡ Some word
        → IsRunOn words bounds.now bench.now progress.old → IsRunOn words bounds.now bench.now progress.new }
{
    let stand = progress.stand;
    let is_against = is_wrong(
        &bench.geometry(),
        bounds,
        &stand,
        bench.tail(),
        bench.look(0),
        word,
        reason,
    );
    if is_against {
        progress.end = Some(End {
            word: stand.at,
            reason,
            item: None,
        });
    }
    is_against
}

// The cycles of a word come, and the program stands so behind it, if it may; or the run ends at one of them.
#[tactic(auto, using(crate::proofs::Courses::come_run, crate::proofs::Courses::stop_run))]
fn come_on<A: Allocator>(
    bounds: &Bounds,
    bench: &mut Bench<A>,
    progress: &mut Progress,
    word: Word,
    status: u8,
    cycles: &Cycles,
    next: Option<Stand>,
) -> Result<bool, AllocError>
    requires goes_on { progress.old.end ≡ None }
    requires cycles { CyclesAre (Some cycles.now) (cycles_of bench.old.geometry progress.old.stand.registers word status) }
    requires steps { may_step (state_of progress.old.stand bench.old) ≡ true }
    requires next { (words : List WordValue) → IfSome next (λ s. MayGoOn words bounds.now bench.old progress.old.stand word status s) }
    ensures same { bench.new.geometry ≡ bench.old.geometry }
    ensures run { (words : List WordValue) → slice_get words progress.old.stand.at ≡ Some word
        → IsRunOn words bounds.now bench.old progress.old → IsRunOn words bounds.now bench.new progress.new }
{
    let stand = progress.stand;
    match bench.perform(cycles) {
        Ok(None) => match next {
            Some(next) => {
                progress.stand = next;
                Ok(true)
            }
            None => {
                begin_anew(bench, progress);
                Ok(false)
            }
        },
        Ok(Some(stop)) => {
            progress.end = Some(End {
                word: stand.at,
                reason: reason_of(stop.rule),
                item: Some(stop.item),
            });
            Ok(true)
        }
        Err(AllocError) => {
            begin_anew(bench, progress);
            Err(AllocError)
        }
    }
}

// A word comes, and a poll of it brings this status; or the run ends at a cycle of it. Whether one of both is so.
fn step_on<A: Allocator>(
    bounds: &Bounds,
    bench: &mut Bench<A>,
    progress: &mut Progress,
    word: Word,
    status: u8,
) -> Result<bool, AllocError>
    requires goes_on { progress.old.end ≡ None }
    requires at { progress.old.stand.at < 2 ^ 16 }
    requires spent { progress.old.stand.spent < 2 ^ 62 }
    ensures same { bench.new.geometry ≡ bench.old.geometry }
    ensures run { (words : List WordValue) → slice_get words progress.old.stand.at ≡ Some word
        → IsRunOn words bounds.now bench.old progress.old → IsRunOn words bounds.now bench.new progress.new }
{
    let stand = progress.stand;
    if !may_step(bench, &stand) {
        return Ok(false);
    }
    let next = next_stand(bench, bounds, stand, word, status);
    match Cycles::of(&bench.geometry(), stand.registers, word, status) {
        None => Ok(false),
        Some(cycles) => match come_on(bounds, bench, progress, word, status, &cycles, next) {
            Ok(went) => Ok(went),
            Err(AllocError) => Err(AllocError),
        },
    }
}

impl<A: Allocator> Course<A> {
    /// A run that begins.
    pub(crate) fn begin(words: Vec<Word, A>, bounds: Bounds, bench: Bench<A>) -> Course<A>
        requires { bench.past ≡ [] }
        ensures { result.task ≡ record { geometry = bench.geometry; bounds = bounds; words = words.items } }
    {
        Course {
            words,
            bounds,
            bench,
            progress: BEGINNING,
        }
    }

    /// Begins anew.
    pub(crate) fn restart(&mut self)
        ensures { self.new.task ≡ self.old.task }
    {
        begin_anew(&mut self.bench, &mut self.progress);
    }

    /// Where its program stands.
    pub(crate) fn stand(&self) -> Stand
        ensures { result ≡ self.now.stand }
    {
        self.progress.stand
    }

    /// How it has ended, if it has.
    pub(crate) fn end(&self) -> Option<End>
        ensures value { result ≡ self.now.end }
        ensures run { IsRun self.now.task self.now.stand self.now.past self.now.end }
    {
        // A look at the trace brings what is known of the run.
        let _ = self.bench.items();
        self.progress.end
    }

    /// What has happened, in the order of time.
    pub(crate) fn items(&self) -> &[Item]
        ensures { result.now ≡ reverse self.now.past }
    {
        self.bench.items()
    }

    /// A look at a LUN.
    pub(crate) fn look(&self, lun: u8) -> Option<LunState> {
        self.bench.look(lun)
    }

    /// Nothing is open on the target.
    pub(crate) fn is_closed(&self) -> bool {
        !self.bench.tail().is_open()
    }

    /// The next word of a run that hasn't ended.
    pub(crate) fn next_word(&self) -> Option<Word>
        ensures none { IfSome result (λ word. self.now.end ≡ None) }
        ensures word { IfSome result (λ word. slice_get self.now.task.words self.now.stand.at ≡ Some word) }
        ensures few { IfSome result (λ word. (self.now.stand.at < 2 ^ 16) × (self.now.stand.spent < 2 ^ 62)) }
    {
        let Progress { stand, end } = self.progress;
        if end.is_some() || stand.at >= MAX_WORDS || stand.spent >= MOST_SPENT {
            return None;
        }
        self.words.get(stand.at).copied()
    }

    /// The LUN of the program becomes ready, with failure or without; whether it could.
    pub(crate) fn become_ready(&mut self, failed: Failures) -> Result<bool, AllocError>
        ensures { self.new.task ≡ self.old.task }
    {
        match ready_on(&mut self.bench, self.progress, failed) {
            Ok(came) => Ok(came),
            Err(AllocError) => Err(AllocError),
        }
    }

    /// Another LUN does this work while the program has let the bus go; whether it could. If not, the run is as it was or begins anew.
    pub(crate) fn let_other(&mut self, work: OtherWork) -> Result<bool, AllocError>
        ensures { self.new.task ≡ self.old.task }
    {
        match other_on(&mut self.bench, &mut self.progress, work) {
            Ok(came) => Ok(came),
            Err(AllocError) => Err(AllocError),
        }
    }

    /// Ends at the next word, if this reason stands against it and needs no cycle; whether it does.
    pub(crate) fn end_for(&mut self, reason: Reason) -> bool
        ensures { self.new.task ≡ self.old.task }
    {
        match self.next_word() {
            None => false,
            Some(word) => end_on(&self.bounds, &self.bench, &mut self.progress, word, reason),
        }
    }

    /// The next word comes, and a poll of it brings this status; or the run ends at a cycle of it. Whether one of both is so: if it is not, the run
    /// is as it was or begins anew.
    pub(crate) fn step(&mut self, status: u8) -> Result<bool, AllocError>
        ensures { self.new.task ≡ self.old.task }
    {
        let Some(word) = self.next_word() else {
            return Ok(false);
        };
        match step_on(
            &self.bounds,
            &mut self.bench,
            &mut self.progress,
            word,
            status,
        ) {
            Ok(went) => Ok(went),
            Err(AllocError) => Err(AllocError),
        }
    }
}
