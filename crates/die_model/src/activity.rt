//! What a LUN does, and what its register holds.
ghost use Rattle.std.specs.Prelude.{◌≡◌, ◌^◌, ◌<◌, ◌&&◌, not, if◌then◌else◌, Bool, true, false, [], length};
ghost use Rattle.onfi_cycle.specs.declared.effect.Effect.TheVariants.{BecameReady};
ghost use Rattle.onfi_cycle.specs.Effect.{HasPlanes};
ghost use Rattle.onfi_cycle.specs.Lun.{busy_after, closer_after, array_busy_after, array_page_after, register_after, held_after, is_copyback_read, is_cache_program, is_plane_program, keeps_array_busy};
ghost use Rattle.onfi_cycle.specs.Content.{failed_after, before_failed_after};
ghost use Rattle.onfi_cycle.specs.Rules.{has_some};
ghost use Rattle.die_model.specs.Die.{effect_of, queue_with, closes, is_reset, keeps_array};

use crate::work::Work;
use arrayvec::ArrayVec;
use onfi_cycle::{
    Command, Effect, Failures, HeldPages, PageAddress, Queued, Register, RowQueue, apply_to_held,
    is_cache_program, is_copyback_read, is_plane_program, keeps_array_busy,
};
use std::mem;

/// What a LUN does, and what its register holds.
#[derive(Drop)]
pub(crate) struct Activity {
    pub(crate) register: Register,
    /// The pages that the plane registers hold.
    pub(crate) held: HeldPages,
    /// The page that its array was last told to read.
    pub(crate) array_page: PageAddress,
    pub(crate) busy: bool,
    /// The last command that closed something.
    pub(crate) closer: Option<Command>,
    pub(crate) array_busy: bool,
    /// The rows that are queued, the newest first.
    pub(crate) queue: RowQueue,
    /// The next ready ends the queue.
    pub(crate) closed: bool,
    /// The programs that the array goes on with behind the ready of a cache program, the newest first.
    pub(crate) in_array: RowQueue,
    /// The last work failed, queued programs behind a cache program left out.
    pub(crate) failed: bool,
    /// The page before failed.
    pub(crate) failed_before: bool,
}

// What is told of the last work's failure when a work begins: a queued program behind a cache program leaves what is told of that.
fn failed_at_start(work: Work, last: Option<Command>, before: bool) -> bool
    ensures { (changes : Bool) → result ≡ failed_after (effect_of work) last changes before }
{
    match work {
        Work::Queue(Queued::Program(_)) => keeps_array_busy(last) && before,
        Work::CacheProgram(_) => false,
        _ => before,
    }
}

// What is told of the page before when a work begins: a closer of a program asks what the array has told, and each other work nothing.
fn failed_before_at_start(work: Work, last: Option<Command>, failed: bool, before: bool) -> bool
    ensures { (array_changes : Bool) → result ≡ before_failed_after (effect_of work) last array_changes failed before }
{
    match work {
        Work::Program(_) | Work::CacheProgram(_) => keeps_array_busy(last) && failed,
        Work::Identifier | Work::Identity { .. } => before,
        _ => false,
    }
}

// The array goes on with its page where a program begins, and drops it at each other work.
fn keeps_array(work: Work) -> bool
    ensures { result ≡ keeps_array work }
{
    matches!(
        work,
        Work::Program(_) | Work::CacheProgram(_) | Work::Queue(Queued::Program(_))
    )
}

impl Activity {
    /// What goes on once a work has begun.
    pub(crate) fn begin(&mut self, work: Work)
        requires room { is_reset work ≡ false → length self.old.queue.items < 16 }
        requires next { self.old.array_page.page < 2 ^ 32 }
        requires planes { HasPlanes (effect_of work) }
        ensures register { self.new.register
            ≡ register_after (effect_of work) self.old.array_page self.old.queue.items self.old.held.items self.old.register }
        ensures held { self.new.held.items
            ≡ held_after (effect_of work) (is_copyback_read self.old.closer) self.old.array_page self.old.queue.items self.old.held.items }
        ensures array_page { self.new.array_page ≡ array_page_after (effect_of work) self.old.array_page }
        ensures busy { self.new.busy ≡ busy_after (effect_of work) self.old.busy }
        ensures closer { self.new.closer ≡ closer_after (effect_of work) self.old.closer }
        ensures array_busy { self.new.array_busy
            ≡ array_busy_after (effect_of work) self.old.busy self.old.closer self.old.array_busy }
        ensures queue { self.new.queue.items ≡ queue_with work self.old.queue.items }
        ensures closed { self.new.closed ≡ closes work }
        ensures in_array { self.new.in_array.items ≡ (if keeps_array work then self.old.in_array.items else []) }
        ensures failed { (changes : Bool) → self.new.failed ≡ failed_after (effect_of work) self.old.closer changes self.old.failed }
        ensures failed_before { (changes : Bool) → self.new.failed_before
            ≡ before_failed_after (effect_of work) self.old.closer changes self.old.failed self.old.failed_before }
    {
        let effect = work.effect();
        self.array_busy = effect.array_busy_after(self.busy, self.closer, self.array_busy);
        self.register = effect.register_after(
            self.array_page,
            self.queue.as_slice(),
            self.held.as_slice(),
            self.register,
        );
        apply_to_held(
            &mut self.held,
            effect,
            is_copyback_read(self.closer),
            self.array_page,
            self.queue.as_slice(),
        );
        self.failed_before = failed_before_at_start(
            work,
            self.closer,
            self.failed,
            self.failed_before,
        );
        self.failed = failed_at_start(work, self.closer, self.failed);
        self.closer = effect.closer_after(self.closer);
        self.array_page = effect.array_page_after(self.array_page);
        self.busy = effect.busy_after(self.busy);
        self.closed = work.join(&mut self.queue);
        if !keeps_array(work) {
            self.in_array.clear();
        }
    }

    /// The rows that the next ready ends.
    pub(crate) fn ended(&self) -> &[Queued]
        ensures { result.now ≡ (if self.now.closed then self.now.queue.items else []) }
    {
        if self.closed {
            self.queue.as_slice()
        } else {
            &[]
        }
    }

    // What is told of failures once the LUN has become ready.
    fn tell(&mut self, fail: Failures)
        ensures { self.new ≡ record self.old {
          failed = if is_plane_program self.old.closer then self.old.failed else (self.old.closed && (fail.last && not (is_cache_program self.old.closer)));
          failed_before = if has_some self.old.in_array.items && not (is_plane_program self.old.closer) then fail.before else self.old.failed_before;
        } }
    {
        if is_plane_program(self.closer) {
            return;
        }
        self.failed = self.closed && fail.last && !is_cache_program(self.closer);
        if !self.in_array.is_empty() {
            self.failed_before = fail.before;
        }
    }

    // The rows that the array goes on with behind a ready: those that a cache program closed, and behind a queued program those that there were.
    fn pass_on(&mut self)
        ensures in_array { self.new.in_array.items
            ≡ (if is_cache_program self.old.closer then (if self.old.closed then self.old.queue.items else [])
            else (if is_plane_program self.old.closer then self.old.in_array.items else [])) }
        ensures queue { self.new.queue.items ≡ (if self.old.closed then [] else self.old.queue.items) }
        ensures rest { self.new ≡ record self.old { in_array = self.new.in_array; queue = self.new.queue } }
    {
        if !is_plane_program(self.closer) {
            self.in_array.clear();
        }
        if self.closed {
            if is_cache_program(self.closer) {
                self.in_array = mem::replace(&mut self.queue, ArrayVec::new());
            }
            self.queue.clear();
        }
    }

    /// What goes on once the LUN has become ready, with failures or without. A queue that was closed is over.
    pub(crate) fn finish(&mut self, fail: Failures)
        requires { is_plane_program self.old.closer ≡ true → self.old.closed ≡ false }
        ensures register { self.new.register ≡ self.old.register }
        ensures held { self.new.held ≡ self.old.held }
        ensures array_page { self.new.array_page ≡ self.old.array_page }
        ensures busy { self.new.busy ≡ false }
        ensures closer { self.new.closer ≡ self.old.closer }
        ensures array_busy { self.new.array_busy
            ≡ array_busy_after (BecameReady fail) self.old.busy self.old.closer self.old.array_busy }
        ensures queue { self.new.queue.items ≡ (if self.old.closed then [] else self.old.queue.items) }
        ensures closed { self.new.closed ≡ false }
        ensures in_array { self.new.in_array.items
            ≡ (if is_cache_program self.old.closer then (if self.old.closed then self.old.queue.items else [])
            else (if is_plane_program self.old.closer then self.old.in_array.items else [])) }
        ensures failed { self.new.failed
            ≡ (if is_plane_program self.old.closer then self.old.failed else (self.old.closed && (fail.last && not (is_cache_program self.old.closer)))) }
        ensures failed_before { self.new.failed_before
            ≡ (if has_some self.old.in_array.items && not (is_plane_program self.old.closer) then fail.before else self.old.failed_before) }
    {
        let effect = Effect::BecameReady { fail };
        self.array_busy = effect.array_busy_after(self.busy, self.closer, self.array_busy);
        self.busy = false;
        self.tell(fail);
        self.pass_on();
        self.closed = false;
    }

    /// What goes on once the array has become ready, with failure or without.
    pub(crate) fn finish_array(&mut self, fail: bool)
        ensures rest { self.new ≡ record self.old {
          array_busy = false;
          in_array = self.new.in_array;
          failed = if keeps_array_busy self.old.closer then fail else self.old.failed;
        } }
        ensures in_array { self.new.in_array.items ≡ [] }
    {
        self.array_busy = false;
        self.in_array.clear();
        if keeps_array_busy(self.closer) {
            self.failed = fail;
        }
    }
}
