//! A LUN of a running channel: what the rules see of it, kept item by item.
ghost use Rattle.std.specs.Prelude.{◌≡◌, ◌^◌, ◌<◌, ◌≤◌, List, [], length, if◌then◌else◌};
ghost use Rattle.nand_geometry.specs.declared.parts.Parts.{Parts};
ghost use Rattle.onfi_cycle.specs.declared.lun.Lun.{Lun};
ghost use Rattle.onfi_cycle.specs.declared.latch.Latch.TheVariants.{Off};
ghost use Rattle.onfi_cycle.specs.Effect.{IsSmallEffect, cycle_effect};
ghost use Rattle.onfi_cycle.specs.Lun.{latch_after, selected_after, overlapped_after, works, view_after, first_view, queue_after};
ghost use Rattle.onfi_cycle.specs.Bounds.{LunFits};
ghost use Rattle.onfi_cycle.specs.Outputs.{given_on};

use crate::held::apply_to_held;
use crate::{
    Effect, Failures, Latch, LunFacts, PageAddress, Queued, ReadColumn, Register, RowQueue,
    TailFacts, TargetCycle, cycle_effect, is_copyback_read,
};
use arrayvec::ArrayVec;
use nand_geometry::Geometry;

// What an effect leaves of a queue.
#[inline(always)]
fn apply_to_queue(queue: &mut RowQueue, effect: Effect)
    requires { length queue.old.items < 16 }
    ensures { queue.new.items ≡ queue_after effect queue.old.items }
{
    match effect {
        Effect::EraseStarted { queued: true, row } => queue.insert(0, Queued::Erase(row)),
        Effect::ProgramStarted { queued: true, page } => queue.insert(0, Queued::Program(page)),
        Effect::ReadQueued { page } => queue.insert(0, Queued::Read(page)),
        Effect::ReadStarted { .. }
        | Effect::CopybackReadStarted { .. }
        | Effect::EraseStarted { .. }
        | Effect::ProgramStarted { .. }
        | Effect::CacheProgramStarted { .. }
        | Effect::ResetStarted
        | Effect::TargetResetStarted { .. } => queue.clear(),
        _ => {}
    }
}

impl LunFacts<RowQueue> {
    /// The LUN of this number of its target, when nothing has happened to it.
    pub(crate) fn fresh(number: u8) -> LunFacts<RowQueue>
        ensures { result ≡ first_view number }
    {
        LunFacts {
            latch: Latch::Off,
            selected: number == 0,
            overlapped: false,
            busy: false,
            closer: None,
            array_busy: false,
            array_page: PageAddress { block: 0, page: 0 },
            register: Register::Empty,
            column: ReadColumn::none(),
            queue: ArrayVec::new(),
            held: ArrayVec::new(),
        }
    }

    // Goes on by an effect that may change everything.
    #[inline(always)]
    #[tactic(auto, using(crate::proofs::HeldPages::has_planes))]
    fn renew(&mut self, effect: Effect)
        requires outputs { self.old.column.outputs ≤ 2 ^ 16 }
        requires array_page { self.old.array_page.page < 2 ^ 32 }
        requires queue { length self.old.queue ≤ 4 }
        requires small { IsSmallEffect effect }
        ensures { self.new ≡ view_after effect self.old }
    {
        let works = self.works();
        let latch = effect.latch_after(self.selected, works, self.latch);
        let overlapped = effect.overlapped_after(works, self.overlapped);
        self.column = effect.read_column_after(self.column);
        self.register = effect.register_after(
            self.array_page,
            self.queue.as_slice(),
            self.held.as_slice(),
            self.register,
        );
        apply_to_held(
            &mut self.held,
            effect,
            is_copyback_read(self.closer),
            self.array_page,
            self.queue.as_slice(),
        );
        apply_to_queue(&mut self.queue, effect);
        self.array_page = effect.array_page_after(self.array_page);
        self.array_busy = effect.array_busy_after(self.busy, self.closer, self.array_busy);
        self.closer = effect.closer_after(self.closer);
        self.busy = effect.busy_after(self.busy);
        self.latch = latch;
        self.selected = effect.selected_after(self.selected);
        self.overlapped = overlapped;
    }

    // Goes on by an effect that changes at most what it shows, and whether it is selected or overlapped.
    #[inline(always)]
    fn turn(&mut self, effect: Effect)
        ensures latch { self.new ≡ record self.old {
          latch = latch_after effect self.old.selected (works self.old) self.old.latch;
          selected = selected_after effect self.old.selected;
          overlapped = overlapped_after effect (works self.old) self.old.overlapped;
        } }
    {
        let works = self.works();
        self.latch = effect.latch_after(self.selected, works, self.latch);
        self.selected = effect.selected_after(self.selected);
        self.overlapped = effect.overlapped_after(works, self.overlapped);
    }

    // Goes on by an effect: most change little.
    fn apply(&mut self, effect: Effect)
        requires outputs { self.old.column.outputs ≤ 2 ^ 16 }
        requires array_page { self.old.array_page.page < 2 ^ 32 }
        requires queue { length self.old.queue ≤ 4 }
        requires small { IsSmallEffect effect }
        ensures { self.new ≡ view_after effect self.old }
    {
        match effect {
            Effect::Unaffected => {}
            Effect::DataOutputEnabled
            | Effect::SelectedForStatus
            | Effect::Deselected
            | Effect::AnotherAddressed { .. } => self.turn(effect),
            Effect::StatusSelected | Effect::StatusOfSelected | Effect::StatusRowAwaited => {
                self.column = effect.read_column_after(self.column);
                self.latch = effect.latch_after(self.selected, self.works(), self.latch);
            }
            Effect::DataOutput | Effect::ReadColumnChanged { .. } => {
                self.column = effect.read_column_after(self.column);
            }
            Effect::PlaneSelected { .. } => {
                self.column = effect.read_column_after(self.column);
                self.register = effect.register_after(
                    self.array_page,
                    self.queue.as_slice(),
                    self.held.as_slice(),
                    self.register,
                );
                self.turn(effect);
            }
            Effect::ProgramAddressed => self.held.clear(),
            // an arm of its own, so that LLVM makes it for this effect alone
            Effect::EraseStarted { .. } => self.renew(effect),
            _ => self.renew(effect),
        }
    }

    /// Goes on by a cycle of its target, where it has this number. `has_driver` tells whether one LUN alone drives the bus.
    pub(crate) fn apply_cycle(
        &mut self,
        geometry: &Geometry,
        tail: &TailFacts,
        has_driver: bool,
        cycle: TargetCycle,
        number: u8,
    )
        requires { LunFits geometry.now self.old }
        ensures { self.new ≡ view_after
            (cycle_effect geometry.now tail.now (if has_driver then self.old.latch else Off) cycle number) self.old }
    {
        let latch_alone = if has_driver { self.latch } else { Latch::Off };
        self.apply(cycle_effect(geometry, tail, latch_alone, cycle, number));
    }

    /// It gives so many bytes more, where it shows data.
    pub(crate) fn give(&mut self, count: usize)
        requires { (given_on count self.old).column.outputs ≤ 2 ^ 16 }
        ensures { self.new ≡ given_on count self.old }
    {
        if self.latch.is_data() {
            self.column.outputs += count;
        }
    }

    /// It becomes ready, with failures or without.
    pub(crate) fn become_ready(&mut self, fail: Failures)
        ensures { self.new ≡ view_after (Effect.BecameReady fail) self.old }
    {
        let effect = Effect::BecameReady { fail };
        self.array_busy = effect.array_busy_after(self.busy, self.closer, self.array_busy);
        self.busy = effect.busy_after(self.busy);
    }

    /// Its array becomes ready, with failure or without.
    pub(crate) fn become_array_ready(&mut self, fail: bool)
        ensures { self.new ≡ view_after (Effect.ArrayBecameReady fail) self.old }
    {
        let effect = Effect::ArrayBecameReady { fail };
        self.array_busy = effect.array_busy_after(self.busy, self.closer, self.array_busy);
    }
}

impl Default for LunFacts<RowQueue> {
    /// A LUN to which nothing has happened.
    fn default() -> LunFacts<RowQueue> {
        LunFacts::fresh(0)
    }
}
