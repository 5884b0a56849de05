//! A LUN as it is seen from outside.
ghost use Rattle.std.specs.Prelude.{◌≡◌, ◌^◌, ◌<◌, ◌≤◌, IfSome};
ghost use Rattle.onfi_cycle.specs.Look.{look_at};

use crate::{Latch, LunFacts, Register, RowQueue, is_cache_read};

/// A LUN as it is seen from outside, told from the running state.
#[derive(Clone, Copy, Debug, PartialEq, Eq)]
pub struct LunState {
    /// It does its work, and no ready has come yet.
    pub busy: bool,
    /// What it drives the bus with when its target is read.
    pub latch: Latch,
    /// What its register holds.
    pub register: Register,
    /// The place in the register that the next data output gives. None: no address gave one, or it was lost.
    pub column: Option<u32>,
    /// How many rows its queue has.
    pub queued: usize,
    /// A cache read goes on.
    pub caching: bool,
    /// It programs behind a Page Cache Program, or its array does.
    pub programming: bool,
    /// The array works on after a cache read or a cache program.
    pub array_busy: bool,
}

impl LunState {
    /// A look at a LUN.
    pub(crate) fn of(lun: &LunFacts<RowQueue>) -> LunState
        requires given { IfSome lun.now.column.given (λ from. from < 2 ^ 16) }
        requires outputs { lun.now.column.outputs ≤ 2 ^ 16 }
        ensures { result ≡ look_at lun.now }
    {
        LunState {
            busy: lun.busy,
            latch: lun.latch,
            register: lun.register,
            column: lun.column.output_column().map(|column| column as u32),
            queued: lun.queue.len(),
            caching: is_cache_read(lun.closer),
            programming: lun.programs(),
            array_busy: lun.array_busy,
        }
    }
}
