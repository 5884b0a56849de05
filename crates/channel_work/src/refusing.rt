//! How a call is answered that there is no memory to store. Out of memory comes last: each other refusal is told as if there were memory.
ghost use Rattle.std.specs.Prelude.{◌≡◌, ◌<◌, IsTrue};
ghost use Rattle.std.specs.Vec.{vec_len, vec_capacity};
ghost use Rattle.seq_core.specs.Event.{Ready, ArrayReady};
ghost use Rattle.seq_core.specs.Reply.{ToReady, ToArrayReady};
ghost use Rattle.channel_work.specs.Coming.{IsRefused};
ghost use Rattle.channel_work.specs.Finished.{IsRefusedFinish};

use crate::events::EventLog;
use crate::stored::NamedJob;
use onfi_cycle::{Failures, Lun};
use seq_core::Core;

/// A ready: false where no such LUN is, or none that works; otherwise None.
pub(crate) fn refuse_ready(core: &Core, lun: Lun, fail: Failures) -> Option<bool>
    ensures { IsRefused core.now (Ready lun fail) ToReady result }
{
    if core.admits_ready(lun, fail) {
        None
    } else {
        Some(false)
    }
}

/// An array ready: false where the LUN isn't there or its array isn't busy, else None.
pub(crate) fn refuse_array_ready(core: &Core, lun: Lun, fail: bool) -> Option<bool>
    ensures { IsRefused core.now (ArrayReady lun fail) ToArrayReady result }
{
    if core.admits_array_ready(lun, fail) {
        None
    } else {
        Some(false)
    }
}

/// The end of a job: false where it hasn't ended or isn't there, else None.
pub(crate) fn refuse_finish(core: &Core, lun: Lun) -> Option<bool>
    ensures { IsRefusedFinish core.now lun result }
{
    match core.admits_unload(lun) {
        Ok(_) => None,
        Err(_) => Some(false),
    }
}

/// Makes room for one more event and one more job that is done, or tells that there is no memory for both.
pub(crate) fn make_room_to_finish(events: &mut EventLog, done: &mut Vec<NamedJob>) -> bool
    ensures same { (events.new.items ≡ events.old.items) × (done.new.items ≡ done.old.items) }
    ensures room { IsTrue result → (0 < events.new.room) × (vec_len done.new < vec_capacity done.new) }
{
    events.reserve().is_ok() && done.reserve(1).is_ok()
}
