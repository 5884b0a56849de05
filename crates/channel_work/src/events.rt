//! The events of a channel in the order of time, kept in few bytes.
ghost use Rattle.std.specs.Prelude.{◌≡◌, ◌<◌, ◌++◌, ◌∷◌, [], IsOk, OnOk, length, reverse};
ghost use Rattle.std.specs.List.{flat_map};
ghost use Rattle.std.specs.Vec.{vec_len, vec_capacity};
ghost use Rattle.channel_work.specs.Stored.{last_started};
ghost use Rattle.channel_work.specs.Events.{kept_as, one_more, first_kept, AreMerged};

use crate::stored::{Name, Stored};
use onfi_cycle::{Failures, Lun};
use std::alloc::{AllocError, Global};
use std::marker::Model;

/// Events as they are kept: one event, or the steps of a LUN that stand in a row in one turn.
#[derive(Clone, Copy, Debug, PartialEq, Eq)]
pub(crate) enum Kept {
    /// The job of this name came to the LUN.
    Load { lun: Lun, host: u32, number: u64 },
    /// The LUN was stepped so many times in a row, in the turn of this number.
    Steps { lun: Lun, times: u32, turn: u64 },
    /// The LUN became ready, with failures or without.
    Ready { lun: Lun, fail: Failures },
    /// The array of the LUN became ready.
    ArrayReady { lun: Lun, fail: bool },
    /// The job of the LUN was taken away.
    Unload { lun: Lun },
}

/// The events of a channel, in the order of time.
#[derive(Drop)]
pub(crate) struct EventLog {
    kept: Vec<Kept>,
    // How many events there are.
    count: u64,
}

impl Model for EventLog {
    ghost use Rattle.std.specs.Prelude.{◌≡◌, ◌-◌, ◌^◌, min, length};
    ghost use Rattle.std.specs.List.{flat_map};
    ghost use Rattle.std.specs.Vec.{vec_len, vec_capacity};
    ghost use Rattle.channel_work.specs.Events.{EventsView, kept_as, AreMerged};

    ghost Value = { EventsView };

    ghost view = { λ e. record { items = flat_map kept_as e.kept.items; room = min (vec_capacity e.kept - vec_len e.kept) (2 ^ 64 - 1 - e.count) } };

    ghost invariant = { λ e. (e.count ≡ length (flat_map kept_as e.kept.items)) × AreMerged e.kept.items };
}

impl EventLog {
    /// No event yet.
    pub(crate) fn new(alloc: Global) -> EventLog
        ensures items { result.items ≡ [] }
    {
        EventLog {
            kept: Vec::new(alloc),
            count: 0,
        }
    }

    /// How many events there are.
    pub(crate) fn len(&self) -> u64
        ensures { result ≡ length self.now.items }
    {
        self.count
    }

    /// Makes room for one more event. Where no more can be counted, that is as if memory were refused.
    pub(crate) fn reserve(&mut self) -> Result<(), AllocError>
        ensures items { self.new.items ≡ self.old.items }
        ensures room { OnOk result (0 < self.new.room) }
    {
        if self.count == u64::MAX {
            return Err(AllocError);
        }
        self.kept.reserve(1)
    }

    /// Puts an event after the others, where there is room for it.
    pub(crate) fn push_reserved(&mut self, event: Stored)
        requires { 0 < self.old.room }
        ensures items { self.new.items ≡ self.old.items ++ event ∷ [] }
    {
        self.count += 1;
        push_kept(&mut self.kept, event);
    }

    /// The name of the job that was last started on a LUN, if one was.
    pub(crate) fn find_last_started(&self, lun: Lun) -> Option<Name>
        ensures { result ≡ last_started lun (reverse self.now.items) }
    {
        find_last_kept(self.kept.as_slice(), lun)
    }
}

// One event as it is kept.
fn keep(event: Stored) -> Kept
    ensures one { kept_as result ≡ event ∷ [] }
    ensures first { first_kept result ≡ event }
{
    match event {
        Stored::Load(lun, Name { host, number }) => Kept::Load { lun, host, number },
        Stored::Step(lun, turn) => Kept::Steps {
            lun,
            times: 1,
            turn,
        },
        Stored::Ready(lun, fail) => Kept::Ready { lun, fail },
        Stored::ArrayReady(lun, fail) => Kept::ArrayReady { lun, fail },
        Stored::Unload(lun) => Kept::Unload { lun },
    }
}

// Kept steps with a step more, if the event is one of the same LUN in the same turn.
fn add_one(kept: Kept, event: Stored) -> Option<Kept>
    ensures { result ≡ one_more kept event }
{
    let Stored::Step(stepped, number) = event else {
        return None;
    };
    let Kept::Steps { lun, times, turn } = kept else {
        return None;
    };
    if lun == stepped && turn == number && times < u32::MAX {
        Some(Kept::Steps {
            lun,
            times: times + 1,
            turn,
        })
    } else {
        None
    }
}

// Keeps an event after the others, where there is room for it.
#[tactic(auto, using(crate::proofs::Merging::merged_more, crate::proofs::Merging::merged_next))]
fn push_kept(kept: &mut Vec<Kept>, event: Stored)
    requires { vec_len kept.old < vec_capacity kept.old }
    ensures items { flat_map kept_as kept.new.items ≡ flat_map kept_as kept.old.items ++ event ∷ [] }
    ensures merged { AreMerged kept.old.items → AreMerged kept.new.items }
{
    match kept.pop() {
        None => kept.push_reserved(keep(event)),
        Some(last) => match add_one(last, event) {
            Some(more) => kept.push_reserved(more),
            None => {
                kept.push_reserved(last);
                kept.push_reserved(keep(event));
            }
        },
    }
}

// The name of the job that was last started on a LUN, if one was.
fn find_last_kept(kept: &[Kept], lun: Lun) -> Option<Name>
    ensures { result ≡ last_started lun (reverse (flat_map kept_as kept.now)) }
{
    let mut place = kept.len();
    while place > 0 {
        place -= 1;
        if let Kept::Load {
            lun: at,
            host,
            number,
        } = kept[place]
        {
            if lun == at {
                return Some(Name { host, number });
            }
        }
    }
    None
}
