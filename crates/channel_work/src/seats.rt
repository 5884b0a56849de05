//! The free seats: a row of a fixed size.
ghost use Rattle.std.specs.Prelude.{◌≡◌, ◌<◌, ◌≤◌, ◌++◌, ◌∷◌, [], IfSome, IfNone, length};

use arrayvec::ArrayVec;
use lun_lease::{LeaseSeat, SEATS};
use std::marker::Model;

/// Seats that are free, at most 16.
#[derive(Drop)]
pub struct Seats {
    slots: ArrayVec<Option<LeaseSeat>, SEATS>,
}

impl Model for Seats {
    ghost use Rattle.std.specs.Prelude.{List};
    ghost use Rattle.lun_lease.specs.Lease.{Seated};
    ghost use Rattle.channel_work.specs.Rows.{somes, AreSome};

    ghost Value = { List Seated };

    ghost view = { λ s. somes s.slots.items };

    ghost invariant = { λ s. AreSome s.slots.items };
}

impl Seats {
    ghost use Rattle.std.specs.Prelude.{map, Some};
    ghost use Rattle.atomic_table.specs.Seated.{TableId};
    ghost use Rattle.lun_lease.specs.Lease.{AreNew};

    /// The seats of a new table.
    pub fn of(seats: ArrayVec<Option<LeaseSeat>, SEATS>) -> Seats
        requires { (table : TableId) × AreNew seats.items table }
        ensures { seats.items ≡ map Some result }
    {
        Seats { slots: seats }
    }

    /// No seat.
    pub fn new() -> Seats
        ensures { result ≡ [] }
    {
        Seats {
            slots: ArrayVec::new(),
        }
    }

    /// How many there are.
    pub fn len(&self) -> usize
        ensures value { result ≡ length self.now }
        ensures fits { result ≤ 16 }
    {
        self.slots.len()
    }

    /// Puts one after the others.
    pub fn push(&mut self, seat: LeaseSeat)
        requires { length self.old < 16 }
        ensures { self.new ≡ self.old ++ seat ∷ [] }
    {
        self.slots.push(Some(seat));
    }

    /// Takes the last one.
    pub fn pop(&mut self) -> Option<LeaseSeat>
        ensures some { IfSome result (λ seat. self.old ≡ self.new ++ seat ∷ []) }
        ensures none { IfNone result ((self.old ≡ []) × (self.new ≡ [])) }
        ensures room { IfSome result (λ _. length self.new < 16) }
    {
        // Its contract says that there are 16 at most, so that one fits again.
        let _len = self.slots.len();
        match self.slots.pop() {
            None => None,
            Some(None) => unreachable!(),
            Some(Some(seat)) => Some(seat),
        }
    }
}
