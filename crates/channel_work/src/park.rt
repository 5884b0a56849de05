//! The park for leases: a row of a fixed size.
ghost use Rattle.std.specs.Prelude.{◌≡◌, ◌<◌, ◌≤◌, ◌++◌, ◌∷◌, [], IfSome, IfNone, length};

use arrayvec::ArrayVec;
use lun_lease::{Lease, Loaded};
use std::marker::Model;

/// How many leases can be parked.
pub(crate) const MAX_PARKED: usize = 8;

/// Leases that are parked, at most 8, the oldest first.
#[derive(Drop)]
pub struct Park {
    slots: ArrayVec<Option<Lease<Loaded>>, MAX_PARKED>,
}

impl Model for Park {
    ghost use Rattle.std.specs.Prelude.{List};
    ghost use Rattle.lun_lease.specs.Lease.{Leased};
    ghost use Rattle.channel_work.specs.Rows.{somes, AreSome};

    ghost Value = { List Leased };

    ghost view = { λ s. somes s.slots.items };

    ghost invariant = { λ s. AreSome s.slots.items };
}

impl Park {
    /// No lease.
    pub fn new() -> Park
        ensures { result ≡ [] }
    {
        Park {
            slots: ArrayVec::new(),
        }
    }

    /// How many there are.
    pub fn len(&self) -> usize
        ensures value { result ≡ length self.now }
        ensures fits { result ≤ 8 }
    {
        self.slots.len()
    }

    /// Puts one after the others.
    pub fn push(&mut self, lease: Lease<Loaded>)
        requires { length self.old < 8 }
        ensures { self.new ≡ self.old ++ lease ∷ [] }
    {
        self.slots.push(Some(lease));
    }

    /// Takes the oldest.
    pub fn take_first(&mut self) -> Option<Lease<Loaded>>
        ensures some { IfSome result (λ lease. self.old ≡ lease ∷ self.new) }
        ensures none { IfNone result ((self.old ≡ []) × (self.new ≡ [])) }
    {
        if self.slots.is_empty() {
            return None;
        }
        match self.slots.remove(0) {
            None => unreachable!(),
            Some(lease) => Some(lease),
        }
    }
}
