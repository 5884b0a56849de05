//! A target as it stands before a cycle.

use onfi_cycle::{BusState, Latch, Lun, LunState, TailFacts};

/// How many LUNs a target has at most.
pub const MOST_LUNS: usize = 4;

/// A target as it stands before a cycle: what its tail tells, and each of its LUNs.
#[derive(Clone, Copy)]
pub struct TargetLook {
    pub tail: TailFacts,
    pub luns: [Option<LunState>; MOST_LUNS],
}

impl TargetLook {
    /// The target of this number of a channel.
    pub fn of(bus: &BusState, ce: u8) -> TargetLook {
        TargetLook {
            tail: bus.tail(ce).unwrap_or(TailFacts::none()),
            luns: [
                bus.lun_state(Lun { ce, lun: 0 }),
                bus.lun_state(Lun { ce, lun: 1 }),
                bus.lun_state(Lun { ce, lun: 2 }),
                bus.lun_state(Lun { ce, lun: 3 }),
            ],
        }
    }

    /// The LUN of this number, where it drives the bus.
    pub fn driver_at(&self, lun: u8) -> Option<LunState> {
        let place = usize::from(lun);
        if MOST_LUNS <= place {
            return None;
        }
        let state = self.luns[place]?;
        match state.latch {
            Latch::Off => None,
            Latch::Status | Latch::Data => Some(state),
        }
    }

    /// How many of its LUNs drive the bus.
    pub fn count_drivers(&self) -> usize {
        let mut count: usize = 0;
        for lun in 0..4u8 {
            if self.driver_at(lun).is_some() {
                count = count.saturating_add(1);
            }
        }
        count
    }

    /// The first of its LUNs that drives the bus.
    pub fn driver(&self) -> Option<(u8, LunState)> {
        for lun in 0..4u8 {
            if let Some(state) = self.driver_at(lun) {
                return Some((lun, state));
            }
        }
        None
    }
}
