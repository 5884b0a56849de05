//! Statuses that are the byte of their own command.

use bus_capture::Stamped;
use onfi_cycle::{Cycle, Item, Kind};

// Read Status.
const READ_STATUS: u8 = 0x70;

/// How often the first output after a Read Status is that command's byte, which the bus still holds where outputs are taken too early.
#[derive(Clone, Copy, Default)]
pub(crate) struct EchoedStatuses {
    count: u64,
    // The last cycle was a Read Status.
    is_asked: bool,
}

impl EchoedStatuses {
    // Goes on by an item; a ready is no cycle.
    fn go_on(&mut self, item: Item) {
        match item {
            Item::Cyc(Cycle { kind, byte, .. }) => {
                if self.is_asked && kind == Kind::Dout && byte == READ_STATUS {
                    self.count = self.count.saturating_add(1);
                }
                self.is_asked = kind == Kind::Cmd && byte == READ_STATUS;
            }
            Item::Rdy { .. } | Item::Ard { .. } => {}
        }
    }

    /// Goes on by what is seen.
    pub(crate) fn count_in(&mut self, stamped: &[Stamped]) {
        for seen in stamped {
            self.go_on(seen.item);
        }
    }

    pub(crate) fn count(self) -> u64 {
        self.count
    }
}

/// How often the first output after a Read Status is that command's byte, in a whole capture.
pub fn count_echoes(stamped: &[Stamped]) -> u64 {
    let mut echoes = EchoedStatuses::default();
    echoes.count_in(stamped);
    echoes.count()
}
