//! What a trace has.

use onfi_cycle::{Cycle, Item, Kind};
use std::fmt;

/// How many items of each kind a trace has.
#[derive(Clone, Copy, Debug, PartialEq, Eq)]
pub struct Tally {
    commands: u64,
    addresses: u64,
    inputs: u64,
    outputs: u64,
    readies: u64,
}

// One more.
fn count(number: &mut u64) {
    *number = number.saturating_add(1);
}

impl Tally {
    // Counts an item.
    fn count_item(&mut self, item: Item) {
        match item {
            Item::Cyc(Cycle { kind, .. }) => match kind {
                Kind::Cmd => count(&mut self.commands),
                Kind::Adr => count(&mut self.addresses),
                Kind::Din => count(&mut self.inputs),
                Kind::Dout => count(&mut self.outputs),
            },
            Item::Rdy { .. } | Item::Ard { .. } => count(&mut self.readies),
        }
    }

    /// How many items there are.
    pub fn items(self) -> u64 {
        let cycles = self.commands.saturating_add(self.addresses);
        let data = self.inputs.saturating_add(self.outputs);
        cycles.saturating_add(data).saturating_add(self.readies)
    }

    /// What these items are.
    pub(crate) fn of(items: &[Item]) -> Tally {
        let mut tally = Tally {
            commands: 0,
            addresses: 0,
            inputs: 0,
            outputs: 0,
            readies: 0,
        };
        for item in items {
            tally.count_item(*item);
        }
        tally
    }
}

impl fmt::Display for Tally {
    fn fmt<W: fmt::Write>(&self, f: &mut fmt::Formatter<W>) -> fmt::Result {
        write!(
            f,
            "judged: {} commands, {} addresses, {} inputs, {} outputs, {} readies",
            self.commands, self.addresses, self.inputs, self.outputs, self.readies
        )
    }
}
