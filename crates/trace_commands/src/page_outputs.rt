//! The bytes that parameter pages have on the bus.

use onfi_cycle::{Cycle, Item, Kind};
use std::alloc::{AllocError, Global};

/// How many bytes a copy of a page has.
pub(crate) const COPY_LEN: usize = 256;

// What a target was last asked for, as far as it is about a parameter page.
#[derive(Clone, Copy, PartialEq, Eq)]
enum Asked {
    // Something else.
    Nothing,
    // ECh, whose address is to come.
    Opener,
    // The page, which comes with the next outputs.
    Page,
    // The status between the command and the page, or in the page.
    Status,
}

impl Asked {
    // What it is asked for after this cycle.
    fn after(self, cycle: Cycle) -> Asked {
        match (self, cycle.kind, cycle.byte) {
            (_, Kind::Cmd, 0xec) => Asked::Opener,
            (Asked::Opener, Kind::Adr, 0x00) | (Asked::Status, Kind::Cmd, 0x00) => Asked::Page,
            (Asked::Page | Asked::Status, Kind::Cmd, 0x70 | 0x78) => Asked::Status,
            (Asked::Status, Kind::Adr, _) => Asked::Status,
            (Asked::Page | Asked::Status, Kind::Dout, _) => self,
            (
                Asked::Nothing | Asked::Opener | Asked::Page | Asked::Status,
                Kind::Cmd | Kind::Adr | Kind::Din | Kind::Dout,
                _,
            ) => Asked::Nothing,
        }
    }
}

/// What a target has put out of its parameter page, in all reads of it.
#[derive(Drop)]
pub(crate) struct PageOutputs {
    pub bytes: Vec<u8>,
    asked: Asked,
}

impl PageOutputs {
    // Goes on by a cycle. What was read before of a copy that isn't whole counts for nothing once another read begins.
    fn take(&mut self, cycle: Cycle) -> Result<(), AllocError> {
        let asked = self.asked.after(cycle);
        if asked == Asked::Opener {
            let len = self.bytes.len();
            self.bytes.truncate(len - len % COPY_LEN);
        }
        if asked == Asked::Page && cycle.kind == Kind::Dout {
            self.bytes.push(cycle.byte)?;
        }
        self.asked = asked;
        Ok(())
    }

    /// Those of one target among these items.
    pub(crate) fn of(alloc: Global, items: &[Item], target: u8) -> Result<PageOutputs, AllocError> {
        let mut outputs = PageOutputs {
            bytes: Vec::new(alloc),
            asked: Asked::Nothing,
        };
        for item in items {
            match *item {
                Item::Cyc(cycle) if cycle.ce == target => outputs.take(cycle)?,
                Item::Cyc(_) | Item::Rdy { .. } | Item::Ard { .. } => {}
            }
        }
        Ok(outputs)
    }
}
