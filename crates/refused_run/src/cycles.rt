//! The cycles of a word.
ghost use Rattle.std.specs.Prelude.{◌≡◌, ◌∷◌, [], Some};
ghost use Rattle.onfi_cycle.specs.declared.item.Kind.TheVariants.{Cmd};
ghost use Rattle.refused_run.specs.Course.{CyclesAre, cycle_on, address_items, poll_items, cycles_of, listed};

use micro_word::Word;
use nand_geometry::Geometry;
use onfi_cycle::{Cycle, Item, Kind, READ_STATUS, READ_STATUS_ENHANCED};
use seq_core::Registers;

/// The cycles of a word: some of five, or one so often.
#[derive(Clone, Copy)]
pub(crate) enum Cycles {
    Few {
        items: [Item; 5],
        from: usize,
        count: usize,
    },
    Many {
        item: Item,
        count: usize,
    },
}

/// A cycle on the one target.
pub(crate) fn cycle_on(kind: Kind, byte: u8) -> Item
    ensures { result ≡ cycle_on kind byte }
{
    Item::Cyc(Cycle { ce: 0, kind, byte })
}

impl Cycles {
    // No cycle.
    fn none() -> Cycles
        ensures { CyclesAre (Some result) (Some []) }
    {
        Cycles::Many {
            item: cycle_on(Kind::Cmd, 0),
            count: 0,
        }
    }

    // A command.
    fn command(byte: u8) -> Cycles
        ensures { CyclesAre (Some result) (Some (cycle_on Cmd byte ∷ [])) }
    {
        Cycles::Many {
            item: cycle_on(Kind::Cmd, byte),
            count: 1,
        }
    }

    // Address bytes that registers give; none where the row isn't there.
    fn address(geometry: &Geometry, registers: Registers, from: u8, count: u8) -> Option<Cycles>
        ensures { CyclesAre result (address_items geometry.now registers from count) }
    {
        if from > 5 || count > 5 - from {
            return None;
        }
        let five = registers.five_bytes(geometry, 0, from + count)?;
        Some(Cycles::Few {
            items: five.map(|byte| cycle_on(Kind::Adr, byte)),
            from: usize::from(from),
            count: usize::from(count),
        })
    }

    // A poll, which brings this status.
    fn poll(geometry: &Geometry, status: u8) -> Option<Cycles>
        ensures { CyclesAre result (poll_items geometry.now status) }
    {
        let output = cycle_on(Kind::Dout, status);
        if geometry.parts().luns <= 1 {
            let command = cycle_on(Kind::Cmd, READ_STATUS);
            return Some(Cycles::Few {
                items: [command, output, output, output, output],
                from: 0,
                count: 2,
            });
        }
        let row = geometry.row_bytes(0, 0, 0)?;
        Some(Cycles::Few {
            items: [
                cycle_on(Kind::Cmd, READ_STATUS_ENHANCED),
                cycle_on(Kind::Adr, row[0]),
                cycle_on(Kind::Adr, row[1]),
                cycle_on(Kind::Adr, row[2]),
                output,
            ],
            from: 0,
            count: 5,
        })
    }

    /// The cycles of a word after those that have set these registers. A poll brings this status; a `get` takes 00, and a `put` gives it. None
    /// where the row of an address isn't there.
    pub(crate) fn of(
        geometry: &Geometry,
        registers: Registers,
        word: Word,
        status: u8,
    ) -> Option<Cycles>
        ensures { CyclesAre result (cycles_of geometry.now registers word status) }
    {
        match word {
            Word::Command { byte } => Some(Cycles::command(byte)),
            Word::Address { from, count } => Cycles::address(geometry, registers, from, count),
            Word::Get { len } => Some(Cycles::Many {
                item: cycle_on(Kind::Dout, 0),
                count: len as usize,
            }),
            Word::Put { len } => Some(Cycles::Many {
                item: cycle_on(Kind::Din, 0),
                count: len as usize,
            }),
            Word::Wait | Word::ReadStatus => Cycles::poll(geometry, status),
            Word::End { .. }
            | Word::Seek { .. }
            | Word::Column { .. }
            | Word::RowAdd { .. }
            | Word::Row { .. }
            | Word::Plane { .. }
            | Word::Yield
            | Word::BranchOnStatus { .. }
            | Word::Loop { .. }
            | Word::Next
            | Word::Jump { .. } => Some(Cycles::none()),
        }
    }
}
