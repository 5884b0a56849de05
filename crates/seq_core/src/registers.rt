//! The registers of a program: what its words have set, and the address bytes that they give.
ghost use Rattle.std.specs.Prelude.{◌≡◌, ◌+◌, ◌^◌, ◌<◌, ◌≤◌};
ghost use Rattle.seq_core.specs.Progress.{five_bytes, registers_after, fresh_registers, reaches};

use micro_word::Word;
use nand_geometry::Geometry;

/// What the words done have set (docs/use/WORDS.md). The index stops at its greatest number, which no geometry has.
#[derive(Clone, Copy, Debug, PartialEq, Eq)]
pub struct Registers {
    pub column: u16,
    pub index: u32,
    pub plane: u8,
    pub place: u32,
    pub status: u8,
}

impl Registers {
    /// Before the first word of a job with this base.
    pub fn fresh(base: u32) -> Registers
        ensures { result ≡ fresh_registers base }
    {
        Registers {
            column: 0,
            index: base,
            plane: 0,
            place: 0,
            status: 0,
        }
    }

    /// The five address bytes, None where the row isn't there. Where only column bytes are wanted, the row's are 0.
    pub fn five_bytes(self, geometry: &Geometry, lun: u8, last: u8) -> Option<[u8; 5]>
        ensures { result ≡ five_bytes geometry.now lun self last }
    {
        let low = (self.column % 256) as u8;
        let high = (self.column / 256) as u8;
        if last <= 2 {
            return Some([low, high, 0, 0, 0]);
        }
        let row = geometry.row_bytes(lun, self.index, self.plane)?;
        Some([low, high, row[0], row[1], row[2]])
    }

    /// After a word of a job with this base; a poll has brought this status.
    pub fn after(self, base: u32, word: Word, status: u8) -> Registers
        requires { reaches self.place word < 2 ^ 32 }
        ensures { result ≡ registers_after base self word status }
    {
        match word {
            Word::Get { len } | Word::Put { len } => Registers {
                place: self.place + len,
                ..self
            },
            Word::Seek { place } => Registers { place, ..self },
            Word::Column { column } => Registers { column, ..self },
            Word::RowAdd { rows } => Registers {
                index: self.index.saturating_add(u32::from(rows)),
                ..self
            },
            Word::Row { row } => Registers {
                index: base.saturating_add(u32::from(row)),
                ..self
            },
            Word::Plane { plane } => Registers { plane, ..self },
            Word::Wait | Word::ReadStatus => Registers { status, ..self },
            _ => self,
        }
    }
}
