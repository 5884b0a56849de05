//! What the words of a program have set.
ghost use Rattle.std.specs.Prelude.{◌≡◌, ◌+◌, ◌^◌, ◌<◌};
ghost use Rattle.micro_verify.specs.Playing.{fresh_registers, registers_after};

use micro_word::Word;

/// What the words done have set (docs/use/WORDS.md), the row index counted from the job's base.
#[derive(Clone, Copy, Debug, PartialEq, Eq)]
pub(crate) struct Registers {
    pub column: u16,
    pub plane: u8,
    pub index: u64,
    pub place: u64,
}

impl Registers {
    /// Before the first word.
    pub(crate) fn fresh() -> Registers
        ensures { result ≡ fresh_registers }
    {
        Registers {
            column: 0,
            plane: 0,
            index: 0,
            place: 0,
        }
    }

    /// After a word.
    pub(crate) fn after(self, word: Word) -> Registers
        requires few_rows { self.index < 2 ^ 32 }
        requires few_bytes { self.place < 2 ^ 36 }
        ensures { result ≡ registers_after self word }
    {
        match word {
            Word::Column { column } => Registers { column, ..self },
            Word::Plane { plane } => Registers { plane, ..self },
            Word::Row { row } => Registers {
                index: u64::from(row),
                ..self
            },
            Word::RowAdd { rows } => Registers {
                index: self.index + u64::from(rows),
                ..self
            },
            Word::Seek { place } => Registers {
                place: u64::from(place),
                ..self
            },
            Word::Get { len } | Word::Put { len } => Registers {
                place: self.place + u64::from(len),
                ..self
            },
            _ => self,
        }
    }
}
