//! The bytes of a row in the order of their cycles.
ghost use Rattle.std.specs.Prelude.{◌≡◌, ◌^◌, ◌<◌};
ghost use Rattle.nand_geometry.specs.Row.{row_of};
ghost use Rattle.onfi_cycle.specs.Sequence.{shifted};

/// The last three address bytes of an opener, the oldest first.
#[derive(Clone, Copy, Debug, PartialEq, Eq)]
pub struct RowBytes {
    pub r1: u8,
    pub r2: u8,
    pub r3: u8,
}

impl RowBytes {
    /// The bytes with one more: the oldest goes.
    pub(crate) fn shifted(self, byte: u8) -> RowBytes
        ensures { result ≡ shifted self byte }
    {
        RowBytes {
            r1: self.r2,
            r2: self.r3,
            r3: byte,
        }
    }

    /// The number of the row.
    pub(crate) fn number(self) -> u32
        ensures value { result ≡ row_of self.r1 self.r2 self.r3 }
        ensures small { result < 2 ^ 24 }
    {
        u32::from(self.r1) + 256 * u32::from(self.r2) + 65_536 * u32::from(self.r3)
    }
}
