//! A LUN of a channel.
ghost use Rattle.std.specs.Prelude.{◌≡◌, ◌+◌, ◌*◌, ◌/◌, ◌%◌, ◌<◌};

/// The most targets of a channel, each with a chip enable of its own.
pub const MAX_TARGETS: usize = 4;

/// The most LUNs of a channel.
pub const MAX_CHANNEL_LUNS: usize = 16;

/// A LUN by its chip enable and its number on the target, both from 0.
#[derive(Clone, Copy, Debug, PartialEq, Eq)]
pub struct Lun {
    pub ce: u8,
    pub lun: u8,
}

impl Lun {
    /// Its place among the LUNs of a channel with so many LUNs on each target: those of target 0 come first.
    pub fn place(self, luns: u8) -> usize
        ensures { result ≡ self.ce * luns + self.lun }
    {
        usize::from(self.ce) * usize::from(luns) + usize::from(self.lun)
    }

    /// The LUN at a place among those of a channel with so many LUNs on each target.
    pub fn at(place: usize, luns: u8) -> Lun
        requires place { place < 16 }
        requires luns { 0 < luns }
        ensures { result ≡ record { ce = place / luns; lun = place % luns } }
    {
        let luns = usize::from(luns);
        Lun {
            ce: (place / luns) as u8,
            lun: (place % luns) as u8,
        }
    }
}
