//! The commands beyond the base profile that a chip has.
ghost use Rattle.std.specs.Prelude.{⊤, ◌≡◌, [], ◌∷◌, codes};
ghost use Rattle.nand_geometry.specs.Optional.{no_optional, is_wide, has_features, has_copyback, has_unique_id, has_enhanced_column, has_lun_reset, has_plane_reads, has_synchronous_reset, has_free_blocks, has_odd_even, has_program_cache, has_group_cache};

use bitflags::{Flag, Flags, bitflag_items};

/// Which commands a parameter page is read for.
#[derive(Clone, Copy, Debug, PartialEq, Eq)]
pub enum Profile {
    /// The commands of the base profile alone, whatever else the page declares.
    Base,
    /// Besides, the optional commands of ONFI that the page declares, and what each ONFI chip has.
    Onfi,
}

/// What a chip has beyond the base profile: none of it in the base profile itself.
#[derive(Clone, Copy, Debug, PartialEq, Eq)]
pub struct Optional(pub u16);

bitflag_items! {
    impl Optional: u16 {
        /// 15h, Page Cache Program (byte 8 bit 0 of the parameter page).
        const PROGRAM_CACHE = 1;
        /// EEh and EFh, Get Features and Set Features (byte 8 bit 2).
        const FEATURES = 4;
        /// 35h and 85h with five addresses, Copyback Read and Copyback Program (byte 8 bit 4).
        const COPYBACK = 16;
        /// EDh, Read Unique ID (byte 8 bit 5).
        const UNIQUE_ID = 32;
        /// 06h, Change Read Column Enhanced (byte 8 bit 6).
        const ENHANCED_COLUMN = 64;
        /// FAh, Reset LUN (byte 9 bit 1).
        const RESET_LUN = 512;
        /// 32h, Read Page Multi-plane (byte 6 bit 6).
        const PLANE_READS = 1024;
        /// FCh, Synchronous Reset (byte 6 bit 5, or byte 7 bit 2 or 5: an interface of double data rate).
        const SYNCHRONOUS_RESET = 2048;
        /// The blocks of one group of planes may have any bits above those of the plane (byte 114 bit 1).
        const FREE_BLOCKS = 4096;
        /// A copyback may go from an odd page to an even one, or back (byte 6 bit 4).
        const ODD_EVEN = 8192;
        /// 15h may close the program of several planes too (byte 114 bit 2).
        const GROUP_CACHE = 16_384;
        /// What each chip of the profile has: 90h with the addresses 00h and 40h, and FFh in an open sequence.
        const WIDE = 32_768;
    }
}

impl Flags for Optional {
    type Bits = u16;

    ghost exact = { ⊤ };

    ghost table = { (codes "PROGRAM_CACHE", 1) ∷ (codes "FEATURES", 4) ∷ (codes "COPYBACK", 16) ∷ (codes "UNIQUE_ID", 32) ∷ (codes "ENHANCED_COLUMN", 64) ∷ (codes "RESET_LUN", 512) ∷ (codes "PLANE_READS", 1024) ∷ (codes "SYNCHRONOUS_RESET", 2048) ∷ (codes "FREE_BLOCKS", 4096) ∷ (codes "ODD_EVEN", 8192) ∷ (codes "GROUP_CACHE", 16384) ∷ (codes "WIDE", 32768) ∷ [] };

    ghost set_of = { λ o. o.0 };

    fn flags<'a>() -> &'a [Flag<Optional>] {
        Optional::FLAGS
    }

    fn bits(&self) -> u16 {
        self.0
    }

    fn from_bits_retain(bits: u16) -> Optional {
        Optional(bits)
    }
}

impl Optional {
    /// Nothing beyond the base profile.
    pub const NONE: Optional = Optional(0);

    /// The chip is read as one of the wider profile.
    pub fn is_wide(self) -> bool
        ensures { result ≡ is_wide self }
    {
        self.contains(Optional::WIDE)
    }

    /// The chip has Page Cache Program.
    pub fn has_program_cache(self) -> bool
        ensures { result ≡ has_program_cache self }
    {
        self.is_wide() && self.contains(Optional::PROGRAM_CACHE)
    }

    /// Page Cache Program may close the program of several planes.
    pub fn has_group_cache(self) -> bool
        ensures { result ≡ has_group_cache self }
    {
        self.is_wide() && self.contains(Optional::GROUP_CACHE)
    }

    /// The chip has Get Features and Set Features.
    pub fn has_features(self) -> bool
        ensures { result ≡ has_features self }
    {
        self.contains(Optional::FEATURES)
    }

    /// The chip has Copyback Read and Copyback Program.
    pub fn has_copyback(self) -> bool
        ensures { result ≡ has_copyback self }
    {
        self.is_wide() && self.contains(Optional::COPYBACK)
    }

    /// The chip has Read Unique ID.
    pub fn has_unique_id(self) -> bool
        ensures { result ≡ has_unique_id self }
    {
        self.contains(Optional::UNIQUE_ID)
    }

    /// The chip has Change Read Column Enhanced.
    pub fn has_enhanced_column(self) -> bool
        ensures { result ≡ has_enhanced_column self }
    {
        self.contains(Optional::ENHANCED_COLUMN)
    }

    /// The chip has Reset LUN.
    pub fn has_lun_reset(self) -> bool
        ensures { result ≡ has_lun_reset self }
    {
        self.contains(Optional::RESET_LUN)
    }

    /// The chip reads several planes at once.
    pub fn has_plane_reads(self) -> bool
        ensures { result ≡ has_plane_reads self }
    {
        self.is_wide() && self.contains(Optional::PLANE_READS)
    }

    /// The blocks of one group of planes may have any bits above those of the plane.
    pub fn has_free_blocks(self) -> bool
        ensures { result ≡ has_free_blocks self }
    {
        self.is_wide() && self.contains(Optional::FREE_BLOCKS)
    }

    /// A copyback may go from an odd page to an even one, or back.
    pub fn has_odd_even(self) -> bool
        ensures { result ≡ has_odd_even self }
    {
        self.is_wide() && self.contains(Optional::ODD_EVEN)
    }

    /// The chip has Synchronous Reset.
    pub fn has_synchronous_reset(self) -> bool
        ensures { result ≡ has_synchronous_reset self }
    {
        self.contains(Optional::SYNCHRONOUS_RESET)
    }
}
