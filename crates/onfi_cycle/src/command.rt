//! The commands: their bytes, and what each asks of its sequence.
ghost use Rattle.std.specs.Prelude.{ℕ, ◌≡◌, ◌<◌, ◌^◌, Option};
ghost use Rattle.onfi_cycle.specs.Command.{command, opcode, is_known, is_opener, address_cycles, closes, takes_address, at_last_row, addresses_the_array, begins_data, reads_identity, is_reset, closes_row, reads_row, is_of_target, wants_ready, wants_one_lun};
ghost use Rattle.onfi_cycle.specs.Base.{is_of_base};
ghost use Rattle.onfi_cycle.specs.Sequence.{is_proper_beginning};

/// The byte of [`Command::ReadStatus`], with which a host polls the one LUN of a target.
pub const READ_STATUS: u8 = 0x70;

/// The byte of [`Command::ReadStatusEnhanced`], with which a host polls a LUN of several by a row of it.
pub const READ_STATUS_ENHANCED: u8 = 0x78;

/// The commands of the profiles. Each name is the one of ONFI 4.x; the section that defines it
/// bears that name, and stands in the table of docs/model/MODEL.md. [`Command::of`] and [`Command::opcode`] lead from
/// bytes to commands and back.
#[derive(Clone, Copy, Debug, PartialEq, Eq)]
pub enum Command {
    /// 00h, Read Definition. Alone it turns a LUN that shows status back to data.
    Read,
    /// 30h, Read Definition.
    ReadConfirm,
    /// 32h, Read Page Multi-plane.
    ReadPlane,
    /// 35h, Copyback Read.
    CopybackRead,
    /// 05h, Change Read Column Definition.
    ChangeReadColumn,
    /// 06h, Change Read Column Enhanced Definition.
    ChangeReadColumnEnhanced,
    /// E0h, Change Read Column Definition. It closes a Change Read Column Enhanced too.
    ChangeReadColumnConfirm,
    /// 60h, Block Erase Definition.
    BlockErase,
    /// D0h, Block Erase Definition.
    BlockEraseConfirm,
    /// D1h, Multi-plane Block Erase.
    BlockErasePlane,
    /// 70h, Read Status Definition.
    ReadStatus,
    /// 78h, Read Status Enhanced Definition.
    ReadStatusEnhanced,
    /// 80h, Page Program Definition.
    PageProgram,
    /// 85h, Change Write Column Definition, in the data of a program; elsewhere Copyback Program.
    ChangeWriteColumn,
    /// 10h, Page Program Definition.
    ProgramConfirm,
    /// 11h, Multi-plane Page Program.
    ProgramPlane,
    /// 15h, Page Cache Program Definition.
    ProgramCache,
    /// 90h, Read ID Definition.
    ReadId,
    /// ECh, Read Parameter Page Definition.
    ReadParameterPage,
    /// FFh, Reset Definition.
    Reset,
    /// 31h, Read Cache Definition. It closes a Read too, which is Read Cache Random there.
    ReadCacheSequential,
    /// 3Fh, Read Cache Definition.
    ReadCacheEnd,
    /// EDh, Read Unique ID Definition.
    ReadUniqueId,
    /// EEh, Get Features Definition.
    GetFeatures,
    /// EFh, Set Features Definition.
    SetFeatures,
    /// FAh, Reset LUN Definition.
    ResetLun,
    /// FCh, Synchronous Reset Definition.
    SynchronousReset,
    /// Any other byte.
    Unknown,
}

impl Command {
    /// The command of a byte, `Unknown` for a byte that no profile has (docs/model/MODEL.md, "Commands").
    #[tactic(auto, unfolding(crate::specs::Command::command))]
    pub fn of(byte: u8) -> Command
        ensures { result ≡ command byte }
    {
        match byte {
            0x00 => Command::Read,
            0x30 => Command::ReadConfirm,
            0x05 => Command::ChangeReadColumn,
            0xe0 => Command::ChangeReadColumnConfirm,
            0x60 => Command::BlockErase,
            0xd0 => Command::BlockEraseConfirm,
            0xd1 => Command::BlockErasePlane,
            0x70 => Command::ReadStatus,
            0x78 => Command::ReadStatusEnhanced,
            0x80 => Command::PageProgram,
            0x85 => Command::ChangeWriteColumn,
            0x10 => Command::ProgramConfirm,
            0x11 => Command::ProgramPlane,
            0x90 => Command::ReadId,
            0xec => Command::ReadParameterPage,
            0xff => Command::Reset,
            0x31 => Command::ReadCacheSequential,
            0x3f => Command::ReadCacheEnd,
            0xed => Command::ReadUniqueId,
            0xee => Command::GetFeatures,
            0xef => Command::SetFeatures,
            0xfa => Command::ResetLun,
            0xfc => Command::SynchronousReset,
            0x06 => Command::ChangeReadColumnEnhanced,
            0x32 => Command::ReadPlane,
            0x35 => Command::CopybackRead,
            0x15 => Command::ProgramCache,
            _ => Command::Unknown,
        }
    }

    /// The byte of a command, None for `Unknown`.
    pub fn opcode(self) -> Option<u8>
        ensures { result ≡ opcode self }
    {
        match self {
            Command::Read => Some(0x00),
            Command::ReadConfirm => Some(0x30),
            Command::ReadPlane => Some(0x32),
            Command::CopybackRead => Some(0x35),
            Command::ChangeReadColumn => Some(0x05),
            Command::ChangeReadColumnEnhanced => Some(0x06),
            Command::ChangeReadColumnConfirm => Some(0xe0),
            Command::BlockErase => Some(0x60),
            Command::BlockEraseConfirm => Some(0xd0),
            Command::BlockErasePlane => Some(0xd1),
            Command::ReadStatus => Some(0x70),
            Command::ReadStatusEnhanced => Some(0x78),
            Command::PageProgram => Some(0x80),
            Command::ChangeWriteColumn => Some(0x85),
            Command::ProgramConfirm => Some(0x10),
            Command::ProgramPlane => Some(0x11),
            Command::ProgramCache => Some(0x15),
            Command::ReadId => Some(0x90),
            Command::ReadParameterPage => Some(0xec),
            Command::Reset => Some(0xff),
            Command::ReadCacheSequential => Some(0x31),
            Command::ReadCacheEnd => Some(0x3f),
            Command::ReadUniqueId => Some(0xed),
            Command::GetFeatures => Some(0xee),
            Command::SetFeatures => Some(0xef),
            Command::ResetLun => Some(0xfa),
            Command::SynchronousReset => Some(0xfc),
            Command::Unknown => None,
        }
    }

    /// The command is one of some profile.
    pub fn is_known(self) -> bool
        ensures { result ≡ is_known self }
    {
        self != Command::Unknown
    }

    /// The command is one of the base profile.
    pub fn is_of_base(self) -> bool
        ensures { result ≡ is_of_base self }
    {
        !matches!(
            self,
            Command::ChangeReadColumnEnhanced
                | Command::ReadPlane
                | Command::CopybackRead
                | Command::ProgramCache
                | Command::ReadUniqueId
                | Command::GetFeatures
                | Command::SetFeatures
                | Command::ResetLun
                | Command::SynchronousReset
                | Command::Unknown
        )
    }

    /// The command begins a sequence. [`Command::ReadCacheSequential`] and [`Command::ChangeWriteColumn`] do so where the tail doesn't want them.
    pub fn is_opener(self) -> bool
        ensures { result ≡ is_opener self }
    {
        !matches!(
            self,
            Command::ReadConfirm
                | Command::ReadPlane
                | Command::CopybackRead
                | Command::ChangeReadColumnConfirm
                | Command::BlockEraseConfirm
                | Command::BlockErasePlane
                | Command::ProgramConfirm
                | Command::ProgramPlane
                | Command::ProgramCache
                | Command::Unknown
        )
    }

    /// How many address cycles follow an opener.
    pub fn address_cycles(self) -> usize
        ensures { result ≡ address_cycles self }
    {
        match self {
            Command::Read
            | Command::ChangeReadColumnEnhanced
            | Command::PageProgram
            | Command::ChangeWriteColumn => 5,
            Command::BlockErase | Command::ReadStatusEnhanced | Command::ResetLun => 3,
            Command::ChangeReadColumn => 2,
            Command::ReadId
            | Command::ReadParameterPage
            | Command::ReadUniqueId
            | Command::GetFeatures
            | Command::SetFeatures => 1,
            _ => 0,
        }
    }

    /// The closer ends what the opener began, straight after its addresses.
    pub fn closes(self, closer: Command) -> bool
        ensures { result ≡ closes self closer }
    {
        match self {
            Command::Read => {
                matches!(
                    closer,
                    Command::ReadConfirm
                        | Command::ReadPlane
                        | Command::CopybackRead
                        | Command::ReadCacheSequential
                )
            }
            Command::ChangeReadColumn | Command::ChangeReadColumnEnhanced => {
                matches!(closer, Command::ChangeReadColumnConfirm)
            }
            Command::BlockErase => {
                matches!(
                    closer,
                    Command::BlockEraseConfirm | Command::BlockErasePlane
                )
            }
            _ => false,
        }
    }

    /// Read ID takes the addresses 20h, 00h and 40h, Read Parameter Page and Read Unique ID 00h. In the base profile Read ID takes 20h alone,
    /// which a rule says.
    pub fn takes_address(self, byte: u8) -> bool
        ensures { result ≡ takes_address self byte }
    {
        match self {
            Command::ReadId => byte == 0x20 || byte == 0x00 || byte == 0x40,
            Command::ReadParameterPage | Command::ReadUniqueId => byte == 0x00,
            _ => true,
        }
    }

    /// After this many address cycles the next one is the last of a row.
    pub fn at_last_row(self, addresses: usize) -> bool
        ensures { result ≡ at_last_row self addresses }
    {
        match self {
            Command::Read
            | Command::ChangeReadColumnEnhanced
            | Command::PageProgram
            | Command::ChangeWriteColumn => addresses == 4,
            Command::BlockErase | Command::ReadStatusEnhanced | Command::ResetLun => addresses == 2,
            _ => false,
        }
    }

    /// The opener's row is of a LUN that has to be ready.
    pub fn addresses_the_array(self) -> bool
        ensures { result ≡ addresses_the_array self }
    {
        matches!(
            self,
            Command::Read
                | Command::ChangeReadColumnEnhanced
                | Command::BlockErase
                | Command::PageProgram
                | Command::ChangeWriteColumn
        )
    }

    /// The opener's row is followed by the data of a program: those of a Page Program, or of a copyback.
    pub fn begins_data(self) -> bool
        ensures { result ≡ begins_data self }
    {
        matches!(self, Command::PageProgram | Command::ChangeWriteColumn)
    }

    /// The opener reads what stands beside the array, or sets it.
    pub fn reads_identity(self) -> bool
        ensures { result ≡ reads_identity self }
    {
        matches!(
            self,
            Command::ReadId
                | Command::ReadParameterPage
                | Command::ReadUniqueId
                | Command::GetFeatures
                | Command::SetFeatures
        )
    }

    /// It is one of the resets that may come in an open sequence.
    pub fn is_reset(self) -> bool
        ensures { result ≡ is_reset self }
    {
        matches!(self, Command::Reset | Command::SynchronousReset)
    }

    /// It reads the row of the sequence that it closes.
    pub fn reads_row(self) -> bool
        ensures { result ≡ reads_row self }
    {
        matches!(
            self,
            Command::ReadConfirm
                | Command::ReadPlane
                | Command::CopybackRead
                | Command::ReadCacheSequential
        )
    }

    /// It closes a sequence with a row, and works on that. [`Command::ReadCacheSequential`] may come behind no row too.
    pub fn closes_row(self) -> bool
        ensures { result ≡ closes_row self }
    {
        matches!(
            self,
            Command::ReadConfirm
                | Command::ReadPlane
                | Command::CopybackRead
                | Command::ReadCacheSequential
                | Command::BlockEraseConfirm
                | Command::BlockErasePlane
                | Command::ProgramConfirm
                | Command::ProgramPlane
                | Command::ProgramCache
        )
    }

    /// It is of a whole target, and of none of its LUNs where it has several.
    pub fn is_of_target(self) -> bool
        ensures { result ≡ is_of_target self }
    {
        self.reads_identity() || self.is_reset()
    }

    /// The opener wants a ready LUN on its target.
    pub fn wants_ready(self) -> bool
        ensures { result ≡ wants_ready self }
    {
        matches!(self, Command::ChangeReadColumn)
            || self.addresses_the_array()
            || self.reads_identity()
    }

    /// The opener works on a target with one LUN alone, but in the wider profile.
    pub fn wants_one_lun(self) -> bool
        ensures { result ≡ wants_one_lun self }
    {
        matches!(
            self,
            Command::ReadStatus
                | Command::ReadId
                | Command::ReadParameterPage
                | Command::Reset
                | Command::ReadUniqueId
                | Command::GetFeatures
                | Command::SetFeatures
                | Command::SynchronousReset
        )
    }

    /// So many addresses after an opener are the beginning of a sequence, and not the command 00h alone.
    pub fn is_proper_beginning(self, addresses: usize) -> bool
        ensures { result ≡ is_proper_beginning self addresses }
    {
        match self {
            Command::Read => 0 < addresses && addresses <= 5,
            Command::ChangeReadColumn => addresses <= 2,
            Command::BlockErase => addresses <= 3,
            Command::ChangeReadColumnEnhanced | Command::PageProgram | Command::ChangeWriteColumn =>
                addresses <= 5,
            _ => addresses < self.address_cycles(),
        }
    }
}
