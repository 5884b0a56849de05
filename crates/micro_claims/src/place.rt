//! Where the tail of the target is, and what may come there.
ghost use Rattle.std.specs.Prelude.{◌≡◌};
ghost use Rattle.micro_claims.specs.Against.{is_open_place, is_in_data, is_in_features, takes_inputs_at, is_data_command, place_wants, selects_plane_at, addresses_left, first_address, next_address, takes_identity_at, is_inside_address};
ghost use Rattle.micro_claims.specs.Joins.{joined_place};
ghost use Rattle.micro_claims.specs.Leaves.{after_few, opener_leads_to, column_leads_to, address_leads_to};
ghost use Rattle.micro_claims.specs.Order.{same_place, is_place_within};

use onfi_cycle::{Command, FEATURE_BYTES};

/// Where the tail of the program's target is.
#[derive(Clone, Copy)]
pub enum Place {
    /// Nothing is open; a 00h may stand alone.
    Closed,
    /// After an opener and so many of its addresses.
    After { opener: Command, addresses: u8 },
    /// In the data of a program.
    InData,
    /// After a change of the write column and so many of its addresses.
    InColumn { addresses: u8 },
    /// After the address of a Set Features and so many of its four bytes.
    InFeatures { inputs: u8 },
    /// Anywhere: ways have met that stand at different places.
    Unknown,
}

// A command that goes on from the data of a program.
fn is_data_command(command: Command) -> bool
    ensures { result ≡ is_data_command command }
{
    matches!(
        command,
        Command::ChangeWriteColumn
            | Command::ProgramConfirm
            | Command::ProgramPlane
            | Command::ProgramCache
    )
}

/// Which of the five address bytes is the first of an opener.
pub fn first_address(opener: Command) -> usize
    ensures { result ≡ first_address opener }
{
    match opener {
        Command::BlockErase | Command::ResetLun => 2,
        _ => 0,
    }
}

// After so many addresses; no opener takes more than five.
fn after_few(opener: Command, addresses: usize) -> Place
    ensures { result ≡ after_few opener addresses }
{
    if addresses <= 5 {
        Place::After {
            opener,
            addresses: addresses as u8,
        }
    } else {
        Place::Unknown
    }
}

// After so many addresses of an opener.
fn opener_leads_to(opener: Command, addresses: usize) -> Place
    ensures { result ≡ opener_leads_to opener addresses }
{
    match opener {
        Command::PageProgram | Command::ChangeWriteColumn if addresses == 5 => Place::InData,
        Command::ReadId
        | Command::ReadParameterPage
        | Command::ReadUniqueId
        | Command::GetFeatures => Place::Closed,
        Command::SetFeatures => Place::InFeatures { inputs: 0 },
        _ => after_few(opener, addresses),
    }
}

// After so many addresses of a change of the write column.
fn column_leads_to(addresses: usize) -> Place
    ensures { result ≡ column_leads_to addresses }
{
    match addresses {
        0 => Place::InColumn { addresses: 0 },
        1 => Place::InColumn { addresses: 1 },
        2 => Place::InData,
        _ => Place::Unknown,
    }
}

impl Place {
    /// A sequence may be open.
    pub fn is_open(self) -> bool
        ensures { result ≡ is_open_place self }
    {
        match self {
            Place::Closed => false,
            Place::After { opener, addresses } => {
                opener.is_proper_beginning(usize::from(addresses))
            }
            _ => true,
        }
    }

    /// Surely in the data of a program.
    pub fn is_in_data(self) -> bool
        ensures { result ≡ is_in_data self }
    {
        matches!(self, Place::InData)
    }

    /// Surely in the four bytes of a Set Features.
    pub fn is_in_features(self) -> bool
        ensures { result ≡ is_in_features self }
    {
        matches!(self, Place::InFeatures { .. })
    }

    /// So many inputs may surely come; how long a page is isn't asked.
    pub fn takes_inputs(self, len: u32) -> bool
        ensures { result ≡ takes_inputs_at len self }
    {
        match self {
            Place::InData => true,
            Place::InFeatures { inputs } => {
                u64::from(inputs) + u64::from(len) <= FEATURE_BYTES as u64
            }
            _ => false,
        }
    }

    /// A Change Read Column Enhanced began the sequence, which selects the plane of its row.
    pub fn selects_plane(self) -> bool
        ensures { result ≡ selects_plane_at self }
    {
        matches!(
            self,
            Place::After {
                opener: Command::ChangeReadColumnEnhanced,
                ..
            }
        )
    }

    /// A command that is no opener surely goes on with the sequence.
    pub fn wants(self, command: Command) -> bool
        ensures { result ≡ place_wants command self }
    {
        match self {
            Place::After { opener, addresses } => {
                opener.closes(command) && usize::from(addresses) == opener.address_cycles()
            }
            Place::InData => is_data_command(command),
            _ => false,
        }
    }

    /// How many addresses are still to come.
    pub fn addresses_left(self) -> usize
        ensures { result ≡ addresses_left self }
    {
        match self {
            Place::After { opener, addresses } => {
                opener
                    .address_cycles()
                    .saturating_sub(usize::from(addresses))
            }
            Place::InColumn { addresses } => 2usize.saturating_sub(usize::from(addresses)),
            _ => 0,
        }
    }

    /// Which of the five address bytes is the next.
    pub fn next_address(self) -> usize
        ensures { result ≡ next_address self }
    {
        match self {
            Place::After { opener, addresses } => first_address(opener) + usize::from(addresses),
            Place::InColumn { addresses } => usize::from(addresses),
            _ => 0,
        }
    }

    /// After an opener that reads what stands beside the array, or sets it: 90h, ECh, EDh, EEh or EFh.
    pub fn takes_identity(self) -> bool
        ensures { result ≡ takes_identity_at self }
    {
        match self {
            Place::After { opener, .. } => opener.reads_identity(),
            _ => false,
        }
    }

    /// Some addresses may have come, but not all.
    pub fn is_inside_address(self) -> bool
        ensures { result ≡ is_inside_address self }
    {
        match self {
            Place::After { opener, addresses } => {
                0 < addresses && usize::from(addresses) < opener.address_cycles()
            }
            Place::InColumn { addresses } => 0 < addresses && addresses < 2,
            Place::Unknown => true,
            _ => false,
        }
    }

    /// After so many addresses more.
    pub fn after_addresses(self, count: u8) -> Place
        ensures { result ≡ address_leads_to count self }
    {
        match self {
            Place::After { opener, addresses } => {
                opener_leads_to(opener, usize::from(addresses) + usize::from(count))
            }
            Place::InColumn { addresses } => {
                column_leads_to(usize::from(addresses) + usize::from(count))
            }
            _ => self,
        }
    }

    pub fn is_same(self, other: Place) -> bool
        ensures { result ≡ same_place self other }
    {
        match (self, other) {
            (Place::Closed, Place::Closed) | (Place::InData, Place::InData) => true,
            (
                Place::After { opener, addresses },
                Place::After {
                    opener: other,
                    addresses: count,
                },
            ) => match (opener.opcode(), other.opcode()) {
                (Some(one), Some(other)) => one == other && addresses == count,
                _ => false,
            },
            (Place::InColumn { addresses }, Place::InColumn { addresses: count }) => {
                addresses == count
            }
            (Place::InFeatures { inputs }, Place::InFeatures { inputs: count }) => inputs == count,
            _ => false,
        }
    }

    // The second claims no more: it is the same place, or anywhere, or where nothing is open.
    pub(crate) fn is_within(self, other: Place) -> bool
        ensures { result ≡ is_place_within self other }
    {
        match other {
            Place::Unknown => true,
            Place::Closed => !self.is_open(),
            _ => self.is_same(other),
        }
    }

    // One place, or that nothing is open, or nothing.
    pub(crate) fn join(self, other: Place) -> Place
        ensures { result ≡ joined_place self other }
    {
        if self.is_same(other) {
            self
        } else if self.is_open() || other.is_open() {
            Place::Unknown
        } else {
            Place::Closed
        }
    }
}
