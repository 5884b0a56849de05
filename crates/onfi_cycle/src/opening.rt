//! The beginning of a tail.
ghost use Rattle.std.specs.Prelude.{◌≡◌, ◌+◌, ◌-◌, ◌<◌, ◌^◌, ◌&&◌, ◌==◌, nat_lt};
ghost use Rattle.onfi_cycle.specs.Command.{is_opener, address_cycles, takes_address, closes, at_last_row, begins_data, is_page_program, is_write_column, is_set_features};
ghost use Rattle.onfi_cycle.specs.Sequence.{is_proper_beginning};

use crate::Command;

/// An opener with its address cycles, and nothing else after it.
#[derive(Clone, Copy, Debug, PartialEq, Eq)]
pub struct Opening {
    pub opener: Command,
    /// How many address cycles have come.
    pub addresses: usize,
}

impl Opening {
    /// The opener has just come.
    pub(crate) fn of(opener: Command) -> Opening
        ensures { result ≡ record { opener = opener; addresses = 0 } }
    {
        Opening {
            opener,
            addresses: 0,
        }
    }

    /// One address cycle more.
    pub(crate) fn with_address(self) -> Opening
        requires { self.addresses < 2 ^ 64 - 1 }
        ensures { result ≡ record self { addresses = self.addresses + 1 } }
    {
        Opening {
            opener: self.opener,
            addresses: self.addresses + 1,
        }
    }

    /// The opener wants this address next.
    pub(crate) fn wants_address(self, byte: u8) -> bool
        ensures { result ≡ (is_opener self.opener && nat_lt self.addresses (address_cycles self.opener) && takes_address self.opener byte) }
    {
        self.opener.is_opener()
            && self.addresses < self.opener.address_cycles()
            && self.opener.takes_address(byte)
    }

    /// All addresses have come, and this command closes it.
    pub(crate) fn is_closed_by(self, command: Command) -> bool
        ensures { result ≡ (closes self.opener command && self.addresses == address_cycles self.opener) }
    {
        self.opener.closes(command) && self.addresses == self.opener.address_cycles()
    }

    /// The next address is the last of a row.
    pub(crate) fn is_at_last_row(self) -> bool
        ensures { result ≡ at_last_row self.opener self.addresses }
    {
        self.opener.at_last_row(self.addresses)
    }

    /// The next address is the one of a Set Features.
    pub(crate) fn names_feature(self) -> bool
        ensures { result ≡ (is_set_features self.opener && self.addresses == 0) }
    {
        self.opener == Command::SetFeatures && self.addresses == 0
    }

    /// The next address is the last of the row of a program, behind which its data come.
    pub(crate) fn ends_data_row(self) -> bool
        ensures { result ≡ (begins_data self.opener && self.addresses == 4) }
    {
        self.opener.begins_data() && self.addresses == 4
    }

    /// The next address is the last of the row of a Page Program.
    pub(crate) fn ends_program_row(self) -> bool
        ensures { result ≡ (is_page_program self.opener && self.addresses == 4) }
    {
        self.opener == Command::PageProgram && self.addresses == 4
    }

    /// The next address is the last of the row of a Copyback Program.
    pub(crate) fn ends_copyback_row(self) -> bool
        ensures { result ≡ (is_write_column self.opener && self.addresses == 4) }
    {
        self.opener == Command::ChangeWriteColumn && self.addresses == 4
    }
}
