//! What is wrong with a vendor file.
ghost use Rattle.std.specs.Prelude.{◌≡◌};
ghost use Rattle.vendor_file.specs.Codes.{vendor_code};

use thiserror::Error;

/// What is wrong with a line of a vendor file. Of several the first of this list is told.
#[derive(Clone, Copy, Debug, PartialEq, Eq, Error)]
pub enum VendorFault {
    /// N1: the line isn't a command and steps.
    #[error("the line isn't a command and the steps after it")]
    BadForm,
    /// N2: its first command is one of the profile's.
    #[error("the first command is one of the profile's, so it has a meaning already")]
    KnownCommand,
    /// N3: a line before it begins with the same command.
    #[error("a line before it begins with the same command")]
    Twice,
}

impl VendorFault {
    /// Its code, `N1` to `N3`.
    pub fn code(self) -> &'static str
        ensures { result.now ≡ vendor_code self }
    {
        match self {
            VendorFault::BadForm => "N1",
            VendorFault::KnownCommand => "N2",
            VendorFault::Twice => "N3",
        }
    }
}

/// A fault of a vendor file and the number of its line, from 1.
#[derive(Clone, Copy, Debug, PartialEq, Eq, Error)]
#[error("line {line}: {fault}")]
pub struct VendorFileFault {
    pub fault: VendorFault,
    pub line: usize,
}

/// Why a vendor file isn't read.
#[derive(Clone, Copy, Debug, PartialEq, Eq, Error)]
pub enum VendorRefusal {
    #[error("{0}")]
    Fault(VendorFileFault),
    #[error("out of memory")]
    OutOfMemory,
}
