//! The names of operations.
ghost use Rattle.std.specs.Prelude.{◌≡◌};
ghost use Rattle.trace_ops.specs.Operation.{is_folded};

use crate::operation::{Beginning, Operation};
use std::fmt;

/// The name of an operation, one word: that of ONFI's command, by its opener and its closer.
#[derive(Clone, Copy, Debug, PartialEq, Eq)]
pub enum OperationName {
    Known(&'static str),
    /// An opener that has no name here.
    Unknown(u8),
}

impl fmt::Display for OperationName {
    fn fmt<W: fmt::Write>(&self, f: &mut fmt::Formatter<W>) -> fmt::Result {
        match self {
            OperationName::Known(name) => f.pad(name),
            OperationName::Unknown(byte) => write!(f, "unknown-{byte:02x}"),
        }
    }
}

// The name of what begins with 00h.
fn name_of_read(operation: Operation) -> &'static str {
    match operation.closer {
        Some(0x31) => "read-cache-random",
        Some(0x32) => "read-plane",
        Some(0x35) => "copyback-read",
        Some(_) => "read",
        None if operation.is_alone() => "resume",
        None => "read",
    }
}

// The name of what begins with 60h, 80h or 85h.
fn name_of_change(opener: u8, closer: Option<u8>) -> &'static str {
    match (opener, closer) {
        (0x60, Some(0xd1)) => "erase-plane",
        (0x60, _) => "erase",
        (0x80, Some(0x11)) => "program-plane",
        (0x80, Some(0x15)) => "program-cache",
        (0x80, _) => "program",
        (_, _) => "copyback-program",
    }
}

// The name of an opener that decides alone.
fn name_of_opener(opener: u8) -> Option<&'static str> {
    Some(match opener {
        0x05 => "column",
        0x06 => "column-enhanced",
        0x31 => "read-cache",
        0x3f => "read-cache-end",
        0x70 | 0x78 => "status",
        0x90 => "id",
        0xec => "parameters",
        0xed => "unique-id",
        0xee => "get-features",
        0xef => "set-features",
        0xfa => "reset-lun",
        0xfc => "synchronous-reset",
        0xff => "reset",
        0xd4 => "lun-get-features",
        0xd5 => "lun-set-features",
        0xd9 => "zq-short",
        0xf9 => "zq-long",
        0xe1 => "volume-select",
        0xe2 => "odt-configure",
        _ => return None,
    })
}

impl Operation {
    /// Its name.
    pub fn name(self) -> OperationName {
        match self.beginning {
            Beginning::Cut => OperationName::Known("cut"),
            Beginning::Ready => OperationName::Known("ready"),
            Beginning::Opener(0x00) => OperationName::Known(name_of_read(self)),
            Beginning::Opener(opener @ (0x60 | 0x80 | 0x85)) => {
                OperationName::Known(name_of_change(opener, self.closer))
            }
            Beginning::Opener(opener) => match name_of_opener(opener) {
                Some(name) => OperationName::Known(name),
                None => OperationName::Unknown(opener),
            },
        }
    }

    /// It is a part of another operation, and nothing in it is a fault: a poll, or a return to the data, which begins no work and has no other command.
    pub fn is_folded(self) -> bool
        ensures { result ≡ is_folded self }
    {
        let does_more = self.start.is_some() || self.closer.is_some();
        self.parent.is_some() && self.is_clean && !does_more
    }
}
