//! What is wrong with the signals of a capture.

use crate::role::Role;
use std::fmt;
use thiserror::Error;

impl fmt::Display for Role {
    fn fmt<W: fmt::Write>(&self, f: &mut fmt::Formatter<W>) -> fmt::Result {
        match *self {
            Role::Enable(number) => write!(f, "CE{number}"),
            Role::Cle => write!(f, "CLE"),
            Role::Ale => write!(f, "ALE"),
            Role::We => write!(f, "WE"),
            Role::Re => write!(f, "RE"),
            Role::Dq(bit) => write!(f, "DQ{bit}"),
            Role::ReadyBusy(number) => write!(f, "RB{number}"),
            Role::Busy { ce, lun } => write!(f, "busy{ce}_{lun}"),
            Role::ArrayBusy { ce, lun } => write!(f, "array{ce}_{lun}"),
            Role::Failed { ce, lun } => write!(f, "fail{ce}_{lun}"),
        }
    }
}

/// G3: a line has no signal, or two.
#[derive(Clone, Copy, Debug, PartialEq, Eq, Error)]
pub enum RoleFault {
    #[error("no signal is {0} by its name: say which one it is by --map {0}=NAME")]
    Missing(Role),
    #[error("two signals are {0} by their names: say which one it is by --map {0}=NAME")]
    Twice(Role),
}

/// Why the lines of a bus aren't found.
#[derive(Clone, Copy, Debug, PartialEq, Eq, Error)]
pub enum RoleRefusal {
    #[error("{0}")]
    Fault(RoleFault),
    #[error("out of memory")]
    OutOfMemory,
}
