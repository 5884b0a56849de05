//! Of which work a line `polls` speaks.
ghost use Rattle.std.specs.Prelude.{◌≡◌};
ghost use Rattle.run_file.specs.Told.{is_same_work};

/// Of which work a line `polls` speaks.
#[derive(Clone, Copy, Debug, PartialEq, Eq)]
pub enum Polled {
    /// Each of which no other line speaks: `polls N`.
    Each,
    /// The reads of every LUN: `polls read N`.
    Reads,
    /// The programs of every LUN: `polls program N`.
    Programs,
    /// The erases of every LUN: `polls erase N`.
    Erases,
    /// All work of one LUN: `polls lun CE LUN N`.
    Lun { target: u32, lun: u32 },
}

impl Polled {
    /// Whether both are the same work.
    pub(crate) fn is_same(self, other: Polled) -> bool
        ensures { result ≡ is_same_work self other }
    {
        match self {
            Polled::Each => matches!(other, Polled::Each),
            Polled::Reads => matches!(other, Polled::Reads),
            Polled::Programs => matches!(other, Polled::Programs),
            Polled::Erases => matches!(other, Polled::Erases),
            Polled::Lun { target, lun } => other.is_of(target, lun),
        }
    }

    // The work of this LUN.
    fn is_of(self, on_target: u32, on_lun: u32) -> bool
        ensures { result ≡ is_same_work (Polled.Lun on_target on_lun) self }
    {
        match self {
            Polled::Lun { target, lun } => on_target == target && on_lun == lun,
            Polled::Each | Polled::Reads | Polled::Programs | Polled::Erases => false,
        }
    }
}
