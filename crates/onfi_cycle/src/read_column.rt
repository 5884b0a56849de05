//! Where the next data output of a LUN reads its register.
ghost use Rattle.std.specs.Prelude.{◌≡◌, ◌^◌, ◌<◌, Some, None, false};
ghost use Rattle.onfi_cycle.specs.Lun.{output_column};

/// Where the next data output of a LUN reads its register.
#[derive(Clone, Copy, Debug, PartialEq, Eq)]
pub struct ReadColumn {
    /// The column last given, if one was.
    pub given: Option<u32>,
    /// The data outputs since.
    pub outputs: usize,
    /// A status command has followed one of these outputs.
    pub lost: bool,
}

impl ReadColumn {
    /// No column is given.
    pub fn none() -> ReadColumn
        ensures { result ≡ record { given = None; outputs = 0; lost = false } }
    {
        ReadColumn {
            given: None,
            outputs: 0,
            lost: false,
        }
    }

    /// A column that was just given.
    pub fn given(column: u32) -> ReadColumn
        ensures { result ≡ record { given = Some column; outputs = 0; lost = false } }
    {
        ReadColumn {
            given: Some(column),
            outputs: 0,
            lost: false,
        }
    }

    /// The column of the next data output. None: no address gave one, or it was lost.
    pub fn output_column(self) -> Option<u64>
        requires { self.outputs < 2 ^ 63 }
        ensures { result ≡ output_column self }
    {
        if self.lost {
            return None;
        }
        match self.given {
            None => None,
            Some(column) => Some(u64::from(column) + self.outputs as u64),
        }
    }
}
