//! What is wrong with a dump.
ghost use Rattle.std.specs.Prelude.{◌≡◌};
ghost use Rattle.vcd_text.specs.Codes.{code};
ghost use Rattle.vcd_text.specs.Header.{is_unended};

use thiserror::Error;

/// What is wrong with a line of a dump: of a value change dump, or of a CSV (G9).
#[derive(Clone, Copy, Debug, PartialEq, Eq, Error)]
pub enum DumpFault {
    /// G1: no section of a header has this name.
    #[error("no section of a header begins so")]
    UnknownSection,
    /// G1: the file ends within a section.
    #[error("the file ends before the $end of a section")]
    SectionNotEnded,
    /// G1: the file ends before `$enddefinitions`.
    #[error("the file ends before $enddefinitions")]
    HeaderNotEnded,
    /// G1: the timescale isn't 1, 10 or 100 of s, ms, us, ns, ps or fs.
    #[error("a timescale is 1, 10 or 100 of s, ms, us, ns, ps or fs")]
    BadTimescale,
    /// G2: the section `$var` hasn't a kind, a width from 1 to 65,536, a code of at most eight characters, a name, and perhaps a range.
    #[error("$var wants a kind, a width from 1 to 65536, a code of 1 to 8 characters, a name and perhaps a range")]
    BadVariable,
    /// G2: the code is declared with another width.
    #[error("the code was declared with another width")]
    TwoWidths,
    /// G4: the time isn't a decimal number of at most 19 digits.
    #[error("a time is a decimal number of at most 19 digits")]
    BadTime,
    /// G4: the time is before the last one.
    #[error("the time goes back")]
    TimeGoesBack,
    /// G4: a vector has no bits, or one that isn't 0, 1, x or z.
    #[error("a vector is b and its bits, each 0, 1, x or z")]
    BadVector,
    /// G4: the file ends before the code of a value.
    #[error("the file ends before the code of this value")]
    NoCode,
    /// G4: the code isn't declared.
    #[error("the code isn't declared")]
    NotDeclared,
    /// G4: the vector has more bits than its code.
    #[error("the vector has more bits than its code was declared with")]
    VectorTooLong,
    /// G4: the word is no time, no change and no mark.
    #[error("this is no time, no change of a value and no mark")]
    UnknownChange,
    /// G9: the first row of a CSV has values, or there is no row.
    #[error("the first row of a CSV has to name its columns, as CE0,CLE,ALE")]
    NoColumnNames,
    /// G9: the row hasn't a field for each column.
    #[error("the row has another number of fields than the row of names")]
    OtherFieldCount,
    /// G9: the time isn't a number of its form.
    #[error("a time is a decimal number without a sign: of seconds with a point, below 18446744, or of a unit of its own without one, of at most 19 digits")]
    BadRowTime,
    /// G9: the time is before that of the row above.
    #[error("the time is before that of the row above")]
    RowGoesBack,
    /// G9: a signal is something else.
    #[error("a signal is 0, 1, x or z, or its field is empty")]
    BadSignal,
}

impl DumpFault {
    /// The text ended within the header: more of it may be all that is wanting.
    pub fn is_unended(self) -> bool
        ensures { result ≡ is_unended self }
    {
        match self {
            DumpFault::SectionNotEnded | DumpFault::HeaderNotEnded => true,
            DumpFault::UnknownSection
            | DumpFault::BadTimescale
            | DumpFault::BadVariable
            | DumpFault::TwoWidths
            | DumpFault::BadTime
            | DumpFault::TimeGoesBack
            | DumpFault::BadVector
            | DumpFault::NoCode
            | DumpFault::NotDeclared
            | DumpFault::VectorTooLong
            | DumpFault::UnknownChange
            | DumpFault::NoColumnNames
            | DumpFault::OtherFieldCount
            | DumpFault::BadRowTime
            | DumpFault::RowGoesBack
            | DumpFault::BadSignal => false,
        }
    }

    /// Its code: G1 where the header isn't whole, G2 of a variable, G4 of the changes, G9 in a CSV.
    pub fn code(self) -> &'static str
        ensures { result.now ≡ code self }
    {
        match self {
            DumpFault::UnknownSection
            | DumpFault::SectionNotEnded
            | DumpFault::HeaderNotEnded
            | DumpFault::BadTimescale => "G1",
            DumpFault::BadVariable | DumpFault::TwoWidths => "G2",
            DumpFault::BadTime
            | DumpFault::TimeGoesBack
            | DumpFault::BadVector
            | DumpFault::NoCode
            | DumpFault::NotDeclared
            | DumpFault::VectorTooLong
            | DumpFault::UnknownChange => "G4",
            DumpFault::NoColumnNames
            | DumpFault::OtherFieldCount
            | DumpFault::BadRowTime
            | DumpFault::RowGoesBack
            | DumpFault::BadSignal => "G9",
        }
    }
}

/// A fault of a dump, and the number of its line, from 1.
#[derive(Clone, Copy, Debug, PartialEq, Eq, Error)]
#[error("line {line}: {fault}")]
pub struct LineFault {
    pub fault: DumpFault,
    pub line: usize,
}

/// Why the header of a dump isn't read.
#[derive(Clone, Copy, Debug, PartialEq, Eq, Error)]
pub enum HeaderRefusal {
    #[error("{0}")]
    Fault(LineFault),
    #[error("out of memory")]
    OutOfMemory,
}
