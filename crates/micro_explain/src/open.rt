//! The sequence that is open.

use crate::command_at::CommandAt;
use crate::wanted::Wanted;
use micro_claims::Place;
use std::fmt;

/// What is open on the target before a word.
#[derive(Clone, Copy)]
pub struct Open {
    pub place: Place,
    /// The command that opened it, or the change of the write column in it.
    pub command: Option<CommandAt>,
    /// Operations of several planes are declared.
    pub multi_plane: bool,
    /// A cache read may go on at any row.
    pub reads_cache_at_rows: bool,
    /// Reads of several planes are declared.
    pub reads_planes: bool,
    /// Copybacks are declared.
    pub copies_pages: bool,
    /// Cache programs are declared.
    pub programs_cache: bool,
}

impl fmt::Display for Open {
    fn fmt<W: fmt::Write>(&self, f: &mut fmt::Formatter<W>) -> fmt::Result {
        let wanted = Wanted {
            place: self.place,
            multi_plane: self.multi_plane,
            reads_cache_at_rows: self.reads_cache_at_rows,
            reads_planes: self.reads_planes,
            copies_pages: self.copies_pages,
            programs_cache: self.programs_cache,
        };
        match (self.place, self.command) {
            (Place::Closed, _) => f.write_str("no sequence is open"),
            (Place::Unknown, _) | (_, None) => {
                f.write_str("ways meet here, and on some of them a sequence is open")
            }
            (
                Place::After { .. }
                | Place::InData
                | Place::InColumn { .. }
                | Place::InFeatures { .. },
                Some(command),
            ) => write!(f, "{command} is open and wants {wanted} next"),
        }
    }
}
