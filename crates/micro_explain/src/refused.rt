//! A refused word, with what is known before it.

use crate::command_at::{CommandAt, command_of};
use crate::history::History;
use crate::open::Open;
use micro_claims::{Bounds, Place, State};
use micro_word::Word;
use nand_geometry::Geometry;
use onfi_cycle::{Command, is_undeclared};

/// A refused word, with what is known before it.
#[derive(Clone, Copy)]
pub(crate) struct Refused<'a> {
    pub words: &'a [Word],
    /// Its place.
    pub at: usize,
    pub word: Word,
    pub geometry: &'a Geometry,
    pub bounds: Bounds,
    pub state: &'a State,
    /// What the words before it have done.
    pub history: History,
    /// The same after one more turn of the loop around it.
    pub turned: Option<History>,
}

// The command that opened the sequence of a place, or the change of the write column in it.
fn command_of_place(place: Place) -> Option<Command> {
    match place {
        Place::Closed | Place::Unknown => None,
        Place::After { opener, .. } => Some(opener),
        Place::InData => Some(Command::PageProgram),
        Place::InColumn { .. } => Some(Command::ChangeWriteColumn),
        Place::InFeatures { .. } => Some(Command::SetFeatures),
    }
}

// The word that began the data before a place: the last `cmd 80`, or a `cmd 85` that comes in no data.
fn data_begun_by(words: &[Word], at: usize) -> CommandAt {
    let mut begun = CommandAt::last_before(words, at, Command::PageProgram);
    let mut in_data = false;
    for (place, word) in words.iter().enumerate() {
        if let Some(command) = command_of(*word) {
            let begins = command == Command::PageProgram
                || command == Command::ChangeWriteColumn && !in_data;
            if place < at && begins {
                begun = CommandAt {
                    command,
                    word: Some(place),
                };
            }
            in_data = begins || command == Command::ChangeWriteColumn;
        }
    }
    begun
}

impl Refused<'_> {
    /// What the words before it have done, and else what they have done after one more turn.
    pub(crate) fn whole_history(&self) -> History {
        match self.turned {
            None => self.history,
            Some(turned) => self.history.or(turned),
        }
    }

    /// The command by the last word that gives it.
    pub(crate) fn last(&self, command: Command) -> CommandAt {
        CommandAt::last_before(self.words, self.at, command)
    }

    // The word that opened the sequence of a command: data may have begun by `cmd 80` or, for a copy, by `cmd 85`.
    fn begun_by(&self, command: Command) -> CommandAt {
        if command == Command::PageProgram {
            data_begun_by(self.words, self.at)
        } else {
            self.last(command)
        }
    }

    /// What is open.
    pub(crate) fn open(&self) -> Open {
        let place = self.state.target.tail;
        Open {
            place,
            command: match command_of_place(place) {
                None => None,
                Some(command) => Some(self.begun_by(command)),
            },
            multi_plane: self.geometry.parts().multi_plane,
            reads_cache_at_rows: self.is_wide() && self.geometry.parts().cache,
            reads_planes: !is_undeclared(self.geometry, Command::ReadPlane),
            copies_pages: self.copies_pages(),
            programs_cache: !is_undeclared(self.geometry, Command::ProgramCache),
        }
    }

    /// The chip is read as one of the wider profile.
    pub(crate) fn is_wide(&self) -> bool {
        self.geometry.parts().optional.is_wide()
    }

    /// The chip copies pages.
    pub(crate) fn copies_pages(&self) -> bool {
        self.geometry.parts().optional.has_copyback()
    }

    /// The target has several LUNs.
    pub(crate) fn has_several_luns(&self) -> bool {
        self.geometry.parts().luns > 1
    }

    /// The LUN surely drives alone.
    pub(crate) fn drives(&self) -> bool {
        self.state.target.shows.is_some()
    }

    /// The cache read that goes on.
    pub(crate) fn cache_read(&self) -> CommandAt {
        self.last(Command::ReadCacheSequential)
    }
}
