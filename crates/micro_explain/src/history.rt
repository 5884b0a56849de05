//! What words have done, in the order of the text.

use crate::command_at::{CommandAt, command_of};
use crate::loops::{Turn, turn_around};
use crate::poll_at::PollAt;
use crate::poll_word::PollWord;
use micro_word::Word;
use onfi_cycle::Command;

// So many loops are around a word at most.
const MOST_AROUND: usize = 4;

/// What words have done, in the order of the text.
#[derive(Clone, Copy)]
pub(crate) struct History {
    /// On a target with several LUNs others may have the bus after `yield`.
    several_luns: bool,
    /// The last command.
    command: Option<Command>,
    /// The last word that starts work.
    pub started: Option<usize>,
    /// The last word that starts work, where no `wait` comes after it.
    pub work: Option<usize>,
    /// The last command that leaves the register empty, where nothing has filled it since.
    pub emptied: Option<CommandAt>,
    /// Reads of planes are queued.
    reads_queued: bool,
    /// The last word that asks for the status, where the LUN shows it since.
    pub status: Option<PollAt>,
    /// Data was read since the column was given.
    read: bool,
    /// The word that lost the column, where it wasn't given since.
    pub lost: Option<PollAt>,
    /// The last word that lost the column.
    pub last_lost: Option<PollAt>,
}

// A command that starts work as it comes.
fn starts_work(command: Command) -> bool {
    leaves_no_register(command) || fills_register(command)
}

// A command that reads a page into the register.
fn fills_register(command: Command) -> bool {
    matches!(
        command,
        Command::ReadConfirm
            | Command::CopybackRead
            | Command::ReadCacheSequential
            | Command::ReadCacheEnd
    )
}

// A command whose work leaves the register empty.
fn leaves_no_register(command: Command) -> bool {
    matches!(
        command,
        Command::BlockEraseConfirm
            | Command::BlockErasePlane
            | Command::ProgramConfirm
            | Command::ProgramPlane
            | Command::ProgramCache
            | Command::ReadPlane
            | Command::Reset
            | Command::SynchronousReset
    )
}

impl History {
    // Nothing has been done.
    fn new(several_luns: bool) -> History {
        History {
            several_luns,
            command: None,
            started: None,
            work: None,
            emptied: None,
            reads_queued: false,
            status: None,
            read: false,
            lost: None,
            last_lost: None,
        }
    }

    /// What the words before a place have done.
    pub(crate) fn before(words: &[Word], at: usize, several_luns: bool) -> History {
        let mut history = History::new(several_luns);
        history.take_words(words, 0, at);
        history
    }

    /// The same, where a loop around the place has turned once more; nothing where there is none.
    pub(crate) fn turned(self, words: &[Word], at: usize) -> Option<History> {
        let mut all: Option<History> = None;
        let mut place = at;
        for _ in 0..MOST_AROUND {
            let Some(turn) = turn_around(words, place) else {
                return all;
            };
            let turned = self.after_turn(words, at, turn);
            all = match all {
                None => Some(turned),
                Some(inner) => Some(inner.or(turned)),
            };
            place = turn.head.saturating_sub(1);
        }
        all
    }

    // The same, where a loop has turned once more.
    fn after_turn(self, words: &[Word], at: usize, turn: Turn) -> History {
        let mut history = self;
        history.take_words(words, at, turn.next);
        history.take_words(words, turn.head, at);
        history
    }

    /// What the one tells, and else the other.
    pub(crate) fn or(self, other: History) -> History {
        History {
            started: self.started.or(other.started),
            work: self.work.or(other.work),
            emptied: self.emptied.or(other.emptied),
            status: self.status.or(other.status),
            lost: self.lost.or(other.lost),
            last_lost: self.last_lost.or(other.last_lost),
            ..self
        }
    }

    // The words from one place to another.
    fn take_words(&mut self, words: &[Word], from: usize, to: usize) {
        for (place, word) in words.iter().enumerate() {
            if from <= place && place < to {
                self.take(place, *word);
            }
        }
    }

    // One word more.
    fn take(&mut self, place: usize, word: Word) {
        match word {
            Word::Command { .. } => self.take_command(place, word),
            Word::Address { from, count } => self.take_address(place, from, count),
            Word::Put { .. } => self.take_inputs(place),
            Word::Get { .. } => self.read = self.read || self.status.is_none(),
            Word::Wait => {
                self.work = None;
                self.poll(PollAt {
                    poll: PollWord::Wait,
                    word: place,
                });
            }
            Word::ReadStatus => self.poll(PollAt {
                poll: PollWord::Stat,
                word: place,
            }),
            Word::Yield => self.hand_over(place),
            Word::End { .. }
            | Word::Seek { .. }
            | Word::Column { .. }
            | Word::RowAdd { .. }
            | Word::Row { .. }
            | Word::Plane { .. }
            | Word::BranchOnStatus { .. }
            | Word::Loop { .. }
            | Word::Next
            | Word::Jump { .. } => {}
        }
    }

    // The status is asked for.
    fn poll(&mut self, poll: PollAt) {
        self.lose(poll);
        self.status = Some(poll);
    }

    // The column is lost, where data was read.
    fn lose(&mut self, poll: PollAt) {
        if self.read && self.lost.is_none() {
            self.lost = Some(poll);
            self.last_lost = Some(poll);
        }
    }

    // Others may have the bus.
    fn hand_over(&mut self, place: usize) {
        if self.several_luns {
            self.lose(PollAt {
                poll: PollWord::Yield,
                word: place,
            });
        }
    }

    // The column is given.
    fn give_column(&mut self) {
        self.read = false;
        self.lost = None;
    }

    // Work starts.
    fn start(&mut self, place: usize) {
        self.started = Some(place);
        self.work = Some(place);
    }

    // The register is filled, and shown.
    fn fill(&mut self) {
        self.emptied = None;
        self.status = None;
        self.give_column();
    }

    // A command comes.
    fn take_command(&mut self, place: usize, word: Word) {
        let Some(command) = command_of(word) else {
            return;
        };
        let selects_plane = self.command == Some(Command::ChangeReadColumnEnhanced);
        self.command = Some(command);
        if starts_work(command) {
            self.start(place);
        }
        if fills_register(command) {
            self.fill();
        }
        if self.leaves_empty(command) {
            self.emptied = Some(CommandAt {
                command,
                word: Some(place),
            });
        } else if command == Command::Read {
            self.status = None;
        } else if command == Command::ChangeReadColumnConfirm && selects_plane {
            self.fill();
        } else if command == Command::ChangeReadColumnConfirm {
            self.give_column();
        }
        self.queue_reads(command);
    }

    // The command leaves the register empty: its work does, or it reads several planes, of which none is selected.
    fn leaves_empty(&self, command: Command) -> bool {
        leaves_no_register(command)
            || matches!(command, Command::ReadConfirm | Command::CopybackRead) && self.reads_queued
    }

    // A read of a plane is queued, up to the next work.
    fn queue_reads(&mut self, command: Command) {
        if command == Command::ReadPlane {
            self.reads_queued = true;
        } else if starts_work(command) {
            self.reads_queued = false;
        }
    }

    // Work starts that leaves the register empty, by a command whose addresses or inputs come.
    fn start_later(&mut self, command: Command, place: usize) {
        self.start(place);
        self.emptied = Some(CommandAt {
            command,
            word: None,
        });
    }

    // Addresses come: that of an opener that reads what stands beside the array starts work, but for Read ID, and the last of Reset LUN.
    fn take_address(&mut self, place: usize, from: u8, count: u8) {
        match self.command {
            Some(Command::ReadId) => self.fill(),
            Some(Command::ReadParameterPage | Command::ReadUniqueId | Command::GetFeatures) => {
                self.fill();
                self.start(place);
            }
            Some(Command::ResetLun) if u32::from(from) + u32::from(count) >= 5 => {
                self.start_later(Command::ResetLun, place);
            }
            _ => {}
        }
    }

    // Inputs come: those of Set Features start work.
    fn take_inputs(&mut self, place: usize) {
        if self.command == Some(Command::SetFeatures) {
            self.start_later(Command::SetFeatures, place);
        }
    }
}

/// The last word before a place that asks for the status, where the LUN shows it since: in the order of the text, and else in the turn before
/// of a loop around the place.
pub fn status_shown_by(words: &[Word], at: usize, several_luns: bool) -> Option<PollAt> {
    let history = History::before(words, at, several_luns);
    match history.turned(words, at) {
        None => history.status,
        Some(turned) => history.or(turned).status,
    }
}
