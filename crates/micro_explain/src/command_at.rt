//! A command with the word that gives it.

use micro_word::Word;
use onfi_cycle::Command;
use std::fmt;

/// A command, and the word that gives it, where that can be told.
#[derive(Clone, Copy, Debug, PartialEq, Eq)]
pub struct CommandAt {
    pub command: Command,
    pub word: Option<usize>,
}

impl CommandAt {
    /// The command by the last word that gives it before a place; where none does, the last of the text, from which a loop leads back.
    pub(crate) fn last_before(words: &[Word], at: usize, command: Command) -> CommandAt {
        CommandAt {
            command,
            word: last_of(words, at, command).or(last_of(words, words.len(), command)),
        }
    }
}

impl fmt::Display for CommandAt {
    fn fmt<W: fmt::Write>(&self, f: &mut fmt::Formatter<W>) -> fmt::Result {
        let byte = self.command.opcode().unwrap_or(0);
        match self.word {
            Some(word) => write!(f, "`cmd {byte:02x}` (word {word})"),
            None => write!(f, "`cmd {byte:02x}`"),
        }
    }
}

/// The command that a word gives.
pub fn command_of(word: Word) -> Option<Command> {
    match word {
        Word::Command { byte } => Some(Command::of(byte)),
        _ => None,
    }
}

// The last of the first so many words that gives a command.
fn last_of(words: &[Word], count: usize, command: Command) -> Option<usize> {
    let mut last = None;
    for (place, word) in words.iter().enumerate() {
        if place < count && command_of(*word) == Some(command) {
            last = Some(place);
        }
    }
    last
}
