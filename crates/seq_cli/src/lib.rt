//! What the program `onfiseq` does: it verifies microprograms of NAND flash, and runs them on a modelled channel.
//!
//! [`answer`] is the whole program, given its words, its files and its three streams; [`command_on`] does a [`Command`]. Statuses: 0 done; 1 refused, as
//! standard output says, and standard error in words; 2 a file or a stream couldn't be read or written; 3 the command line couldn't be read; 4 out of
//! memory.
#![tactic(auto)]

mod answering;
mod choices;
mod command;
mod command_line;
mod data_reading;
mod declarations;
mod declared;
mod form;
mod lent_progress;
mod mistake;
mod named_command;
mod named_lines;
mod ops_reading;
mod progress;
mod times_reading;

pub use answering::{answer, answer_watched};
pub use command::{Command, command_on};
pub use command_line::parse;
pub use data_reading::DataMistake;
pub use mistake::{Mistake, PathMistake};
pub use ops_reading::OpsMistake;
pub use progress::TerminalProgress;
pub use times_reading::TimingMistake;
