//! The command line, with files and streams in memory: what each of its words asks for, streams that fail, and how far a command tells that it
//! has come. What a whole command prints and refuses is in `tools/cases`. Only tests stand here.
#![tactic(auto)]

#[cfg(test)]
mod answer_tests;
#[cfg(test)]
mod command_line_tests;
#[cfg(test)]
mod once_tests;
#[cfg(test)]
mod progress_tests;
