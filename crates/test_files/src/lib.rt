//! Files and streams of a command, how text is shown, and what is said of texts that are refused where no command shows it. Only tests stand here.
#![tactic(auto)]

#[cfg(test)]
mod asm_messages;
#[cfg(test)]
mod converting_tests;
#[cfg(test)]
mod file_tests;
#[cfg(test)]
mod run_messages;
#[cfg(test)]
mod shown_tests;
