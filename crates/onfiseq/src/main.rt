//! The program `onfiseq`: its words, its files, its clock and its streams are handed to [`seq_cli::answer_watched`], which does the rest.
#![tactic(auto)]

use seq_cli::{TerminalProgress, answer_watched};
use seq_inputs::Console;
use std::env;
use std::io::{self, Input};
use std::process::ExitCode;
use system_files::RealFiles;

// The words of the command line, if each is UTF-8.
fn words_given(rt: &HostRuntime) -> io::Result<Vec<String>> {
    Ok(env::args(rt)?.collect(rt.alloc())?)
}

fn main(rt: HostRuntime) -> ExitCode {
    let mut console = Console {
        output: rt.stdout(),
        errors: rt.stderr(),
        progress: TerminalProgress::new(rt.stderr()),
    };
    let exit = answer_watched(
        &rt,
        &rt,
        rt.alloc(),
        words_given(&rt),
        &mut RealFiles::new(&rt, rt.alloc()),
        &mut rt.reader(),
        &mut console,
    );
    ExitCode::from(exit.status())
}
