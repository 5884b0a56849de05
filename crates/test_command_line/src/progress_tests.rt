// What is said of how far a command has come, on a made terminal and where there is none.
use crate::once_tests::{ERASE, none_is_wrong, owned};
use nand_geometry::{Geometry, SMALL_CHIP};
use seq_cli::{TerminalProgress, answer_watched};
use seq_files::MapFiles;
use seq_inputs::Console;
use seq_run::{NoClock, Phase, RunProgress};
use std::alloc::Global;
use std::io::{self, IsTerminal, Write, sink};
use std::process::Abort;
use std::sync::Wait;
use std::test::Fail;
use std::thread::Threads;
use trace_text::CheckProgress;

// Keeps what is written on it, as a terminal or as none.
#[derive(Drop)]
struct Made<'a> {
    is_terminal: bool,
    written: &'a mut Vec<u8>,
}

impl Write for Made<'_> {
    fn write(&mut self, buf: &[u8]) -> io::Result<usize> {
        self.written.extend_from_slice(buf)?;
        Ok(buf.len())
    }

    fn flush(&mut self) -> io::Result<()> {
        Ok(())
    }
}

impl IsTerminal for Made<'_> {
    fn is_terminal(&self) -> bool {
        self.is_terminal
    }
}

// What is said of a check and of a run.
fn say_all(alloc: Global, is_terminal: bool) -> Vec<u8> {
    let mut written = Vec::new(alloc);
    let mut progress = TerminalProgress::new(Made {
        is_terminal,
        written: &mut written,
    });
    progress.checked(1_000_000);
    progress.checked(2_000_000);
    progress.begin(Phase::Reading);
    progress.begin(Phase::Running { jobs: 2 });
    progress.begin(Phase::Writing);
    written
}

const SHOWN: &[u8] =
    b"1000000 items checked\n2000000 items checked\nreading\nrunning 2 jobs\nwriting\n";

#[test]
fn what_a_terminal_shows(rt: HostRuntime) {
    let shown = say_all(rt.alloc(), true);
    let nothing = say_all(rt.alloc(), false);
    assert!(rt; shown.as_slice() == SHOWN && nothing.is_empty());
}

// The page of one LUN of 8 blocks of 4 pages, an erase, and a run file with it.
fn make_files(alloc: Global) -> Result<MapFiles, Fail> {
    let page = Geometry::of(SMALL_CHIP)?.page();
    let mut files = MapFiles::new(alloc);
    files.put("page", &page)?;
    files.put("erase", &ERASE)?;
    files.put("run", b"page page\ntargets 1\njob 0 0 0 erase - -\n")?;
    Ok(files)
}

// The status of these words with an erase on standard input, and what is said of how far they have come.
fn follow<R: Threads + Wait + Sync + AllocGlobal>(
    rt: &R,
    words: Vec<String>,
    files: &mut MapFiles,
    is_terminal: bool,
) -> (u8, Vec<u8>) {
    let mut written = Vec::new(rt.alloc());
    let mut console = Console {
        output: sink(),
        errors: sink(),
        progress: TerminalProgress::new(Made {
            is_terminal,
            written: &mut written,
        }),
    };
    let exit = answer_watched(
        rt,
        &NoClock,
        rt.alloc(),
        Ok(words),
        files,
        &mut ERASE.as_slice(),
        &mut console,
    );
    drop(console);
    (exit.status(), written)
}

// Words, whether they are followed on a terminal, and what is said there; each ends with status 0.
type Followed = (&'static [&'static str], bool, &'static [u8]);

const FOLLOWED: &[Followed] = &[
    (
        &["onfiseq", "run", "run"],
        true,
        b"reading\nrunning 1 job\nwriting\n",
    ),
    (&["onfiseq", "run", "run"], false, b""),
    (
        &["onfiseq", "once"],
        true,
        b"reading\nrunning 1 job\nwriting\n",
    ),
    (&["onfiseq", "once"], false, b""),
    // Other commands take no time worth telling.
    (&["onfiseq", "dis", "erase"], true, b""),
];

// Whether this is said of words.
fn is_said<R: Threads + Wait + Sync + AllocGlobal>(
    rt: &R,
    (words, is_terminal, said): Followed,
) -> Result<bool, Fail> {
    let words = owned(rt.alloc(), words)?;
    let mut files = make_files(rt.alloc())?;
    let (status, written) = follow(rt, words, &mut files, is_terminal);
    Ok(status == 0 && written.as_slice() == said)
}

// The place of the first of the words of which something else is said.
fn first_other<R: Threads + Wait + Sync + AllocGlobal>(rt: &R) -> Result<Option<usize>, Fail> {
    for (place, row) in FOLLOWED.iter().enumerate() {
        if !is_said(rt, *row)? {
            return Ok(Some(place));
        }
    }
    Ok(None)
}

#[test]
fn what_a_run_and_once_show(rt: HostRuntime) -> Result<(), Fail> {
    none_is_wrong(first_other(&rt)?)
}
