use crate::command::Command;
use nand_geometry::{Geometry, Parts, Profile, SMALL_CHIP};
use program_commands::VerifyRequest;
use recording::{CheckRequest, Ending, Targets, TraceRequest};
use seq_files::MapFiles;
use seq_inputs::{Console, Exit, Fault, PageFile, Refusal, Style};
use std::alloc::Global;
use std::test::Fail;
use trace_faults::{Beginning, Readies};
use trace_files::TraceOutputs;
use trace_text::{NoProgress, TraceForm};

// One LUN of 8 blocks of 4 pages of 512 + 16 bytes, in one plane.
pub(crate) const ONE_LUN: Parts = SMALL_CHIP;

// The erase of one block, as text and as a file of format 1; rows 1, budget 5.
pub(crate) const ERASE: &str =
    "rows 1\nbuffer 0\nbudget 5\ncmd 60\naddr 2 3\ncmd d0\nwait\nend 0\n";

pub(crate) const ERASE_FILE: [u8; 36] = [
    0x4e, 0x4d, 0x50, 0x31, 0x05, 0x00, 0x01, 0x00, 0x00, 0x00, 0x00, 0x00, 0x05, 0x00, 0x00, 0x00,
    0x01, 0x60, 0x00, 0x00, 0x02, 0x02, 0x03, 0x00, 0x01, 0xd0, 0x00, 0x00, 0x0a, 0x00, 0x00, 0x00,
    0x00, 0x00, 0x00, 0x00,
];

// Its trace from row 4 on.
pub(crate) const TRACE: &str =
    "0 C 60\n0 A 04\n0 A 00\n0 A 00\n0 C d0\n0 C 70\n0 O 80\n0 R 0 0\n0 C 70\n0 O e0\n";

pub(crate) const DIE: PageFile<'static> = PageFile {
    path: "die.page",
    profile: Profile::Base,
};

// How many steps the search for a run may take.
pub(crate) const SEARCHED: u64 = 100_000;

pub(crate) const VERIFY: Command<'static> = Command::Verify(VerifyRequest {
    page: DIE,
    input: "in",
    counter: TraceOutputs::NONE,
    search: SEARCHED,
    is_quiet: true,
    style: Style::Plain,
});

pub(crate) const CHECK: Command<'static> = Command::Check(CheckRequest {
    trace: TraceRequest {
        page: "die.page",
        profile: Profile::Base,
        targets: Targets::One,
        input: "in",
        form: TraceForm::Strict,
        vendor: None,
    },
    tells_all: false,
    readies: Readies::Written,
    assumes_ready: false,
    beginning: Beginning::Start,
    judges_bytes: false,
    has_notes: false,
    times: None,
    dies: None,
    style: Style::Plain,
    copy: None,
});

pub(crate) const ASSEMBLE: Command<'static> = Command::Assemble {
    input: "in",
    target: "out",
};

pub(crate) const UPGRADE: Command<'static> = Command::Upgrade {
    input: "in",
    target: "out",
};

pub(crate) const DISASSEMBLE: Command<'static> = Command::Disassemble { input: "in" };

// Files with this page and this input.
pub(crate) fn files_of(alloc: Global, parts: Parts, input: &[u8]) -> Result<MapFiles, Fail> {
    let geometry = Geometry::of(parts)?;
    let mut files = MapFiles::new(alloc);
    files.put("die.page", &geometry.page())?;
    files.put("in", input)?;
    Ok(files)
}

// A refusal of a file that no run file names.
pub(crate) fn refused(fault: Fault) -> Ending {
    Ending::Exit(Exit::Refused(Refusal { fault, line: None }))
}

// What a command comes to: its end, its output, and what it says to a person.
#[derive(Drop)]
pub(crate) struct Seen {
    pub(crate) exit: Ending,
    pub(crate) output: Vec<u8>,
    pub(crate) errors: Vec<u8>,
}

pub(crate) fn do_command(alloc: Global, files: &mut MapFiles, command: Command<'_>) -> Seen {
    let mut console = Console {
        output: Vec::new(alloc),
        errors: Vec::new(alloc),
        progress: NoProgress,
    };
    let exit = command.carry_out(alloc, alloc, files, &mut console);
    let Console { output, errors, .. } = console;
    Seen {
        exit,
        output,
        errors,
    }
}

// No row is wrong.
pub(crate) fn none_is_wrong(wrong: Option<usize>) -> Result<(), Fail> {
    match wrong {
        None => Ok(()),
        Some(place) => Err(Fail::new(format_args!("row {place} comes to something else"))),
    }
}

// All is as it should be.
pub(crate) fn is_right(is_right: bool) -> Result<(), Fail> {
    if is_right {
        Ok(())
    } else {
        Err(Fail::from("it comes to something else"))
    }
}
