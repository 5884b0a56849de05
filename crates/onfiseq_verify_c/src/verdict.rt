//! What is found of a word file.
ghost use Rattle.std.specs.Prelude.{◌≡◌, ◌≤◌, None, Ok, IfOk, IfErr, IfSome, length, reverse};
ghost use Rattle.refused_run.specs.Course.{IsBroken, task_of};
ghost use Rattle.nand_geometry.specs.Reading.{read_of};
ghost use Rattle.micro_word.specs.Text.{IsFileOf};
ghost use Rattle.micro_walk.specs.Verdicts.{MayBe};
ghost use Rattle.micro_verify.specs.Playing.{Shown};
ghost use Rattle.onfiseq_verify_c.specs.Verify.{Finds, FindsText, LacksProgram, answer_of};
ghost use Rattle.onfiseq_verify_c.specs.Run.{FindsOrLacks, FindsShown, IsSought, run_of};

use micro_claims::{Fault, Reason, State};
use micro_verify::{Counter, counter_of};
use micro_walk::{Unexamined, examine_in, places_wanted};
use micro_word::{Text, WordFault, WordRefusal, read};
use nand_geometry::{Geometry, PageFault};
use refused_run::{Run, find_run};
use std::alloc::{AllocError, Global};

/// `letter` is 0 where the program is accepted. Else `letter` and `number` are those of the code, as V and 7 of V7, and `at` is the word or 0: P is a fault of
/// the page, M one of the file, V a reason against the program. O, with 0, says that memory was refused.
#[repr(C)]
#[derive(Clone, Copy)]
pub struct OnfiseqVerdict {
    pub letter: u8,
    pub number: u32,
    pub at: usize,
}

/// What is found of a page and a file.
#[derive(Clone, Copy)]
pub enum Found {
    Accepted,
    Page(PageFault),
    File { fault: WordFault, word: usize },
    Text { reason: Reason, word: usize },
    OutOfMemory,
}

/// What is found, with the run of a refusal that has one.
#[derive(Drop)]
pub(crate) struct Finding {
    pub found: Found,
    pub run: Option<Counter>,
    /// One that was searched for, where the refusal has none by itself.
    pub sought: Option<Run<Global>>,
}

impl Finding {
    // What has no run.
    fn without_run(found: Found) -> Finding
        ensures found { result.found ≡ found }
        ensures run { result.run ≡ None }
        ensures sought { result.sought ≡ None }
    {
        Finding {
            found,
            run: None,
            sought: None,
        }
    }
}

pub(crate) fn answer_of(found: Found) -> OnfiseqVerdict
    ensures { result ≡ answer_of found }
{
    match found {
        Found::Accepted => OnfiseqVerdict {
            letter: 0,
            number: 0,
            at: 0,
        },
        Found::Page(fault) => OnfiseqVerdict {
            letter: b'P',
            number: fault.number(),
            at: 0,
        },
        Found::File { fault, word } => OnfiseqVerdict {
            letter: b'M',
            number: fault.number(),
            at: word,
        },
        Found::Text { reason, word } => OnfiseqVerdict {
            letter: b'V',
            number: reason.number(),
            at: word,
        },
        Found::OutOfMemory => OnfiseqVerdict {
            letter: b'O',
            number: 0,
            at: 0,
        },
    }
}

// The geometry of a page and the text of a file.
#[derive(Drop)]
struct Program {
    geometry: Geometry,
    text: Text<Global>,
}

// Reads a page and then a file, or finds what is wrong with the first that can't be read.
fn read_program(alloc: Global, page: &[u8], file: &[u8]) -> Result<Program, Found>
    ensures read { IfOk result (λ p. (read_of page.now ≡ Ok p.geometry) × IsFileOf file.now p.text) }
    ensures refused { IfErr result (LacksProgram page.now file.now) }
{
    let geometry = match Geometry::read(page) {
        Ok(geometry) => geometry,
        Err(fault) => return Err(Found::Page(fault)),
    };
    match read(alloc, file) {
        Ok(text) => Ok(Program { geometry, text }),
        Err(WordRefusal::Fault { fault, word }) => Err(Found::File { fault, word }),
        Err(WordRefusal::OutOfMemory) => Err(Found::OutOfMemory),
    }
}

// A table with so many places, which takes no memory for none.
fn make_table(alloc: Global, places: usize) -> Result<Vec<Option<State>>, AllocError>
    ensures ok { IfOk result (λ table. length table.items ≡ places) }
    ensures err { IfErr result (λ _. 1 ≤ places) }
{
    let mut table = Vec::new(alloc);
    if places > 0 {
        table.resize(places, None)?;
    }
    Ok(table)
}

// What is found of a text, with a table that takes memory where it has branches or loops.
fn examined(alloc: Global, program: &Program) -> Found
    ensures { FindsText program.now.geometry program.now.text result }
{
    let places = places_wanted(&program.text);
    let Ok(mut table) = make_table(alloc, places) else {
        return Found::OutOfMemory;
    };
    match examine_in(&program.text, &program.geometry, table.as_mut_slice()) {
        Ok(_walked) => Found::Accepted,
        Err(Unexamined::Fault(Fault { reason, word })) => Found::Text { reason, word },
        // The table has as many places as are wanted.
        Err(Unexamined::TableTooSmall { .. }) => Found::OutOfMemory,
    }
}

// What is found of a page and a file.
pub(crate) fn found_of(alloc: Global, page: &[u8], file: &[u8]) -> Found
    ensures { Finds page.now file.now result }
{
    match read_program(alloc, page, file) {
        Ok(program) => examined(alloc, &program),
        Err(found) => found,
    }
}

// A run of a refused text that is searched for, in so many steps at most; none of a text that is refused as a whole, or without memory for it.
fn seek(program: &Program, fault: Fault, steps: u64) -> Option<Run<Global>>
    ensures { IfSome result (λ run. IsBroken (task_of program.now.geometry program.now.text) (reverse run.items.items) run.end) }
{
    if fault.reason.number() <= 5 {
        return None;
    }
    match find_run(&program.text, &program.geometry, fault, steps) {
        Ok(found) => found.run,
        Err(AllocError) => None,
    }
}

// A refused text, with the run of its refusal. Memory may be refused to that run alone.
fn finding_of_fault(program: &Program, fault: Fault, steps: u64) -> Finding
    requires { MayBe program.now.geometry program.now.text fault }
    ensures finds { FindsOrLacks program.now.geometry program.now.text result.found }
    ensures run { Shown result.run (run_of program.now.geometry program.now.text result.found) }
    ensures alone { IfSome result.sought (λ run. result.run ≡ None) }
    ensures sought { IfSome result.sought (λ run. IsBroken (task_of program.now.geometry program.now.text) (reverse run.items.items) run.end) }
{
    let Fault { reason, word } = fault;
    let found = Found::Text { reason, word };
    match counter_of(&program.text, &program.geometry, fault) {
        Ok(Some(run)) => Finding {
            found,
            run: Some(run),
            sought: None,
        },
        Ok(None) => Finding {
            found,
            run: None,
            sought: seek(program, fault, steps),
        },
        Err(AllocError) => Finding::without_run(Found::OutOfMemory),
    }
}

// What is found of a text, with its run.
fn finding_of_text(alloc: Global, program: &Program, steps: u64) -> Finding
    ensures finds { FindsOrLacks program.now.geometry program.now.text result.found }
    ensures run { Shown result.run (run_of program.now.geometry program.now.text result.found) }
    ensures alone { IfSome result.sought (λ run. result.run ≡ None) }
    ensures sought { IfSome result.sought (λ run. IsBroken (task_of program.now.geometry program.now.text) (reverse run.items.items) run.end) }
{
    let found = examined(alloc, program);
    match found {
        Found::Text { reason, word } => finding_of_fault(program, Fault { word, reason }, steps),
        Found::Accepted | Found::Page(_) | Found::File { .. } | Found::OutOfMemory => {
            Finding::without_run(found)
        }
    }
}

// What is found of a page and a file, with its run.
pub(crate) fn finding_of(alloc: Global, page: &[u8], file: &[u8], steps: u64) -> Finding
    ensures finds { FindsShown page.now file.now result.found result.run }
    ensures alone { IfSome result.sought (λ run. result.run ≡ None) }
    ensures sought { IfSome result.sought (λ run. IsSought page.now file.now run.items.items run.end) }
{
    match read_program(alloc, page, file) {
        Ok(program) => finding_of_text(alloc, &program, steps),
        Err(found) => Finding::without_run(found),
    }
}
