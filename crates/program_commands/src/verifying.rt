//! The command that verifies a microprogram.
ghost use Rattle.std.specs.Prelude.{◌≡◌, ◌++◌, ◌∷◌, [], Some, List, ℕ, codes, IfOk, IfErr, OnOk, OnErr, Option, map};
ghost use Rattle.std.specs.List.{All};
ghost use Rattle.std.specs.Io.KnownBytes.{Appends};
ghost use Rattle.onfi_cycle.specs.declared.item.Item.TheVariants.{Cyc};
ghost use Rattle.micro_program.specs.Safe.{IsSafe};
ghost use Rattle.seq_files.specs.Store.{with_all, made_of};
ghost use Rattle.trace_files.specs.Files.{files_of};
ghost use Rattle.trace_text.specs.Line.{IsPrintable};
ghost use Rattle.micro_walk.specs.Faults.{fault_of};
ghost use Rattle.seq_inputs.specs.declared.refusal.Refusal.{Refusal};
ghost use Rattle.micro_verify.specs.Lazy.{Counter as RunValue};
ghost use Rattle.micro_verify.specs.Playing.{Shown};
ghost use Rattle.refused_run.specs.Course.{last_item};
ghost use Rattle.program_commands.specs.Commands.{IsAccepted, VerifyRefuses, VerifyLeaves, RefusesText, CanBePrinted, WritesFound, LeavesFound, LeavesShown};
ghost use Rattle.seq_inputs.specs.Stops.{SaysElse, RefusesNothing, Tells};
ghost use Rattle.seq_inputs.specs.Refusals.{line_of};

use crate::noting::say_notes;
use crate::paged_program::{PagedProgram, read_paged};
use crate::shown_run::{Sought, is_of_whole, say_sought};
use crate::verify_request::VerifyRequest;
use micro_claims::Fault as TextFault;
use micro_program::Verified;
use micro_verify::{Counter, TextRefused, VerifyRefusal, verify};
use micro_word::Text;
use nand_geometry::Geometry;
use onfi_cycle::Item;
use refused_run::{Found, Run, find_run};
use seq_files::{Files, MadeFile, list_made};
use seq_inputs::{
    Console, Exit, Fault, PageFile, Stop, Style, Words, end_without_memory, fail_as, finish,
    say_counted, words_of_reason, write_files,
};
use std::alloc::{AllocError, Allocator};
use std::io::Write;
use trace_files::{TraceOutputs, make_files};
use trace_text::is_printable;

// Writes files that were made, all or none.
fn write_made<'p, A: Allocator + Clone, F: Files>(
    alloc: A,
    files: &mut F,
    made: &[MadeFile<'p, A>],
) -> Result<(), Stop<'p, A>>
    ensures ok { OnOk result (F.store files.new ≡ with_all (map made_of made.now) (F.store files.old)) }
    ensures nothing { IfErr result (λ e. RefusesNothing e) }
    ensures stays { OnErr result (F.store files.new ≡ F.store files.old) }
{
    let mut listed = Vec::new(alloc);
    list_made(&mut listed, made)?;
    write_files(files, listed.as_slice())
}

// Writes the files of a run, with the cycle that isn't permitted after it: the run is on target 0, the only one.
fn write_run<'p, A: Allocator + Clone, F: Files>(
    alloc: A,
    files: &mut F,
    geometry: &Geometry,
    outputs: TraceOutputs<'p>,
    run: Counter<A>,
) -> Result<(), Stop<'p, A>>
    requires { All IsPrintable (run.items.items ++ (Cyc run.cycle ∷ [])) }
    ensures ok { OnOk result ((drawn : List ℕ) × (F.store files.new
        ≡ with_all (files_of outputs.entry geometry.now 1 (run.items.items ++ (Cyc run.cycle ∷ [])) drawn) (F.store files.old))) }
    ensures nothing { IfErr result (λ e. RefusesNothing e) }
    ensures stays { OnErr result (F.store files.new ≡ F.store files.old) }
{
    let Counter {
        base: _,
        mut items,
        cycle,
    } = run;
    items.push(Item::Cyc(cycle))?;
    let made = make_files(alloc.clone()?, geometry, 1, items.as_slice(), outputs)?;
    write_made(alloc, files, made.as_slice())
}

// Writes the files of a run that was found, if its items can be printed; whether they can.
fn write_found<'p, A: Allocator + Clone, F: Files>(
    alloc: A,
    files: &mut F,
    geometry: &Geometry,
    outputs: TraceOutputs<'p>,
    items: &[Item],
) -> Result<bool, Stop<'p, A>>
    ensures ok { IfOk result (λ written. WritesFound outputs.entry geometry.now items.now written (F.store files.old) (F.store files.new)) }
    ensures nothing { IfErr result (λ e. RefusesNothing e) }
    ensures stays { OnErr result (F.store files.new ≡ F.store files.old) }
{
    if !is_printable(items) {
        return Ok(false);
    }
    let made = make_files(alloc.clone()?, geometry, 1, items, outputs)?;
    write_made(alloc, files, made.as_slice())?;
    Ok(true)
}

// The items of a run, and that which isn't permitted after them.
fn items_of<A: Allocator>(
    items: Vec<Item, A>,
    last: Option<Item>,
) -> Result<Vec<Item, A>, AllocError>
    ensures { IfOk result (λ v. v.items ≡ items.items ++ last_item last) }
{
    let mut items = items;
    if let Some(item) = last {
        items.push(item)?;
    }
    Ok(items)
}

// Searches for a run of a refusal, and writes the files of the one that is found.
fn seek_run<'p, A: Allocator + Clone, F: Files>(
    alloc: A,
    files: &mut F,
    text: &Text<A>,
    geometry: &Geometry,
    outputs: TraceOutputs<'p>,
    fault: TextFault,
    most: u64,
) -> Result<Sought<A>, Stop<'p, A>>
    ensures ok { OnOk result (LeavesFound outputs.entry geometry.now text.now (F.store files.old) (F.store files.new)) }
    ensures nothing { IfErr result (λ e. RefusesNothing e) }
    ensures stays { OnErr result (F.store files.new ≡ F.store files.old) }
{
    if is_of_whole(fault.reason) {
        return Ok(Sought::Whole);
    }
    let Found { run, steps } = find_run(text, geometry, fault, most)?;
    let Some(run) = run else {
        return Ok(Sought::NotFound { steps });
    };
    let Run {
        items,
        end,
        choices,
    } = run;
    let items = items_of(items, end.item)?;
    if write_found(alloc, files, geometry, outputs, items.as_slice())? {
        Ok(Sought::Written { end, choices })
    } else {
        Ok(Sought::NotFound { steps })
    }
}

// Leaves the files of the run of a refusal: of the one that the verifier hands out, or else of one that is searched for.
#[tactic(auto, using(crate::proofs::Leaving::run_left, crate::proofs::Leaving::none_left, crate::proofs::Leaving::found_left))]
fn show_run<'p, A: Allocator + Clone, F: Files>(
    alloc: A,
    files: &mut F,
    text: &Text<A>,
    geometry: &Geometry,
    outputs: TraceOutputs<'p>,
    fault: TextFault,
    run: Option<Counter<A>>,
    most: u64,
) -> Result<Sought<A>, Stop<'p, A>>
    requires { CanBePrinted run }
    ensures ok { OnOk result ((c : Option RunValue) → Shown run c → LeavesShown outputs.entry geometry.now text.now c (F.store files.old) (F.store files.new)) }
    ensures nothing { IfErr result (λ e. RefusesNothing e) }
    ensures stays { OnErr result (F.store files.new ≡ F.store files.old) }
{
    match run {
        Some(run) => {
            write_run(alloc, files, geometry, outputs, run)?;
            Ok(Sought::Nothing)
        }
        None if outputs == TraceOutputs::NONE => Ok(Sought::Nothing),
        None => seek_run(alloc, files, text, geometry, outputs, fault, most),
    }
}

// What is said of the refusal of a text, and what came of the search for its run.
fn words_of_refusal<'p, A: Allocator + Clone>(
    alloc: A,
    path: &'p str,
    bytes: &[u8],
    text: &Text<A>,
    geometry: &Geometry,
    fault: TextFault,
    sought: &Sought<A>,
) -> Option<Words<'p, A>> {
    let copy = alloc.clone().ok()?;
    let TextFault { word, reason } = fault;
    let said = words_of_reason(alloc, path, bytes, text, geometry, word, reason)?;
    say_sought(copy, said, text, geometry, fault, sought)
}

// Whether a text is safe for a geometry; the files of the run of its refusal are left.
fn accept<'p, A: Allocator + Clone, F: Files>(
    alloc: A,
    files: &mut F,
    path: &'p str,
    bytes: &[u8],
    text: Text<A>,
    geometry: Geometry,
    counter: TraceOutputs<'p>,
    most: u64,
) -> Result<Verified<A>, Stop<'p, A>>
    ensures safe { IfOk result (λ v. IsSafe text geometry) }
    ensures faultless { IfOk result (λ v. fault_of geometry text ≡ None) }
    ensures stays { IfOk result (λ v. F.store files.new ≡ F.store files.old) }
    ensures err { IfErr result (SaysElse (RefusesText geometry text counter.entry (F.store files.old) (F.store files.new))
        (F.store files.new ≡ F.store files.old)) }
{
    let TextRefused { refusal, text } = match verify(text, geometry) {
        Ok(verified) => {
            // The call hands out that the text is safe.
            let _ = verified.text();
            return Ok(verified);
        }
        Err(refused) => refused,
    };
    match refusal {
        VerifyRefusal::Refusal {
            word,
            reason,
            counter: run,
        } => {
            let fault = TextFault { word, reason };
            let sought = show_run(
                alloc.clone()?,
                files,
                &text,
                &geometry,
                counter,
                fault,
                run,
                most,
            )?;
            let words = words_of_refusal(alloc, path, bytes, &text, &geometry, fault, &sought);
            Err(Stop::refused(Fault::Text { reason, word }, words))
        }
        VerifyRefusal::OutOfMemory => Err(Stop::OutOfMemory),
    }
}

/// Reads a page and a microprogram, and verifies: what was read, and what is verified. The files of the run of a refusal are left.
pub(crate) fn verify_at<'p, A: Allocator + Clone, F: Files>(
    alloc: A,
    files: &mut F,
    page: PageFile<'p>,
    input: &'p str,
    counter: TraceOutputs<'p>,
    most: u64,
) -> Result<(Vec<u8, A>, Verified<A>), Stop<'p, A>>
    ensures ok { IfOk result (λ found. IsAccepted (F.store files.old) page.entry input.now) }
    ensures stays { IfOk result (λ found. F.store files.new ≡ F.store files.old) }
    ensures err { IfErr result (SaysElse (VerifyRefuses (F.store files.old) (F.store files.new) page.entry input.now counter.entry)
        (F.store files.new ≡ F.store files.old)) }
{
    let PagedProgram {
        geometry,
        bytes,
        text,
    } = read_paged(alloc.clone()?, files, page, input)?;
    let verified = accept(
        alloc,
        files,
        input,
        bytes.as_slice(),
        text,
        geometry,
        counter,
        most,
    )?;
    Ok((bytes, verified))
}

// Says the notes to a microprogram that is accepted, and its header, where that was counted.
fn say_accepted<A: Allocator + Clone, E: Write>(
    alloc: A,
    errors: &mut E,
    style: Style,
    input: &str,
    bytes: &[u8],
    verified: &Verified<A>,
) {
    say_counted(errors, style, input, bytes, verified.text());
    say_notes(alloc, errors, style, input, bytes, verified);
}

/// Verifies a microprogram, as a word file or an assembly text, for the geometry of a parameter page.
///
/// `Done`: the page declares a geometry, the file is that of a microprogram which is safe for it, and `accepted` is printed. `Refused`: the
/// line `refused CODE at N` is printed: a P fault of the page; or an M fault of a word file with its word, or an A fault of a text with its line; or a V reason against
/// the text with its word. The file is read after the page, if that has no fault. Where the refusal has its run (docs/model/PROOF.md), the files that are
/// asked for of it stand there before the line is printed, all of them or none: what happens up to the refused word, and the cycle that isn't permitted
/// then, so that `check` of its text names the rule. It is on one target, number 0. Where the verifier hands out no run, one is searched for in so many steps
/// at most ([`find_run`]). `FileFault`: a file couldn't be read or written, or the output
/// couldn't be written. No other file is written. After `accepted` the notes to it, if there are some, are said on the console's errors, unless it is to be quiet.
/// What is said there is in this style.
pub fn verify_file<A: Allocator + Clone, F: Files, W: Write, E: Write, P>(
    alloc: A,
    files: &mut F,
    console: &mut Console<W, E, P>,
    request: VerifyRequest<'_>,
) -> Exit
    ensures done { result ≡ Exit.Done → IsAccepted (F.store files.old) request.entry.page request.entry.input.now × (F.store files.new ≡ F.store files.old)
        × Appends (W.contents console.old.output) (W.contents console.new.output) (codes "accepted\n") }
    ensures refused { (refusal : Refusal) → result ≡ Exit.Refused refusal
        → Tells (VerifyRefuses (F.store files.old) (F.store files.new) request.entry.page request.entry.input.now request.entry.counter) refusal
        × Appends (W.contents console.old.output) (W.contents console.new.output) (line_of refusal) }
    ensures files { VerifyLeaves (F.store files.old) (F.store files.new) request.entry.page request.entry.input.now request.entry.counter }
{
    let VerifyRequest {
        page,
        input,
        counter,
        search,
        is_quiet,
        style,
    } = request;
    let copy = match alloc.clone() {
        Ok(copy) => copy,
        Err(_) => return end_without_memory(console),
    };
    match verify_at(copy, files, page, input, counter, search) {
        Ok((bytes, verified)) => {
            let exit = finish(console, "accepted\n");
            if !is_quiet && matches!(exit, Exit::Done) {
                say_accepted(
                    alloc,
                    &mut console.errors,
                    style,
                    input,
                    bytes.as_slice(),
                    &verified,
                );
            }
            exit
        }
        Err(stop) => fail_as(alloc, console, style, stop),
    }
}
