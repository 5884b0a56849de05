//! What is said of the run of a refusal that was searched for.

use micro_claims::{Fault, Reason};
use micro_known::{KnownWords, Ways, push_brought};
use micro_word::Text;
use nand_geometry::Geometry;
use refused_run::{Choice, End};
use seq_inputs::Words;
use std::alloc::{AllocError, Allocator};

/// What came of the search for a run of a refusal.
#[derive(Drop)]
pub(crate) enum Sought<A: Allocator> {
    /// None was asked for, or the refusal has one that needs no search.
    Nothing,
    /// One is written, which ends so, and in which dies did this that they mostly don't do.
    Written { end: End, choices: Vec<Choice, A> },
    /// The text as a whole is refused, so no word of it may come.
    Whole,
    /// None was found in so many steps.
    NotFound { steps: u64 },
}

/// The reason is one of the text as a whole.
pub(crate) fn is_of_whole(reason: Reason) -> bool {
    match reason {
        Reason::NoWords
        | Reason::LoopUnpaired
        | Reason::LoopsTooDeep
        | Reason::BranchMisplaced
        | Reason::LastWordNotEnd => true,
        Reason::CycleForbidden
        | Reason::AddressUnaligned
        | Reason::HandoverInSequence
        | Reason::BufferPassed
        | Reason::RowOrPlaneOutside
        | Reason::ColumnTooLarge
        | Reason::NoStatus
        | Reason::EndsTooSoon
        | Reason::OverBudget
        | Reason::CommandNotAllowed => false,
    }
}

// The choices of a run, in the order of time.
fn list_choices<A: Allocator + Clone>(
    alloc: A,
    choices: &[Choice],
) -> Result<String<A>, AllocError> {
    let mut listed = String::new(alloc.clone()?);
    for choice in choices {
        let comma = if listed.is_empty() { "" } else { ", " };
        listed = format!(in alloc.clone()?; "{listed}{comma}{choice}")?;
    }
    Ok(listed)
}

// What is said of a run that is written.
fn words_of_run<A: Allocator + Clone>(
    alloc: A,
    end: End,
    choices: &[Choice],
    is_same: bool,
) -> Result<String<A>, AllocError> {
    let listed = list_choices(alloc.clone()?, choices)?;
    let code = end.reason.code();
    match (is_same, choices.is_empty()) {
        (true, true) => Ok(String::new(alloc)),
        (true, false) => format!(in alloc; "; in its run {listed}"),
        (false, true) => format!(in alloc;
            "; the run that is written ends at word {} for {code}",
            end.word
        ),
        (false, false) => {
            format!(in alloc;
                "; the run that is written ends at word {} for {code}: {listed}",
                end.word
            )
        }
    }
}

// Where ways meet last before a word, and what each of them brings that is forgotten there.
fn words_of_meeting<A: Allocator + Clone>(
    alloc: A,
    text: &Text<A>,
    geometry: &Geometry,
    word: usize,
) -> Result<String<A>, AllocError> {
    let words = text.words();
    let mut said = String::new(alloc.clone()?);
    let Some(ways) = Ways::met_before(alloc.clone()?, words, word)? else {
        return Ok(said);
    };
    if let (Some(first), Some(last)) = (ways.from.first(), ways.from.last()) {
        let at = ways.word;
        write!(
            said,
            ", and the ways from words {first} and {last} meet at word {at}"
        )?;
    }
    let known = KnownWords::find(alloc.clone()?, text, *geometry)?;
    let mut brought = String::new(alloc.clone()?);
    if push_brought(&mut brought, alloc, &known, words, &ways)? {
        write!(said, ": {brought}")?;
    }
    Ok(said)
}

// What is said besides of a refusal.
fn words_besides<A: Allocator + Clone>(
    alloc: A,
    text: &Text<A>,
    geometry: &Geometry,
    fault: Fault,
    sought: &Sought<A>,
) -> Result<String<A>, AllocError> {
    match sought {
        Sought::Nothing => Ok(String::new(alloc)),
        Sought::Written { end, choices } => {
            let is_same = end.word == fault.word && end.reason == fault.reason;
            words_of_run(alloc, *end, choices.as_slice(), is_same)
        }
        Sought::Whole => {
            format!(in alloc;
                "; no run is written: the text as a whole is refused, before a word may come"
            )
        }
        Sought::NotFound { steps } => {
            let met = words_of_meeting(alloc.clone()?, text, geometry, fault.word)?;
            format!(in alloc; "; no run is written: none was found in {steps} steps{met}")
        }
    }
}

/// What is said of a refusal, with what came of the search for its run; nothing where there was no memory for it.
pub(crate) fn say_sought<'p, A: Allocator + Clone>(
    alloc: A,
    said: Words<'p, A>,
    program: &Text<A>,
    geometry: &Geometry,
    fault: Fault,
    sought: &Sought<A>,
) -> Option<Words<'p, A>> {
    let Words {
        path,
        line,
        time,
        text,
    } = said;
    let besides = words_besides(alloc.clone().ok()?, program, geometry, fault, sought).ok()?;
    let text = format!(in alloc; "{text}{besides}").ok()?;
    Some(Words {
        path,
        line,
        time,
        text,
    })
}
