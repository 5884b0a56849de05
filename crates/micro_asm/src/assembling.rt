//! From a text to its microprogram.

ghost use Rattle.std.specs.Prelude.{◌≡◌, ◌<◌, IfOk, IfErr, IfSome, Ok, length, MatchResult};
ghost use Rattle.std.specs.List.{AllByRecursion};
ghost use Rattle.micro_word.specs.declared.format.Format.TheVariants.{Two};
ghost use Rattle.micro_word.specs.Word.{IsInRange};
ghost use Rattle.micro_word.specs.Text.{FitsFormat, Microprogram};
ghost use Rattle.micro_asm.specs.Reading.{place_of, led, words_of, program, given, reading, Spells, IsRefusalOf, MayRefuse};
ghost use Rattle.micro_asm.specs.Fits.{SeenFits, EntryFits, NumbersFit};
ghost use Rattle.micro_asm.specs.Kept.{seen};
ghost use Rattle.micro_asm.specs.Shown.{shown_entry};

use crate::heading::Numbers;
use crate::lines::last_word;
use crate::refusal::{AsmFault, AsmRefusal};
use crate::second_look::find_fault;
use crate::statement::Entry;
use crate::survey::{Survey, fault, survey_of};
use micro_word::{Text, Word};
use std::alloc::Allocator;

// The place of a label's word, if there is such a word.
fn place_of<A: Allocator>(survey: &Survey<'_, A>, name: &[u8]) -> Option<u16>
    requires { SeenFits (seen survey.now) }
    ensures value { result ≡ place_of (length (seen survey.now).entries) ((seen survey.now).labels name.now) }
    ensures below { IfSome result (λ place. place < length (seen survey.now).entries) }
{
    let place = *survey.labels.get(name)?;
    if place < survey.entries.len() {
        Some(place as u16)
    } else {
        None
    }
}

// A word, its branch led to its place.
fn led<A: Allocator>(survey: &Survey<'_, A>, entry: Entry<'_>) -> Option<Word>
    requires seen { SeenFits (seen survey.now) }
    requires entry { EntryFits (shown_entry entry) }
    ensures value { result ≡ led (length (seen survey.now).entries) (seen survey.now).labels (shown_entry entry.entry) }
    ensures fits { IfSome result (IsInRange Two (length (seen survey.now).entries)) }
{
    match entry {
        Entry::Plain(word) => Some(word),
        Entry::Branch { mask, to } => Some(Word::BranchOnStatus {
            mask,
            target: place_of(survey, to)?,
        }),
        Entry::Jump { to } => Some(Word::Jump {
            target: place_of(survey, to)?,
        }),
    }
}

// The words, each branch led to its place.
#[tactic(auto, unfolding(crate::specs::Reading::words_of))]
fn words_of<A: Allocator>(alloc: A, survey: &Survey<'_, A>) -> Result<Vec<Word, A>, AsmRefusal>
    requires { SeenFits (seen survey.now) }
    ensures ok { IfOk result (λ v. words_of (length (seen survey.now).entries) (seen survey.now).labels (seen survey.now).entries
        ≡ Ok v.items) }
    ensures fits { IfOk result (λ v. AllByRecursion (IsInRange Two (length (seen survey.now).entries)) v.items) }
    ensures count { IfOk result (λ v. length v.items ≡ length (seen survey.now).entries) }
    ensures err { IfErr result (λ e. MayRefuse e (words_of (length (seen survey.now).entries) (seen survey.now).labels
        (seen survey.now).entries)) }
{
    let mut words = Vec::with_capacity(alloc, survey.entries.len())?;
    for pending in survey.entries.as_slice() {
        match led(survey, pending.entry) {
            Some(word) => words.push(word)?,
            None => return Err(fault(AsmFault::NoSuchLabel, pending.line)),
        }
    }
    Ok(words)
}

// The text of numbers and words that fit.
fn text_of<A: Allocator>(numbers: Numbers, words: Vec<Word, A>) -> Text<A>
    requires { FitsFormat Two (program numbers words.items) }
    ensures { result ≡ program numbers words.items }
{
    Text::of(numbers.rows, numbers.buffer, numbers.budget, words).unwrap()
}

// The microprogram of lines that have been read.
#[tactic(auto, unfolding(crate::specs::Reading::given))]
fn given<A: Allocator>(alloc: A, survey: &Survey<'_, A>) -> Result<Text<A>, AsmRefusal>
    requires { SeenFits (seen survey.now) }
    ensures ok { IfOk result (λ x. given (seen survey.now) ≡ Ok x) }
    ensures err { IfErr result (λ e. MayRefuse e (given (seen survey.now))) }
{
    let Some(numbers) = survey.heading.numbers() else {
        return Err(fault(AsmFault::HeaderOutOfOrder, survey.line));
    };
    match words_of(alloc, survey) {
        Ok(words) => Ok(text_of(numbers, words)),
        Err(refusal) => Err(refusal),
    }
}

/// The microprogram of an assembly text (docs/use/ASSEMBLY.md). Of any other text the lowest line with a fault is told, counted
/// from 1, and its first fault in the order of [`AsmFault`]; A4 is told only where there is no other fault.
/// `OutOfMemory` is answered only where memory was refused and the text has no fault. To tell that, the text is looked
/// through again without memory, in a time that grows with the square of its lines.
pub fn assemble<A: Allocator + Clone>(alloc: A, text: &str) -> Result<Text<A>, AsmRefusal>
    // What is given is what the lines spell.
    ensures ok { IfOk result (λ x. Spells text.now x) }
    // What the lines spell is given, unless memory is refused.
    ensures only { (x : Microprogram) → Spells text.now x → MatchResult result (λ y. y ≡ x) (λ e. e ≡ AsmRefusal.OutOfMemory) }
    // A fault is the one that reading tells, at its line; of a text with a fault that fault is told, whatever memory there is.
    ensures err { IfErr result (λ e. IsRefusalOf e (reading text.now)) }
{
    match all_lines(alloc, text) {
        Ok(program) => Ok(program),
        Err(AsmRefusal::OutOfMemory) => Err(fault_or_memory(text)),
        Err(refusal) => Err(refusal),
    }
}

// The fault of a text for which memory was refused; if it has none, that memory was refused.
fn fault_or_memory(text: &str) -> AsmRefusal
    ensures { IsRefusalOf result (reading text.now) }
{
    match find_fault(text.as_bytes()) {
        Some(refusal) => refusal,
        None => AsmRefusal::OutOfMemory,
    }
}

// The microprogram, or the first fault in front of where memory was refused.
#[tactic(auto, unfolding(crate::specs::Reading::reading, crate::specs::Reading::seen_in))]
fn all_lines<A: Allocator + Clone>(alloc: A, text: &str) -> Result<Text<A>, AsmRefusal>
    ensures ok { IfOk result (λ x. reading text.now ≡ Ok x) }
    ensures err { IfErr result (λ e. MayRefuse e (reading text.now)) }
{
    let text = text.as_bytes();
    let alloc_of_words = alloc.clone()?;
    match survey_of(alloc, text, last_word(text)) {
        Ok(survey) => given(alloc_of_words, &survey),
        Err(refusal) => Err(refusal),
    }
}
