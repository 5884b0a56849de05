//! What is known before each word of a microprogram as JSON, an object a line.

use crate::explained::{Explained, is_word};
use micro_known::Aspect;
use seq_inputs::Quoted;
use std::alloc::{AllocError, Allocator};

// Adds each aspect.
fn push_aspects<A: Allocator>(
    lines: &mut String<A>,
    facts: &[String<A>],
) -> Result<(), AllocError> {
    for (aspect, fact) in Aspect::ALL.iter().zip(facts.iter()) {
        write!(lines, ",\"{}\":{}", aspect.name(), Quoted(&fact.as_str()))?;
    }
    Ok(())
}

// Adds the object of a word, whose assembly is this.
fn push_word<A: Allocator + Clone>(
    lines: &mut String<A>,
    alloc: A,
    explained: &Explained<A>,
    word: usize,
    text: &str,
) -> Result<(), AllocError> {
    write!(lines, "{{\"word\":{word},\"text\":{}", Quoted(&text))?;
    if let Some(facts) = explained.facts(alloc.clone()?, word)? {
        push_aspects(lines, facts.as_slice())?;
    }
    if let Some(brought) = explained.meeting(alloc, word)? {
        write!(lines, ",\"ways\":{}", Quoted(&brought.as_str()))?;
    }
    if let Some(fault) = explained.refusal_at(word) {
        write!(lines, ",\"refused\":\"{}\"", fault.reason.code())?;
    }
    lines.push_str("}\n")
}

/// An object for each word of a microprogram.
pub(crate) fn lines_of_json<A: Allocator + Clone>(
    alloc: A,
    explained: &Explained<A>,
) -> Result<String<A>, AllocError> {
    let mut lines = String::new(alloc.clone()?);
    let mut word: usize = 0;
    for (line, text) in explained.assembly.as_str().lines().enumerate() {
        if is_word(line, text) {
            push_word(&mut lines, alloc.clone()?, explained, word, text)?;
            word = word.saturating_add(1);
        }
    }
    Ok(lines)
}
