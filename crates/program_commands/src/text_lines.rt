//! The assembly of a microprogram, with what is known before each word as comments.

use crate::explained::{Explained, is_word};
use std::alloc::{AllocError, Allocator};

// How many of the aspects are of the program's registers.
const OF_REGISTERS: usize = 5;

// How many are told before the first word: those, that nothing is open, and that the LUN is ready.
const OF_BEGINNING: usize = 7;

// The comments before the words, what was said last of each aspect, and whether nothing was known before the last word.
#[derive(Drop)]
struct Comments<A: Allocator> {
    lines: String<A>,
    said: Vec<String<A>, A>,
    is_lost: bool,
}

// Whether this was said last of an aspect.
fn is_said<A: Allocator>(said: &[String<A>], aspect: usize, fact: &str) -> bool {
    match said.get(aspect) {
        Some(last) => last.as_str() == fact,
        None => false,
    }
}

// Adds a fact to a comment that these words go before.
fn push_fact<A: Allocator>(
    lines: &mut String<A>,
    between: &str,
    fact: &String<A>,
) -> Result<(), AllocError> {
    lines.push_str(between)?;
    lines.push_str(fact.as_str())
}

// Adds facts as a comment.
fn push_facts<A: Allocator>(lines: &mut String<A>, facts: &[String<A>]) -> Result<(), AllocError> {
    let mut between = "; ";
    for fact in facts {
        push_fact(lines, between, fact)?;
        between = ", ";
    }
    lines.push_str("\n")
}

// Adds the facts that weren't said last as a comment; nothing where all were.
fn push_new_facts<A: Allocator>(
    lines: &mut String<A>,
    facts: &[String<A>],
    said: &[String<A>],
) -> Result<(), AllocError> {
    let mut between = "; ";
    for (place, fact) in facts.iter().enumerate() {
        if !is_said(said, place, fact.as_str()) {
            push_fact(lines, between, fact)?;
            between = ", ";
        }
    }
    if between == ", " {
        lines.push_str("\n")?;
    }
    Ok(())
}

impl<A: Allocator + Clone> Comments<A> {
    // What the program's registers are, and behind it what the target and the LUN are.
    fn push_all(&mut self, facts: &[String<A>]) -> Result<(), AllocError> {
        let (registers, rest) = facts.split_at(OF_REGISTERS.min(facts.len()));
        push_facts(&mut self.lines, registers)?;
        push_facts(&mut self.lines, rest)
    }

    // Nothing is known before a word: it is said before the first of several.
    fn push_lost(&mut self) -> Result<(), AllocError> {
        if self.is_lost {
            return Ok(());
        }
        self.is_lost = true;
        self.lines.push_str(
            "; nothing is known: no way leads here, or the verifier stopped before\n",
        )
    }

    // What a program begins with.
    fn push_beginning(&mut self, facts: &[String<A>]) -> Result<(), AllocError> {
        let (told, _) = facts.split_at(OF_BEGINNING.min(facts.len()));
        push_facts(&mut self.lines, told)
    }

    // What is known before a word: all where ways meet, what it begins with before the first word, else what is new.
    fn push_known(
        &mut self,
        facts: Option<Vec<String<A>, A>>,
        is_first: bool,
        is_whole: bool,
    ) -> Result<(), AllocError> {
        let Some(facts) = facts else {
            return self.push_lost();
        };
        self.is_lost = false;
        if is_first {
            self.push_beginning(facts.as_slice())?;
        } else if is_whole {
            self.push_all(facts.as_slice())?;
        } else {
            push_new_facts(&mut self.lines, facts.as_slice(), self.said.as_slice())?;
        }
        self.said = facts;
        Ok(())
    }

    // The comments before a word.
    fn push_before(
        &mut self,
        alloc: A,
        explained: &Explained<A>,
        word: usize,
    ) -> Result<(), AllocError> {
        let meeting = explained.meeting(alloc.clone()?, word)?;
        if let Some(brought) = &meeting {
            writeln!(self.lines, "; ways meet: {brought}")?;
        }
        let facts = explained.facts(alloc, word)?;
        self.push_known(facts, word == 0, meeting.is_some())?;
        match explained.refusal_at(word) {
            None => Ok(()),
            Some(fault) => writeln!(
                self.lines,
                "; refused here: {} ({})",
                fault.reason,
                fault.reason.code()
            ),
        }
    }
}

/// The assembly of a microprogram, with what is known before each word as comments. It is an assembly text of the same microprogram.
pub(crate) fn lines_of_text<A: Allocator + Clone>(
    alloc: A,
    explained: &Explained<A>,
) -> Result<String<A>, AllocError> {
    let mut comments = Comments {
        lines: String::new(alloc.clone()?),
        said: Vec::new(alloc.clone()?),
        is_lost: false,
    };
    let mut word: usize = 0;
    for (line, text) in explained.assembly.as_str().lines().enumerate() {
        if is_word(line, text) {
            comments.push_before(alloc.clone()?, explained, word)?;
            word = word.saturating_add(1);
        }
        comments.lines.push_str(text)?;
        comments.lines.push_str("\n")?;
    }
    Ok(comments.lines)
}
