//! How many words a program steps at most.
ghost use Rattle.std.specs.Prelude.{◌≡◌, [], IfOk, OnOk, length, reverse};
ghost use Rattle.micro_program.specs.Lines.{unrolled};
ghost use Rattle.run_plan.specs.Steps.{capped, counted_before, counted_from, none_counted, Counted};

use micro_word::Word;
use std::alloc::{AllocError, Global};
use std::marker::Model;

// How many words are to come from a place of a text on, its loops written out.
#[derive(Drop)]
struct Counting {
    // Up to the end of the loop that the place stands in.
    words: u64,
    // What follows that loop and each loop around it, the outermost first.
    outer: Vec<u64>,
}

impl Model for Counting {
    ghost use Rattle.std.specs.Prelude.{reverse};
    ghost use Rattle.run_plan.specs.Steps.{Counted};

    ghost Value = { Counted };

    ghost view = { λ c. record { words = c.words; outer = reverse c.outer.items } };
}

impl Counting {
    // No word is to come.
    fn new(alloc: Global) -> Counting
        ensures { result ≡ none_counted }
    {
        Counting {
            words: 0,
            outer: Vec::new(alloc),
        }
    }

    // Counts a word in front of the others.
    fn put_before(&mut self, word: Word) -> Result<(), AllocError>
        ensures { OnOk result (self.new ≡ counted_before word self.old) }
    {
        match word {
            Word::Next => {
                self.outer.push(self.words)?;
                self.words = 1;
            }
            Word::Loop { turns } => {
                if let Some(rest) = self.outer.pop() {
                    self.words = self
                        .words
                        .saturating_mul(u64::from(turns))
                        .saturating_add(rest);
                }
                self.words = self.words.saturating_add(1);
            }
            Word::End { .. }
            | Word::Command { .. }
            | Word::Address { .. }
            | Word::Get { .. }
            | Word::Put { .. }
            | Word::Seek { .. }
            | Word::Column { .. }
            | Word::RowAdd { .. }
            | Word::Row { .. }
            | Word::Plane { .. }
            | Word::Wait
            | Word::Yield
            | Word::ReadStatus
            | Word::BranchOnStatus { .. }
            | Word::Jump { .. } => self.words = self.words.saturating_add(1),
        }
        Ok(())
    }
}

/// How many words a program steps at most: each word once in each turn of the loops around it. The polls of a `wait` count once, and a branch leaves words out.
/// What is more than a number of 64 bits holds counts as the greatest of them.
#[tactic(auto, using(crate::proofs::Stepping::counts_lines))]
pub(crate) fn count_steps(alloc: Global, words: &[Word]) -> Result<u64, AllocError>
    ensures { IfOk result (λ steps. steps ≡ capped (length (unrolled words.now))) }
{
    let mut counting = Counting::new(alloc);
    let mut place = words.len();
    while place > 0 {
        place -= 1;
        counting.put_before(words[place])?;
    }
    Ok(counting.words)
}
