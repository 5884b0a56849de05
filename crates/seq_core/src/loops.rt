//! The loops of a program that go on, and the place after a word.
ghost use Rattle.std.specs.Prelude.{◌≡◌, ◌<◌, ◌≤◌, length, reverse};
ghost use Rattle.seq_core.specs.Loops.{next_place, next_loops, place_behind, loops_behind};

use arrayvec::ArrayVec;
use micro_word::Word;

/// How deep loops are nested at most.
pub(crate) const DEPTH: usize = 4;

/// A loop that goes on: the place of its first word, and how many turns are left after this one.
#[derive(Clone, Copy, Debug, Default, PartialEq, Eq)]
pub(crate) struct OpenLoop {
    pub start: usize,
    pub left: u16,
}

// After the last word of a loop: its first word if a turn is left, else the word that follows.
fn next(at: usize, loops: &mut ArrayVec<OpenLoop, DEPTH>) -> usize
    requires { at < 1024 }
    ensures place { result ≡ next_place at (reverse loops.old.items) }
    ensures loops { reverse loops.new.items ≡ next_loops (reverse loops.old.items) }
{
    // There are few, so one that goes on finds its place again.
    let _ = loops.len();
    match loops.pop() {
        None => at + 1,
        Some(OpenLoop { left: 0, .. }) => at + 1,
        Some(OpenLoop { start, left }) => {
            loops.push(OpenLoop {
                start,
                left: left - 1,
            });
            start
        }
    }
}

/// Goes past a word: the place that follows, while `loops` become those around it, the innermost last. The status is that of
/// the last poll.
pub(crate) fn go_behind(
    at: usize,
    loops: &mut ArrayVec<OpenLoop, DEPTH>,
    status: u8,
    word: Word,
) -> usize
    requires inside { at < 1024 }
    requires room { length (loops_behind at (reverse loops.old.items) word) ≤ 4 }
    ensures place { result ≡ place_behind at (reverse loops.old.items) status word }
    ensures loops { reverse loops.new.items ≡ loops_behind at (reverse loops.old.items) word }
{
    match word {
        Word::Loop { turns } => {
            loops.push(OpenLoop {
                start: at + 1,
                left: turns.saturating_sub(1),
            });
            at + 1
        }
        Word::Next => next(at, loops),
        Word::Jump { target } => usize::from(target),
        Word::BranchOnStatus { mask, target } if status & mask != 0 => usize::from(target),
        _ => at + 1,
    }
}
