//! The loops of a program that go on, and the place behind a word.
ghost use Rattle.std.specs.Prelude.{◌≡◌, ◌≤◌, ◌<◌, true, [], ◌∷◌, get_or};
ghost use Rattle.seq_core.specs.Loops.{place_behind, loops_behind, next_place, next_loops};
ghost use Rattle.onfiseq_live_c.specs.Job.{loops_in, loop_of, no_loop, opens_loop};

use micro_word::Word;

/// A loop that goes on: the place of its first word, and how many turns are left after this one.
#[repr(C)]
#[derive(Clone, Copy, Default)]
pub struct OnfiseqLoop {
    pub start: u16,
    pub left: u16,
}

/// The loops around a word: the first `depth` of them, the innermost first.
#[repr(C)]
#[derive(Clone, Copy)]
pub struct OnfiseqLoops {
    pub depth: u8,
    pub around: [OnfiseqLoop; 4],
}

/// The place behind a word, and the loops around that.
#[derive(Clone, Copy)]
pub(crate) struct Standing {
    pub at: u16,
    pub loops: OnfiseqLoops,
}

// What stands in the free places.
const NO_LOOP: OnfiseqLoop = OnfiseqLoop { start: 0, left: 0 };

/// No loops.
pub(crate) fn no_loops() -> OnfiseqLoops
    ensures { loops_in result ≡ [] }
{
    OnfiseqLoops {
        depth: 0,
        around: [NO_LOOP; 4],
    }
}

// One loop more, the innermost.
fn pushed(loops: OnfiseqLoops, new: OnfiseqLoop) -> OnfiseqLoops
    requires { loops.depth < 4 }
    ensures value { loops_in result ≡ loop_of new ∷ loops_in loops }
    ensures few { result.depth ≤ 4 }
{
    let [first, second, third, _] = loops.around;
    OnfiseqLoops {
        depth: loops.depth + 1,
        around: [new, first, second, third],
    }
}

// Without the innermost loop.
fn popped(loops: OnfiseqLoops) -> OnfiseqLoops
    requires some { 1 ≤ loops.depth }
    requires few { loops.depth ≤ 4 }
    ensures value { loop_of (get_or loops.around 0 no_loop) ∷ loops_in result ≡ loops_in loops }
    ensures few { result.depth < 4 }
{
    let [_, second, third, fourth] = loops.around;
    OnfiseqLoops {
        depth: loops.depth - 1,
        around: [second, third, fourth, NO_LOOP],
    }
}

// Behind the last word of a loop: its first word if a turn is left, else the word that follows.
fn next(at: u16, loops: OnfiseqLoops) -> Standing
    requires inside { at < 1024 }
    requires few { loops.depth ≤ 4 }
    ensures place { result.at ≡ next_place at (loops_in loops) }
    ensures loops { loops_in result.loops ≡ next_loops (loops_in loops) }
    ensures few { result.loops.depth ≤ 4 }
{
    if loops.depth == 0 {
        return Standing { at: at + 1, loops };
    }
    let inner = loops.around[0];
    let outer = popped(loops);
    if inner.left == 0 {
        return Standing {
            at: at + 1,
            loops: outer,
        };
    }
    Standing {
        at: inner.start,
        loops: pushed(
            outer,
            OnfiseqLoop {
                start: inner.start,
                left: inner.left - 1,
            },
        ),
    }
}

/// Goes past a word. The status is that of the last poll.
pub(crate) fn go_behind(at: u16, loops: OnfiseqLoops, status: u8, word: Word) -> Standing
    requires inside { at < 1024 }
    requires few { loops.depth ≤ 4 }
    requires room { opens_loop word ≡ true → loops.depth < 4 }
    ensures place { result.at ≡ place_behind at (loops_in loops) status word }
    ensures loops { loops_in result.loops ≡ loops_behind at (loops_in loops) word }
    ensures few { result.loops.depth ≤ 4 }
{
    match word {
        Word::Loop { turns } => Standing {
            at: at + 1,
            loops: pushed(
                loops,
                OnfiseqLoop {
                    start: at + 1,
                    left: turns.saturating_sub(1),
                },
            ),
        },
        Word::Next => next(at, loops),
        Word::Jump { target } => Standing { at: target, loops },
        Word::BranchOnStatus { mask, target } if status & mask != 0 => {
            Standing { at: target, loops }
        }
        _ => Standing { at: at + 1, loops },
    }
}
