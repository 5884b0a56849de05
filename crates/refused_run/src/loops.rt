//! The loops that a program is in.
ghost use Rattle.std.specs.Prelude.{◌≡◌, ◌<◌, ◌^◌};
ghost use Rattle.refused_run.specs.Stand.{entered, left, fewer_turns, next_place, loops_after};

/// A loop that goes on: the place of its first word, and how many turns are left after this one.
#[derive(Clone, Copy, Debug, PartialEq, Eq)]
pub struct LoopTurn {
    pub start: usize,
    pub left: u16,
}

/// The loops that a program is in, four at most, the innermost first.
#[derive(Clone, Copy, Debug, PartialEq, Eq)]
pub struct Loops {
    pub first: Option<LoopTurn>,
    pub second: Option<LoopTurn>,
    pub third: Option<LoopTurn>,
    pub fourth: Option<LoopTurn>,
}

impl Loops {
    /// In no loop.
    pub(crate) const NONE: Loops = Loops {
        first: None,
        second: None,
        third: None,
        fourth: None,
    };

    /// A loop more.
    pub(crate) fn enter(self, turn: LoopTurn) -> Loops
        ensures { result ≡ entered self turn }
    {
        Loops {
            first: Some(turn),
            second: self.first,
            third: self.second,
            fourth: self.third,
        }
    }

    // Without the innermost.
    fn leave(self) -> Loops
        ensures { result ≡ left self }
    {
        Loops {
            first: self.second,
            second: self.third,
            third: self.fourth,
            fourth: None,
        }
    }

    /// The place behind the last word of the innermost loop: its first word where a turn is left.
    pub(crate) fn next_place(self, at: usize) -> usize
        requires { at < 2 ^ 16 }
        ensures { result ≡ next_place at self.first }
    {
        match self.first {
            Some(LoopTurn { start, left }) if left != 0 => start,
            Some(_) | None => at + 1,
        }
    }

    /// The loops behind that word.
    pub(crate) fn after_turn(self) -> Loops
        ensures { result ≡ loops_after self self.first }
    {
        match self.first {
            Some(LoopTurn { start, left }) if left != 0 => Loops {
                first: Some(LoopTurn {
                    start,
                    left: left - 1,
                }),
                ..self
            },
            Some(_) | None => self.leave(),
        }
    }
}
