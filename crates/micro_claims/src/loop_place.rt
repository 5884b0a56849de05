//! The places of a loop.
ghost use Rattle.std.specs.Prelude.{◌≡◌};
ghost use Rattle.micro_claims.specs.Order.{span_in_loop};

use crate::span::Span;

/// A place of a loop: where a turn begins, where one of so many turns but the first begins, and after the last of them.
#[derive(Clone, Copy)]
pub enum LoopPlace {
    Head,
    Heads { turns: u16 },
    After { turns: u16 },
}

impl LoopPlace {
    pub(crate) fn number(self, entry: Span, end: Span) -> Span
        ensures { result ≡ span_in_loop self entry end }
    {
        match self {
            LoopPlace::Head => end.at_head(),
            LoopPlace::Heads { turns } => entry.at_heads(end, turns),
            LoopPlace::After { turns } => entry.after_turns(end, turns),
        }
    }
}
