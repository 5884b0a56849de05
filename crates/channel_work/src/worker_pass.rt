//! The passes of a channel's workers.
ghost use Rattle.std.specs.Prelude.{◌≡◌};

use std::marker::{Brand, Model};
use std::sync::ledger::{Ledger, Share};

/// How many passes a channel hands out.
pub(crate) const MAX_PASSES: u32 = 8;

/// The name of a channel: a ledger of the turns of its workers, and where it began.
pub trait Turns: Ledger {
    /// Its parts: one for each pass, and one that stays.
    ghost all: { ℕ };

    /// The channel and the queue that it began with, where that is told.
    ghost origin: { Option Origin };

    ghost use Rattle.std.specs.Prelude.{ℕ, Option};
    ghost use Rattle.channel_work.specs.Origin.{Origin};
}

impl Turns for Brand {
    ghost all = { 9 };

    ghost origin = { None };

    ghost use Rattle.std.specs.Prelude.{None};
}

/// A worker's right to take turns, which counts them.
#[derive(Drop)]
pub struct WorkerPass<L: Turns> {
    pub(crate) number: u32,
    pub(crate) turns: u64,
    pub(crate) share: Share<L>,
}

impl<L: Turns> Model for WorkerPass<L> {
    ghost use Rattle.std.specs.Prelude.{◌≡◌};
    ghost use Rattle.channel_work.specs.State.{PassView};

    ghost Value = { PassView };

    ghost view = { λ p. record { number = p.number; turns = p.turns } };

    ghost invariant = { λ p. (p.share.parts ≡ 1) × (p.share.amount ≡ p.turns) };
}

impl<L: Turns> WorkerPass<L> {
    /// Its number among the workers of its channel.
    pub fn number(&self) -> u32
        ensures { result ≡ self.now.number }
    {
        self.number
    }
}
