//! The widths of the codes of a dump.
ghost use Rattle.std.specs.Prelude.{◌≡◌, IfOk, length, ◌≤◌};
ghost use Rattle.vcd_text.specs.Body.{width_of};
ghost use Rattle.vcd_text.specs.Widths.{AreShort};

use std::alloc::{AllocError, Allocator};
use std::collections::BTreeMap;
use std::marker::Model;

/// So many codes of one character have a place of their own: what is printed in ASCII.
const CODES: u64 = 128;

/// The widths that a header declares, by the numbers of their codes, made for looking them up at each change.
#[derive(Debug, Drop)]
pub struct Widths<A: Allocator> {
    all: BTreeMap<u64, usize, A>,
    // Those of codes of one character.
    short: Vec<Option<usize>, A>,
}

impl<A: Allocator> Model for Widths<A> {
    ghost use Rattle.vcd_text.specs.Body.{Widths};
    ghost use Rattle.vcd_text.specs.Widths.{AreShort};

    ghost Value = { Widths };

    ghost view = { λ w. w.all.entries };

    ghost invariant = { λ w. AreShort w.all.entries 0 w.short.items };
}

impl<A: Allocator> Widths<A> {
    /// Those of [`Header::widths`](crate::Header::widths).
    #[tactic(auto, using(crate::proofs::Looking::short_more))]
    pub fn of(alloc: A, all: BTreeMap<u64, usize, A>) -> Result<Widths<A>, AllocError>
        ensures { IfOk result (λ w. w ≡ all.entries) }
    {
        let mut short = Vec::new(alloc);
        for code in 0..CODES {
            short.push(all.get(&code).copied())?;
        }
        Ok(Widths { all, short })
    }

    /// The width of a code, if it is declared.
    #[inline(always)]
    pub fn get(&self, code: u64) -> Option<usize>
        ensures { result ≡ width_of self.now code }
    {
        if code < self.short.len() as u64 {
            return self.short.as_slice()[code as usize];
        }
        self.all.get(&code).copied()
    }
}
