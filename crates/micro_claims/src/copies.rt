//! What is known of the pages that a program may copy.
ghost use Rattle.std.specs.Prelude.{◌≡◌};
ghost use Rattle.micro_claims.specs.Copies.{parity_of, if_even, if_odd, copies_moved, copies_queued, copies_cleared, first_copies, more_copies};
ghost use Rattle.micro_claims.specs.Joins.{joined_copies};
ghost use Rattle.micro_claims.specs.Order.{are_copies_within};
ghost use Rattle.micro_claims.specs.State.{no_copies, uncopied};

use crate::drift::Drift;
use crate::flags::may_within;
use crate::planes::Planes;

/// What is known of the pages that a program may copy, of those that the LUN holds.
#[derive(Clone, Copy)]
pub struct Copies {
    /// The planes whose page was read surely an even number of rows from where the index register is.
    pub even: Planes,
    /// Those whose page was read surely an odd number of rows from there.
    pub odd: Planes,
    /// The last closer is surely a 35h.
    pub copying: bool,
    /// The last closer is surely a 35h or an 11h.
    pub keeps: bool,
    /// Some page may be held.
    pub holds: bool,
}

// Pages of two rows so far from each other are surely both even or both odd, or surely not.
pub(crate) fn parity_of(pages: u32, distance: Option<Drift>) -> Option<bool>
    ensures { result ≡ parity_of pages distance }
{
    match distance {
        None => None,
        Some(drift) => {
            if drift.ahead == drift.behind {
                Some(true)
            } else if pages.is_multiple_of(2) {
                Some((u64::from(drift.ahead) + u64::from(drift.behind)).is_multiple_of(2))
            } else {
                None
            }
        }
    }
}

// These planes, where it is even.
fn if_even(parity: Option<bool>, planes: Planes) -> Planes
    ensures { result ≡ if_even parity planes }
{
    match parity {
        Some(true) => planes,
        Some(false) | None => Planes::none(),
    }
}

// These planes, where it is odd.
fn if_odd(parity: Option<bool>, planes: Planes) -> Planes
    ensures { result ≡ if_odd parity planes }
{
    match parity {
        Some(false) => planes,
        Some(true) | None => Planes::none(),
    }
}

impl Copies {
    /// No page is held.
    pub fn none() -> Copies
        ensures { result ≡ no_copies }
    {
        Copies {
            even: Planes::none(),
            odd: Planes::none(),
            copying: false,
            keeps: false,
            holds: false,
        }
    }

    // Pages may be held, and no program may copy one.
    pub(crate) fn uncopied() -> Copies
        ensures { result ≡ uncopied }
    {
        Copies {
            even: Planes::none(),
            odd: Planes::none(),
            copying: false,
            keeps: false,
            holds: true,
        }
    }

    // Behind a 35h that leaves no page that was held before it: those of these planes are as far from the index register.
    pub(crate) fn first(parity: Option<bool>, planes: Planes) -> Copies
        ensures { result ≡ first_copies parity planes }
    {
        Copies {
            even: if_even(parity, planes),
            odd: if_odd(parity, planes),
            copying: true,
            keeps: true,
            holds: true,
        }
    }

    // Behind a 35h of one of these planes, beside pages that were held before it.
    pub(crate) fn with(self, parity: Option<bool>, planes: Planes) -> Copies
        ensures { result ≡ more_copies parity planes self }
    {
        if !planes.is_one() {
            return Copies::first(None, planes);
        }
        Copies {
            even: if_even(parity, planes).or(planes.others(self.even)),
            odd: if_odd(parity, planes).or(planes.others(self.odd)),
            copying: true,
            keeps: true,
            holds: true,
        }
    }

    // Behind a move of the index register.
    pub(crate) fn moved(self, parity: Option<bool>) -> Copies
        ensures { result ≡ copies_moved parity self }
    {
        match parity {
            None => Copies {
                even: Planes::none(),
                odd: Planes::none(),
                ..self
            },
            Some(true) => self,
            Some(false) => Copies {
                even: self.odd,
                odd: self.even,
                ..self
            },
        }
    }

    // Behind an 11h, which leaves the pages.
    pub(crate) fn queued(self) -> Copies
        ensures { result ≡ copies_queued self }
    {
        Copies {
            copying: false,
            keeps: true,
            ..self
        }
    }

    // Behind the row of an 80h, which leaves none.
    pub(crate) fn cleared(self) -> Copies
        ensures { result ≡ copies_cleared self }
    {
        Copies {
            even: Planes::none(),
            odd: Planes::none(),
            holds: false,
            ..self
        }
    }

    pub(crate) fn are_within(self, other: Copies) -> bool
        ensures { result ≡ are_copies_within self other }
    {
        other.even.are_within(self.even)
            && other.odd.are_within(self.odd)
            && may_within(other.copying, self.copying)
            && may_within(other.keeps, self.keeps)
            && may_within(self.holds, other.holds)
    }

    pub(crate) fn join(self, other: Copies) -> Copies
        ensures { result ≡ joined_copies self other }
    {
        Copies {
            even: self.even.and(other.even),
            odd: self.odd.and(other.odd),
            copying: self.copying && other.copying,
            keeps: self.keeps && other.keeps,
            holds: self.holds || other.holds,
        }
    }
}
