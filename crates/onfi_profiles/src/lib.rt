//! What the profiles have to do with one another. Each law is the contract of a function that does nothing.
#![tactic(auto)]

ghost use Rattle.onfi_profiles.specs.Decoding.{DecodesBase};
ghost use Rattle.onfi_profiles.specs.Judging.{JudgesBase};
ghost use Rattle.onfi_profiles.specs.Tails.{TailsBase};
ghost use Rattle.onfi_profiles.specs.Widening.{Widens};

/// The commands of the base profile are decoded as they were before there was a wider one, and every other byte is that of none of them.
pub fn decodes_base()
    ensures { DecodesBase }
{}

/// What is legal in the base profile is legal in the wider one, whatever the chip has besides, and the one driver of a target gives the same byte.
pub fn widens()
    ensures { Widens }
{}

/// After a past that is legal in the base profile the tail of each target is what it was before there was a wider one.
pub fn tails_base()
    ensures { TailsBase }
{}

/// After such a past an item is judged as it was, by what the rules see of the LUNs.
pub fn judges_base()
    ensures { JudgesBase }
{}
