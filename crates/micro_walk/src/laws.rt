//! What always holds of texts that are walked: each function here does nothing, and its contract is a law.

ghost use Rattle.micro_walk.specs.Erase.{EraseIsSafe, ErasesAreAccepted};

/// An erase of one block is safe on every geometry, and among whatever other LUNs do.
pub fn erase_is_safe()
    ensures { EraseIsSafe }
{}

/// A text of erases, with a `wait` after each and `end 0` after them, is accepted on every geometry, however many there are, with
/// a budget of five cycles for each.
pub fn erases_are_accepted()
    ensures { ErasesAreAccepted }
{}

ghost use Rattle.micro_walk.specs.Certified.{StatesMeetLaws};

/// States meet what a certificate asks of a kind of state.
pub fn states_meet_laws()
    ensures { StatesMeetLaws }
{}

ghost use Rattle.micro_walk.specs.Certified.{CertifiedTextsAreSafe};

/// A text with loops and branches is safe, for a geometry inside the limits, where states claimed for its places are its certificate.
pub fn certified_texts_are_safe()
    ensures { CertifiedTextsAreSafe }
{}

ghost use Rattle.micro_claims.specs.Joins.{JoinsClaimLess};

/// What two states both claim is no more than either of them claims.
pub fn joins_claim_less()
    ensures { JoinsClaimLess }
{}

ghost use Rattle.micro_walk.specs.Certified.{ShapeIsNested};

/// A text without a fault of its shape is nested: each loop has its `next`, four are around a word at most, and branches lead forward in
/// the same turn of the same loop. So it is shaped for whoever goes by places.
pub fn shape_is_nested()
    ensures { ShapeIsNested }
{}
