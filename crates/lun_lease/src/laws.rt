//! What holds in every state that the rule of the table allows: the contract of a function that does nothing.

ghost use Rattle.lun_lease.specs.Laws.{NoTwoHoldOneLun, WordsTellHolders, NoneBesideSixteen};

/// No two seats of one table hold one LUN. A live lease's seat holds its LUN, so no two live leases name one LUN.
pub fn no_two_hold_one_lun()
    ensures { NoTwoHoldOneLun }
{}

/// The word of a LUN is 1 exactly where a seat holds the LUN, and else 0.
pub fn words_tell_holders()
    ensures { WordsTellHolders }
{}

/// Where sixteen seats of a table have one of its sixteen parts and hold nothing, no seat holds a LUN. A [`LeaseSeat`](crate::LeaseSeat)
/// has a part, so none of the LUNs of a new table is held.
pub fn none_beside_sixteen()
    ensures { NoneBesideSixteen }
{}
