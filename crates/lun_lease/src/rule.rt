// The rule of the table: who holds which LUN, and one list of all calls in which each answer is true.
use atomic_table::{Join, Play, Split, TableRule};
use std::collections::LinkedList;

/// A call on the table: a claim that was given its LUN, a claim that found it held, or a release.
pub enum Call {
    Given(u32),
    Refused(u32),
    Released(u32),
}

/// What a seat knows: the LUN that it holds, the calls that it made, and how many parts of its table it has. A table has sixteen, and
/// who holds a LUN has one. No value of it is made. A second LUN lies beside the first only while two leases are compared.
pub struct View {
    pub holds: Option<u32>,
    pub beside: Option<u32>,
    pub calls: LinkedList<Call>,
    pub parts: u64,
}

pub struct LeaseRule;

impl TableRule<(), View, ()> for LeaseRule {
    ghost use Rattle.lun_lease.specs.Rule.{Keeps, bare};
    ghost use Rattle.std.specs.Prelude.{[]};

    ghost holds = { λ _ s. Keeps s };

    ghost first = { λ _. bare 16 [] };
}

/// A claim.
pub struct Claims;

impl Play<(), View> for Claims {
    ghost use Rattle.lun_lease.specs.Rule.{TellsClaim};

    ghost then = { TellsClaim };
}

/// A release.
pub struct Releases;

impl Play<(), View> for Releases {
    ghost use Rattle.lun_lease.specs.Rule.{TellsRelease};

    ghost then = { TellsRelease };
}

/// A look that changes nothing, and tells that the two LUNs of a view differ.
pub struct Compares;

impl Play<(), View> for Compares {
    ghost use Rattle.lun_lease.specs.Rule.{TellsApart};

    ghost then = { TellsApart };
}

/// A seat that has made no call, with a part of one that holds nothing.
pub struct Deals;

impl Split<View> for Deals {
    ghost use Rattle.lun_lease.specs.Rule.{bare, newcomer};
    ghost use Rattle.std.specs.Prelude.{◌-◌};

    ghost left = { λ v. bare (v.parts - 1) v.calls };

    ghost right = { λ _. newcomer };
}

/// A seat lends its LUN and its part to a new seat.
pub struct Lends;

impl Split<View> for Lends {
    ghost use Rattle.lun_lease.specs.Rule.{view, bare};
    ghost use Rattle.std.specs.Prelude.{[]};

    ghost left = { λ v. bare 0 v.calls };

    ghost right = { λ v. view v.holds [] };
}

/// A lent LUN comes to lie beside another.
pub struct LaysBeside;

impl Join<View> for LaysBeside {
    ghost use Rattle.lun_lease.specs.Rule.{bare};
    ghost use Rattle.std.specs.Prelude.{◌+◌, []};

    ghost both = { λ v w. record { holds = v.holds; beside = w.holds; calls = v.calls; parts = v.parts + w.parts } };

    ghost spent = { bare 0 [] };
}

/// The LUN that lies beside goes to a new seat again.
pub struct PutsAside;

impl Split<View> for PutsAside {
    ghost use Rattle.lun_lease.specs.Rule.{view};
    ghost use Rattle.std.specs.Prelude.{[]};

    ghost left = { λ v. view v.holds v.calls };

    ghost right = { λ v. view v.beside [] };
}

/// A seat has its LUN back.
pub struct TakesBack;

impl Join<View> for TakesBack {
    ghost use Rattle.lun_lease.specs.Rule.{view, bare};
    ghost use Rattle.std.specs.Prelude.{[]};

    ghost both = { λ v w. view w.holds v.calls };

    ghost spent = { bare 0 [] };
}
