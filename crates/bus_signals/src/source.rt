//! Where the lines of a bus are among the signals of a capture.
ghost use Rattle.std.specs.Prelude.{◌≡◌, None, Ok, IfOk, IfErr};
ghost use Rattle.bus_signals.specs.Roles.{is_same, source_in, is_same_bit, joined, found_from, shared_by, shared_from, or_other, source_of, role_at, is_there, is_needed, sources_at, sources_of};
ghost use Rattle.bus_signals.specs.Sources.{IsListed, IsAdded, IsRefusalOf};

use crate::carrier::Carrier;
use crate::fault::{RoleFault, RoleRefusal};
use crate::role::Role;
use std::alloc::Allocator;

/// Where a line is: the bit at this place from the right of the code of this number.
#[derive(Clone, Copy, Debug, PartialEq, Eq)]
pub struct Source {
    pub role: Role,
    pub code: u64,
    pub place: u64,
}

fn is_same(first: bool, second: bool) -> bool
    ensures { result ≡ is_same first second }
{
    match (first, second) {
        (true, true) | (false, false) => true,
        (true, false) | (false, true) => false,
    }
}

// Where a line is, if this signal has it, of those that were given their role or of the others.
fn source_in(role: Role, given: bool, carrier: Carrier) -> Option<Source>
    ensures { result ≡ source_in role given carrier }
{
    if !is_same(given, carrier.is_given) {
        return None;
    }
    match carrier.bit_for(role) {
        None => None,
        Some(place) => Some(Source {
            role,
            code: carrier.code,
            place,
        }),
    }
}

impl Source {
    fn is_same_bit(self, other: Source) -> bool
        ensures { result ≡ is_same_bit self other }
    {
        self.code == other.code && self.place == other.place
    }
}

// A line may have two names, but no two signals.
fn joined(
    role: Role,
    found: Option<Source>,
    other: Option<Source>,
) -> Result<Option<Source>, RoleFault>
    ensures { result ≡ joined role found other }
{
    match other {
        None => Ok(found),
        Some(source) => match found {
            None => Ok(Some(source)),
            Some(first) => {
                if first.is_same_bit(source) {
                    Ok(Some(first))
                } else {
                    Err(RoleFault::Twice(role))
                }
            }
        },
    }
}

fn found_in(role: Role, given: bool, carriers: &[Carrier]) -> Result<Option<Source>, RoleFault>
    ensures { result ≡ found_from role given None carriers.now }
{
    let mut found = None;
    for carrier in carriers {
        match joined(role, found, source_in(role, given, *carrier)) {
            Ok(now) => found = now,
            Err(fault) => return Err(fault),
        }
    }
    Ok(found)
}

// Where the R/B# of a target is, if it is this signal with those of other targets.
fn shared_by(role: Role, carrier: Carrier) -> Option<Source>
    ensures { result ≡ shared_by role carrier }
{
    match role {
        Role::ReadyBusy(_) if carrier.is_shared() => Some(Source {
            role,
            code: carrier.code,
            place: 0,
        }),
        Role::ReadyBusy(_)
        | Role::Enable(_)
        | Role::Cle
        | Role::Ale
        | Role::We
        | Role::Re
        | Role::Dq(_)
        | Role::Busy { .. }
        | Role::ArrayBusy { .. }
        | Role::Failed { .. } => None,
    }
}

fn shared_in(role: Role, carriers: &[Carrier]) -> Result<Option<Source>, RoleFault>
    ensures { result ≡ shared_from role None carriers.now }
{
    let mut found = None;
    for carrier in carriers {
        match joined(role, found, shared_by(role, *carrier)) {
            Ok(now) => found = now,
            Err(fault) => return Err(fault),
        }
    }
    Ok(found)
}

// Where a line is by its name, or an R/B# that several targets have.
fn named_source_of(role: Role, carriers: &[Carrier]) -> Result<Option<Source>, RoleFault>
    ensures { result ≡ or_other role carriers.now None }
{
    match found_in(role, false, carriers) {
        Ok(Some(source)) => Ok(Some(source)),
        Ok(None) => shared_in(role, carriers),
        Err(fault) => Err(fault),
    }
}

// Where a line is: what was given goes before what names tell.
fn source_of(role: Role, carriers: &[Carrier]) -> Result<Option<Source>, RoleFault>
    ensures { result ≡ source_of role carriers.now }
{
    match found_in(role, true, carriers) {
        Ok(Some(source)) => Ok(Some(source)),
        Ok(None) => named_source_of(role, carriers),
        Err(fault) => Err(fault),
    }
}

// The line of this number.
fn role_at(number: u8) -> Role
    ensures { result ≡ role_at number }
{
    match number {
        0..=3 => Role::Enable(number),
        4 => Role::Cle,
        5 => Role::Ale,
        6 => Role::We,
        7 => Role::Re,
        8..=15 => Role::Dq(number - 8),
        16..=31 => Role::Busy {
            ce: (number - 16) / 4,
            lun: (number - 16) % 4,
        },
        32..=47 => Role::ArrayBusy {
            ce: (number - 32) / 4,
            lun: (number - 32) % 4,
        },
        48..=63 => Role::Failed {
            ce: (number - 48) / 4,
            lun: (number - 48) % 4,
        },
        _ => Role::ReadyBusy(number - 64),
    }
}

impl Role {
    // A channel of so many targets has the line.
    fn is_there(self, targets: u8) -> bool
        ensures { result ≡ is_there targets self }
    {
        match self {
            Role::Enable(ce)
            | Role::ReadyBusy(ce)
            | Role::Busy { ce, .. }
            | Role::ArrayBusy { ce, .. }
            | Role::Failed { ce, .. } => ce < targets,
            Role::Cle | Role::Ale | Role::We | Role::Re | Role::Dq(_) => true,
        }
    }

    // Without the line nothing can be sampled.
    fn is_needed(self) -> bool
        ensures { result ≡ is_needed self }
    {
        match self {
            Role::Enable(_) | Role::Cle | Role::Ale | Role::We | Role::Re | Role::Dq(_) => true,
            Role::ReadyBusy(_) | Role::Busy { .. } | Role::ArrayBusy { .. } | Role::Failed { .. } =>
                false,
        }
    }
}

// Where a line of a channel of so many targets is; None where it isn't there and isn't needed.
fn source_at(targets: u8, carriers: &[Carrier], role: Role) -> Result<Option<Source>, RoleFault>
    ensures { IsListed result (sources_at targets carriers.now role) }
{
    if !role.is_there(targets) {
        return Ok(None);
    }
    match source_of(role, carriers) {
        Ok(Some(source)) => Ok(Some(source)),
        Ok(None) => {
            if role.is_needed() {
                Err(RoleFault::Missing(role))
            } else {
                Ok(None)
            }
        }
        Err(fault) => Err(fault),
    }
}

// Adds where the line of this number is.
fn add_source<A: Allocator>(
    sources: &mut Vec<Source, A>,
    targets: u8,
    carriers: &[Carrier],
    number: u8,
) -> Result<(), RoleRefusal>
    ensures { IsAdded sources.old.items (sources_at targets carriers.now (role_at number)) result sources.new.items }
{
    match source_at(targets, carriers, role_at(number)) {
        Ok(Some(source)) => match sources.push(source) {
            Ok(()) => Ok(()),
            Err(_) => Err(RoleRefusal::OutOfMemory),
        },
        Ok(None) => Ok(()),
        Err(fault) => Err(RoleRefusal::Fault(fault)),
    }
}

/// Where the lines of a channel of so many targets are among these signals. A line that isn't there, or that two signals have, is told, the first of those;
/// only R/B# and the lines of a LUN needn't be there.
pub fn sources_of<A: Allocator>(
    alloc: A,
    targets: u8,
    carriers: &[Carrier],
) -> Result<Vec<Source, A>, RoleRefusal>
    ensures ok { IfOk result (λ sources. sources_of targets carriers.now ≡ Ok sources.items) }
    ensures err { IfErr result (λ e. IsRefusalOf e (sources_of targets carriers.now)) }
{
    let mut sources = Vec::new(alloc);
    for number in 0..68u8 {
        match add_source(&mut sources, targets, carriers, number) {
            Ok(()) => {}
            Err(refusal) => return Err(refusal),
        }
    }
    Ok(sources)
}
