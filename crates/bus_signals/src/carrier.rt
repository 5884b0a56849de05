//! What a signal is, and which of its bits is a line.
ghost use Rattle.std.specs.Prelude.{◌≡◌, ◌++◌, true, false, IfOk, OnOk};
ghost use Rattle.vcd_text.specs.Sections.{shown_variable, shown_variables};
ghost use Rattle.bus_signals.specs.Roles.{carrier_as, is_name, given_if, given_carriers, carriers_for, carriers_of, is_shared, is_number, is_none, only_bit, single, is_bit, numbered, of_lun, bit_by, bit_for};

use crate::mapping::{Mapping, is_given, role_given};
use crate::names::{Family, Meaning, named, plain_of};
use crate::role::Role;
use crate::spot::{Spot, place_in};
use std::alloc::{AllocError, Allocator};
use vcd_text::Variable;

/// What a signal is: what its name or that which it was given tells, its bits, its width, and its code.
#[derive(Clone, Copy, Debug, PartialEq, Eq)]
pub struct Carrier {
    pub meaning: Meaning,
    pub spot: Spot,
    pub width: u64,
    pub code: u64,
    /// A caller said what it is.
    pub is_given: bool,
}

// A signal that is what this name tells, as it was given that role or is called so.
fn carrier_as(given: bool, plain: u64, variable: &Variable<'_>) -> Carrier
    ensures { result ≡ carrier_as given plain (shown_variable variable.now) }
{
    Carrier {
        meaning: named(plain),
        spot: Spot::of(variable.name, variable.range),
        width: variable.width as u64,
        code: variable.code,
        is_given: given,
    }
}

// Adds what one mapping gives a signal as, if it is about that.
fn push_given_one<A: Allocator>(
    carriers: &mut Vec<Carrier, A>,
    mapping: Mapping<'_>,
    variable: &Variable<'_>,
) -> Result<(), AllocError>
    ensures { OnOk result (carriers.new.items ≡ carriers.old.items
        ++ given_if (is_name (shown_variable variable.now) mapping.entry.name.now) mapping.entry (shown_variable variable.now)) }
{
    if let Some(plain) = role_given(mapping, variable) {
        carriers.push(carrier_as(true, plain, variable))?;
    }
    Ok(())
}

// Adds all that a signal is given as.
fn push_given<A: Allocator>(
    carriers: &mut Vec<Carrier, A>,
    mappings: &[Mapping<'_>],
    variable: &Variable<'_>,
) -> Result<(), AllocError>
    ensures { OnOk result (carriers.new.items ≡ carriers.old.items ++ given_carriers mappings.now (shown_variable variable.now)) }
{
    for mapping in mappings {
        push_given_one(carriers, *mapping, variable)?;
    }
    Ok(())
}

// Adds what a signal is: all that it is given as, or what its own name tells.
fn push_carriers<A: Allocator>(
    carriers: &mut Vec<Carrier, A>,
    mappings: &[Mapping<'_>],
    variable: &Variable<'_>,
) -> Result<(), AllocError>
    ensures { OnOk result (carriers.new.items ≡ carriers.old.items ++ carriers_for mappings.now (shown_variable variable.now)) }
{
    if is_given(mappings, variable) {
        return push_given(carriers, mappings, variable);
    }
    carriers.push(carrier_as(false, plain_of(variable.name), variable))?;
    Ok(())
}

/// What each signal is; one may be given several roles, and has each of them.
pub fn carriers_of<A: Allocator>(
    alloc: A,
    mappings: &[Mapping<'_>],
    variables: &[Variable<'_>],
) -> Result<Vec<Carrier, A>, AllocError>
    ensures { IfOk result (λ carriers. carriers.items ≡ carriers_of mappings.now (shown_variables variables.now)) }
{
    let mut carriers = Vec::new(alloc);
    for variable in variables {
        push_carriers(&mut carriers, mappings, variable)?;
    }
    Ok(carriers)
}

fn is_number(number: Option<u64>, wanted: u8) -> bool
    ensures { result ≡ is_number number wanted }
{
    match number {
        None => false,
        Some(number) => number == u64::from(wanted),
    }
}

fn is_none(number: Option<u64>) -> bool
    ensures { result ≡ is_none number }
{
    match number {
        None => true,
        Some(_) => false,
    }
}

impl Spot {
    fn is_bit(self) -> bool
        ensures { result ≡ is_bit self }
    {
        matches!(self, Spot::Bit(_))
    }
}

impl Carrier {
    // A signal of one bit.
    fn only_bit(self) -> Option<u64>
        ensures { result ≡ only_bit self }
    {
        if self.width == 1 { Some(0) } else { None }
    }

    // A line of which there is one.
    fn single(self) -> Option<u64>
        ensures { result ≡ single self }
    {
        if is_none(self.meaning.number) {
            self.only_bit()
        } else {
            None
        }
    }

    // A line with a number.
    fn numbered(self, number: u8, least: u64) -> Option<u64>
        ensures { result ≡ numbered self number least }
    {
        if is_none(self.meaning.number) {
            if least <= self.width || self.spot.is_bit() {
                return place_in(self.spot, self.width, u64::from(number));
            }
            return None;
        }
        if is_number(self.meaning.number, number) {
            self.only_bit()
        } else {
            None
        }
    }

    // A line of a LUN.
    fn of_lun(self, ce: u8, lun: u8) -> Option<u64>
        ensures { result ≡ of_lun self ce lun }
    {
        if is_number(self.meaning.number, ce) && is_number(self.meaning.lun, lun) {
            self.only_bit()
        } else {
            None
        }
    }

    fn bit_by(self, role: Role) -> Option<u64>
        ensures { result ≡ bit_by role self }
    {
        match role {
            Role::Enable(number) | Role::ReadyBusy(number) => self.numbered(number, 1),
            Role::Cle | Role::Ale | Role::We | Role::Re => self.single(),
            Role::Dq(bit) => self.numbered(bit, 8),
            Role::Busy { ce, lun } | Role::ArrayBusy { ce, lun } | Role::Failed { ce, lun } => {
                self.of_lun(ce, lun)
            }
        }
    }

    /// It is one R/B# of several targets: a signal of one bit, without a number.
    pub(crate) fn is_shared(self) -> bool
        ensures { result ≡ is_shared self }
    {
        self.meaning.family.number() == Family::ReadyBusy.number()
            && is_none(self.meaning.number)
            && self.width == 1
            && !self.spot.is_bit()
    }

    /// The place from the right of the bit that is this line, if one is.
    pub fn bit_for(self, role: Role) -> Option<u64>
        ensures { result ≡ bit_for role self }
    {
        if role.family().number() == self.meaning.family.number() {
            self.bit_by(role)
        } else {
            None
        }
    }
}
