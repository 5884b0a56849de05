//! The header of a dump.
ghost use Rattle.std.specs.Prelude.{◌≡◌, ◌+◌, ◌<◌, ◌≤◌, ◌^◌, [], ◌∷◌, ◌++◌, Ok, Err, IfErr, IfOk, OnOk};
ghost use Rattle.vcd_text.specs.Body.{width_of};
ghost use Rattle.vcd_text.specs.Header.{widened, declared, closed};
ghost use Rattle.vcd_text.specs.Sections.{shown_section, shown_variable, shown_variables, shown_header, IsStop};

use crate::fault::DumpFault;
use crate::section::{Keyword, Section, Variable};
use std::alloc::Allocator;
use std::collections::BTreeMap;

/// What the header of a dump declares.
#[derive(Debug, Drop)]
pub struct Header<'a, A: Allocator> {
    /// The names, in the order of the file.
    pub variables: Vec<Variable<'a>, A>,
    /// The widths of the codes, by their numbers ([`code_of`](crate::code_of)); 0 is that of a code whose values have no bits.
    pub widths: BTreeMap<u64, usize, A>,
}

// Why a section isn't taken.
#[derive(Clone, Copy)]
pub(crate) enum SectionStop {
    Fault(DumpFault),
    OutOfMemory,
}

impl<'a, A: Allocator + Clone> Header<'a, A> {
    // The code has this width; it keeps the one that it was declared with first.
    fn widen(&mut self, code: u64, width: usize) -> Result<(), SectionStop>
        ensures ok { OnOk result (widened (width_of self.old.widths.entries code) self.old.widths.entries code width ≡ Ok self.new.widths.entries) }
        ensures err { IfErr result (λ e. IsStop e (widened (width_of self.old.widths.entries code) self.old.widths.entries code width)) }
        ensures variables { self.new.variables ≡ self.old.variables }
    {
        match self.widths.get(&code).copied() {
            Some(was) => {
                if was == width {
                    Ok(())
                } else {
                    Err(SectionStop::Fault(DumpFault::TwoWidths))
                }
            }
            None => match self.widths.insert(code, width) {
                Ok(_) => Ok(()),
                Err(_) => Err(SectionStop::OutOfMemory),
            },
        }
    }

    fn add(&mut self, variable: Variable<'a>) -> Result<(), SectionStop>
        ensures ok { OnOk result (shown_variables self.new.variables.items ≡ shown_variables self.old.variables.items ++ shown_variable variable.entry ∷ []) }
        ensures widths { self.new.widths ≡ self.old.widths }
        ensures err { IfErr result (λ e. e ≡ SectionStop.OutOfMemory) }
    {
        match self.variables.push(variable) {
            Ok(()) => Ok(()),
            Err(_) => Err(SectionStop::OutOfMemory),
        }
    }

    // The section declares a name.
    fn declare(&mut self, section: Section<'a>) -> Result<(), SectionStop>
        ensures ok { OnOk result (declared (shown_header self.old) (shown_section section.entry) ≡ Ok (shown_header self.new)) }
        ensures err { IfErr result (λ e. IsStop e (declared (shown_header self.old) (shown_section section.entry))) }
    {
        match section.variable() {
            Ok(variable) => match self.widen(variable.code, variable.width) {
                Ok(()) => self.add(variable),
                Err(stop) => Err(stop),
            },
            Err(fault) => Err(SectionStop::Fault(fault)),
        }
    }

    // The section ends.
    pub(crate) fn close(&mut self, section: Section<'a>) -> Result<(), SectionStop>
        ensures ok { OnOk result (closed (shown_header self.old) (shown_section section.entry) ≡ Ok (shown_header self.new)) }
        ensures err { IfErr result (λ e. IsStop e (closed (shown_header self.old) (shown_section section.entry))) }
    {
        match section.keyword {
            Keyword::Skipped | Keyword::EndDefinitions => Ok(()),
            Keyword::Timescale => {
                if section.is_timescale() {
                    Ok(())
                } else {
                    Err(SectionStop::Fault(DumpFault::BadTimescale))
                }
            }
            Keyword::Variable => self.declare(section),
        }
    }
}
