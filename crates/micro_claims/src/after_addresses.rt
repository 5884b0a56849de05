//! What addresses leave of what is known before them.
ghost use Rattle.std.specs.Prelude.{◌≡◌, if◌then◌else◌, Some};
ghost use Rattle.onfi_cycle.specs.declared.command.Command.TheVariants.{ReadId};
ghost use Rattle.micro_claims.specs.Against.{byte_of_column};
ghost use Rattle.micro_claims.specs.Leaves.{target_after_addresses, id_held, beside_read, features_opened, with_target, identity_read, lun_reset, program_addressed, address_leaves};

use crate::copies::Copies;
use crate::held::Held;
use crate::known_target::KnownTarget;
use crate::last_closer::LastCloser;
use crate::named_row::NamedRow;
use crate::output_column::OutputColumn;
use crate::place::Place;
use crate::planes::Planes;
use crate::shown::DATA_SHOWN;
use crate::span::Span;
use crate::state::State;
use nand_geometry::Geometry;
use onfi_cycle::Command;

// The column that is given, where it is whole now; else the one before.
fn either_column(is_whole: bool, given: Span, before: Option<Span>) -> Option<Span>
    ensures { result ≡ if is_whole then Some given else before }
{
    if is_whole { Some(given) } else { before }
}

// The row that is named, where it is whole now; else the one before.
fn either_name(is_whole: bool, named: NamedRow, before: Option<NamedRow>) -> Option<NamedRow>
    ensures { result ≡ if is_whole then Some named else before }
{
    if is_whole { Some(named) } else { before }
}

// The address byte of the column register that a word begins with.
fn byte_of_column(from: u8, column: u32) -> u8
    ensures { result ≡ byte_of_column from column }
{
    let byte = if from == 0 {
        column % 256
    } else {
        column / 256 % 256
    };
    byte as u8
}

// What Read ID reads by its address.
fn id_held(byte: u8) -> Held
    ensures { result ≡ id_held byte }
{
    match byte {
        0x20 => Held::IDENTIFIER,
        0x40 => Held::JEDEC,
        _ => Held::IDENTITY,
    }
}

impl State {
    // The target after so many addresses.
    fn target_after_addresses(&self, geometry: &Geometry, from: u8, count: u8) -> KnownTarget
        ensures { result ≡ target_after_addresses geometry.now self.now from count }
    {
        let end = u32::from(from) + u32::from(count);
        let target = self.target;
        let given = self.registers.column.copied();
        let column = either_column(from <= 1 && end >= 2, given, target.column);
        let named = either_name(end >= 5, self.registers.row(geometry), target.named);
        KnownTarget {
            tail: target.tail.after_addresses(count),
            column,
            named,
            shows: target.shows,
        }
    }

    // After the address of an opener that reads what stands beside the array: no page is held.
    fn read_beside(&mut self, busy: bool, held: Held)
        ensures { self.new ≡ beside_read busy held self.old }
    {
        self.target = KnownTarget::closed(DATA_SHOWN);
        self.lun.busy = busy;
        self.lun.register = Some(held);
        self.lun.column = Some(OutputColumn::first());
        self.lun.last = LastCloser::OTHER;
        self.lun.held = Planes::none();
        self.lun.array = Planes::none();
        self.lun.copies = Copies::none();
        self.lun.programming = false;
    }

    // After the address of Read ID, which is a byte of the column.
    fn read_id(&mut self, from: u8)
        ensures { self.new ≡ identity_read self.old from ReadId }
    {
        let held = id_held(byte_of_column(from, self.registers.column.lo()));
        self.read_beside(self.lun.busy, held);
    }

    // After the address of Set Features.
    fn open_features(&mut self)
        ensures { self.new ≡ features_opened self.old }
    {
        self.target = KnownTarget {
            tail: Place::InFeatures { inputs: 0 },
            column: None,
            named: None,
            shows: self.target.shows,
        };
    }

    // After so many addresses of the sequence.
    fn go_on(&mut self, geometry: &Geometry, from: u8, count: u8)
        ensures { self.new ≡ with_target self.old (target_after_addresses geometry.now self.old from count) }
    {
        self.target = self.target_after_addresses(geometry, from, count);
    }

    // After so many addresses of Reset LUN, behind so many others.
    fn reset_lun(&mut self, geometry: &Geometry, from: u8, count: u8, before: u8)
        ensures { self.new ≡ lun_reset geometry.now self.old from count before }
    {
        if usize::from(before) + usize::from(count) == Command::ResetLun.address_cycles() {
            self.reset();
        } else {
            self.go_on(geometry, from, count);
        }
    }

    // After so many addresses of Page Program, behind so many others: the last of its row leaves no page.
    fn address_program(&mut self, geometry: &Geometry, from: u8, count: u8, before: u8)
        ensures { self.new ≡ program_addressed geometry.now self.old from count before }
    {
        if usize::from(before) + usize::from(count) == Command::PageProgram.address_cycles() {
            self.lun.held = Planes::none();
            self.lun.copies = self.lun.copies.cleared();
            self.go_on(geometry, from, count);
        } else {
            self.go_on(geometry, from, count);
        }
    }

    // After so many addresses.
    pub(crate) fn take_addresses(&mut self, geometry: &Geometry, from: u8, count: u8)
        ensures { self.new ≡ address_leaves geometry.now self.old from count }
    {
        match self.target.tail {
            Place::After { opener, addresses } => match opener {
                Command::ReadId => self.read_id(from),
                Command::ReadParameterPage => self.read_beside(true, Held::PARAMETERS),
                Command::ReadUniqueId => self.read_beside(true, Held::UNIQUE_ID),
                Command::GetFeatures => self.read_beside(true, Held::FEATURE),
                Command::SetFeatures => self.open_features(),
                Command::ResetLun => self.reset_lun(geometry, from, count, addresses),
                Command::PageProgram => self.address_program(geometry, from, count, addresses),
                _ => self.go_on(geometry, from, count),
            },
            _ => self.go_on(geometry, from, count),
        }
    }
}
