//! The tail of a target, by its facts: one cycle at a time, with nothing kept but the facts.
ghost use Rattle.std.specs.Prelude.{ℕ, [], ◌≡◌, ◌+◌, ◌^◌, ◌<◌, ◌≤◌, true, IfSome};
ghost use Rattle.onfi_cycle.specs.Command.{addresses_the_array, is_change_read_column, is_enhanced_column, is_page_program, is_write_column};
ghost use Rattle.onfi_cycle.specs.Sequence.{AreSmall, target_cycle, begins_anew, goes_on_with, selects_plane, works_on_row, facts_of, facts_after, extended_facts, next_address_place, column_after_address, takes_data, takes_inputs, wants_address, wants_command, wants, is_proper_beginning, is_open, row, row_with, column_with, input_column, target_of};
ghost use Rattle.onfi_cycle.specs.Rules.{ends_row, second_of_page, second_column};
ghost use Rattle.onfi_cycle.specs.Inputs.{fed_tail, takes_fewer_features, has_no_room};

use crate::data_phase::FEATURE_BYTES;
use crate::{Command, DataPhase, Opening, RowBytes, TargetCycle};
use nand_geometry::Geometry;

/// What the rules see of a target's tail, which is its cycles from the last opener on.
#[derive(Clone, Copy, Debug, PartialEq, Eq)]
pub struct TailFacts {
    /// The opener and its address cycles, where nothing else follows it.
    pub opening: Option<Opening>,
    pub phase: DataPhase,
    pub row: RowBytes,
    /// The column that the tail names.
    pub column: u32,
    /// The inputs since the last other cycle.
    pub inputs: usize,
    /// No opener has come yet.
    pub is_empty: bool,
}

// The column after an address byte that stands in this place after the last command.
fn column_after_address(place: usize, byte: u8, column: u32) -> u32
    requires { column < 2 ^ 16 }
    ensures value { result ≡ column_after_address place byte column }
    ensures small { result < 2 ^ 16 }
{
    match place {
        0 => u32::from(byte),
        1 => column % 256 + 256 * u32::from(byte),
        _ => column,
    }
}

impl TailFacts {
    /// The facts of a target that has seen no opener yet.
    pub fn none() -> TailFacts
        ensures value { result ≡ facts_of [] }
        ensures small { (n : ℕ) → AreSmall n result }
    {
        TailFacts {
            opening: None,
            phase: DataPhase::Outside,
            row: RowBytes {
                r1: 0,
                r2: 0,
                r3: 0,
            },
            column: 0,
            inputs: 0,
            is_empty: true,
        }
    }

    // A tail of this opener alone.
    fn opened_by(opener: Command) -> TailFacts
        ensures value { result ≡ extended_facts (TargetCycle.CommandCycle opener) (facts_of []) }
        ensures small { (n : ℕ) → AreSmall n result }
    {
        TailFacts {
            opening: Some(Opening::of(opener)),
            phase: DataPhase::Outside.after_command(opener),
            is_empty: false,
            ..TailFacts::none()
        }
    }

    /// The facts of a tail with one cycle more. An opener that the tail doesn't want begins a tail anew; where there is
    /// no tail, nothing else begins one. The counts grow by one at most, and have room for 2^63 cycles.
    pub fn after(self, cycle: TargetCycle) -> TailFacts
        requires { AreSmall (2 ^ 63) self }
        ensures value { result ≡ facts_after cycle self }
        ensures small { (n : ℕ) → AreSmall n self → AreSmall (n + 1) result }
    {
        let mut tail = self;
        tail.extend(cycle);
        tail
    }

    // Which address byte of its command comes next, from 0.
    fn next_address_place(self) -> usize
        ensures { result ≡ next_address_place self.opening self.phase }
    {
        match (self.opening, self.phase) {
            (Some(opening), _) => opening.addresses,
            (None, DataPhase::FirstColumn) => 0,
            (None, DataPhase::SecondColumn) => 1,
            (None, _) => 2,
        }
    }

    /// An opener goes on with the tail: a Read Cache Sequential that it wants, and a Change Write Column in the data of a program.
    #[inline(always)]
    pub fn goes_on_with(self, command: Command) -> bool
        ensures { result ≡ goes_on_with self command }
    {
        match command {
            Command::ReadCacheSequential | Command::ChangeWriteColumn => {
                self.wants_command(command)
            }
            _ => false,
        }
    }

    // A tail begins anew with this command: with an opener that doesn't go on with it.
    #[inline(always)]
    fn begins_anew(self, command: Command) -> bool
        ensures { result ≡ begins_anew self (TargetCycle.CommandCycle command) }
    {
        command.is_opener() && !self.goes_on_with(command)
    }

    // Goes on with a tail that isn't empty by an address.
    fn extend_by_address(&mut self, byte: u8)
        requires { AreSmall (2 ^ 63) self.old }
        ensures value { self.new ≡ extended_facts (TargetCycle.AddressCycle byte) self.old }
        ensures column { self.new.column < 2 ^ 16 }
        ensures small { (n : ℕ) → AreSmall n self.old → AreSmall (n + 1) self.new }
    {
        self.column = column_after_address((*self).next_address_place(), byte, self.column);
        self.phase = self.phase.after_address(self.opening);
        self.inputs = 0;
        self.is_empty = false;
        if let Some(opening) = self.opening {
            self.opening = Some(opening.with_address());
            self.row = self.row.shifted(byte);
        }
    }

    /// Goes on with a tail by one cycle, as [`after`](TailFacts::after) does.
    #[inline(always)]
    pub fn extend(&mut self, cycle: TargetCycle)
        requires { AreSmall (2 ^ 63) self.old }
        ensures value { self.new ≡ facts_after cycle self.old }
        ensures column { self.new.column < 2 ^ 16 }
        ensures small { (n : ℕ) → AreSmall n self.old → AreSmall (n + 1) self.new }
    {
        match cycle {
            TargetCycle::CommandCycle(command) if self.begins_anew(command) => {
                *self = TailFacts::opened_by(command);
            }
            _ if self.is_empty => {}
            TargetCycle::CommandCycle(command) => {
                self.opening = None;
                self.phase = self.phase.after_command(command);
                self.inputs = 0;
            }
            TargetCycle::AddressCycle(byte) => self.extend_by_address(byte),
            TargetCycle::InputCycle(_) => {
                self.opening = None;
                self.phase = self.phase.after_input(self.inputs);
                self.inputs += 1;
            }
            TargetCycle::OutputCycle => {
                self.opening = None;
                self.phase = DataPhase::Outside;
                self.inputs = 0;
            }
        }
    }

    /// Goes on with a tail that is in the data of a program by so many inputs, one at least.
    pub(crate) fn extend_by_inputs(&mut self, count: usize)
        requires { self.old.inputs + count < 2 ^ 63 }
        ensures { self.new ≡ fed_tail count self.old }
    {
        self.opening = None;
        self.inputs += count;
        self.is_empty = false;
    }

    /// The tail goes on with this address.
    pub fn wants_address(self, byte: u8) -> bool
        ensures { result ≡ wants_address self byte }
    {
        let opens = match self.opening {
            None => false,
            Some(opening) => opening.wants_address(byte),
        };
        opens || self.phase.wants_column()
    }

    /// The tail goes on with this command, which closes its sequence or is amid its data.
    #[inline(always)]
    pub fn wants_command(self, command: Command) -> bool
        ensures { result ≡ wants_command self command }
    {
        match command {
            Command::ChangeWriteColumn
            | Command::ProgramConfirm
            | Command::ProgramPlane
            | Command::ProgramCache => { self.phase.takes_data() }
            _ => match self.opening {
                None => false,
                Some(opening) => opening.is_closed_by(command),
            },
        }
    }

    /// The sequence is a Change Read Column Enhanced with its row, which E0h closes.
    pub fn selects_plane(self) -> bool
        ensures { result ≡ selects_plane self }
    {
        match self.opening {
            None => false,
            Some(opening) => {
                opening.opener == Command::ChangeReadColumnEnhanced && opening.addresses == 5
            }
        }
    }

    /// The command works on the row of the tail: the closers of a row, of which 31h is one where the tail wants it, and E0h one
    /// behind 06h.
    pub fn works_on_row(self, command: Command) -> bool
        ensures { result ≡ works_on_row self command }
    {
        match command {
            Command::ReadCacheSequential => self.wants_command(command),
            Command::ChangeReadColumnConfirm => self.selects_plane(),
            _ => command.closes_row(),
        }
    }

    /// The tail with this cycle is a beginning of a sequence (docs/model/MODEL.md, "Sequences").
    pub fn wants(self, cycle: TargetCycle) -> bool
        ensures { result ≡ wants self cycle }
    {
        match cycle {
            TargetCycle::CommandCycle(command) => self.wants_command(command),
            TargetCycle::AddressCycle(byte) => self.wants_address(byte),
            TargetCycle::InputCycle(_) => self.phase.takes_inputs(),
            TargetCycle::OutputCycle => false,
        }
    }

    /// The tail has begun a sequence of the table and not ended it. A lone 00h doesn't count.
    #[inline(always)]
    pub fn is_open(self) -> bool
        ensures { result ≡ is_open self }
    {
        let opens = match self.opening {
            None => false,
            Some(opening) => opening.opener.is_proper_beginning(opening.addresses),
        };
        opens || self.phase.takes_inputs() || self.phase.wants_column()
    }

    /// The next address is the last of a row.
    pub(crate) fn ends_row(self) -> bool
        ensures { result ≡ ends_row (λ c. true) self }
    {
        match self.opening {
            None => false,
            Some(opening) => opening.is_at_last_row(),
        }
    }

    /// The next address is the last of a row of a LUN that has to be ready.
    pub(crate) fn ends_array_row(self) -> bool
        ensures { result ≡ ends_row addresses_the_array self }
    {
        match self.opening {
            None => false,
            Some(opening) => opening.opener.addresses_the_array() && opening.is_at_last_row(),
        }
    }

    /// The next address is the second column cycle of a Read, a Change Read Column Enhanced, a program or a Change Write Column.
    pub(crate) fn is_at_second_column_of_page(self) -> bool
        ensures { result ≡ second_of_page self }
    {
        let opens = match self.opening {
            None => false,
            Some(opening) => {
                matches!(
                    opening.opener,
                    Command::Read
                        | Command::ChangeReadColumnEnhanced
                        | Command::PageProgram
                        | Command::ChangeWriteColumn
                ) && opening.addresses == 1
            }
        };
        opens || self.phase.wants_second_column()
    }

    /// The next address is the second column cycle of a Change Read Column.
    pub(crate) fn is_at_second_column_of_register(self) -> bool
        ensures { result ≡ second_column is_change_read_column self }
    {
        match self.opening {
            None => false,
            Some(opening) => {
                opening.opener == Command::ChangeReadColumn && opening.addresses == 1
            }
        }
    }

    /// The next address is the last of the row of a Page Program.
    pub(crate) fn ends_program_row(self) -> bool
        ensures { result ≡ ends_row is_page_program self }
    {
        match self.opening {
            None => false,
            Some(opening) => opening.ends_program_row(),
        }
    }

    /// The next address is the last of the row of a Copyback Program.
    pub(crate) fn ends_copyback_row(self) -> bool
        ensures { result ≡ ends_row is_write_column self }
    {
        match self.opening {
            None => false,
            Some(opening) => opening.ends_copyback_row(),
        }
    }

    /// The next address is the last of the row of a Change Read Column Enhanced.
    pub(crate) fn ends_plane_row(self) -> bool
        ensures { result ≡ ends_row is_enhanced_column self }
    {
        match self.opening {
            None => false,
            Some(opening) => {
                opening.opener == Command::ChangeReadColumnEnhanced && opening.is_at_last_row()
            }
        }
    }

    /// The number of the row that the tail names.
    pub fn named_row(self) -> u32
        ensures value { result ≡ row self }
        ensures small { result < 2 ^ 24 }
    {
        self.row.number()
    }

    /// The number of the row with one address byte more.
    pub fn row_with(self, byte: u8) -> u32
        ensures value { result ≡ row_with self byte }
        ensures small { result < 2 ^ 24 }
    {
        self.row.shifted(byte).number()
    }

    /// The column with its second address byte.
    pub fn column_with(self, byte: u8) -> u32
        ensures value { result ≡ column_with self byte }
        ensures small { result < 2 ^ 16 }
    {
        self.column % 256 + 256 * u32::from(byte)
    }

    /// The column of the next input of a program.
    pub fn input_column(self) -> u64
        requires { (self.column < 2 ^ 16) × (self.inputs < 2 ^ 63) }
        ensures { result ≡ input_column self }
    {
        u64::from(self.column) + self.inputs as u64
    }

    /// A Set Features takes fewer inputs more than these.
    pub(crate) fn takes_fewer_features(self, count: usize) -> bool
        requires { self.inputs < 2 ^ 63 }
        ensures { result ≡ takes_fewer_features count self }
    {
        FEATURE_BYTES < self.inputs || FEATURE_BYTES - self.inputs < count
    }

    /// The page has no place for so many inputs more.
    pub(crate) fn has_no_room(self, geometry: &Geometry, count: usize) -> bool
        requires { (self.column < 2 ^ 16) × (self.inputs < 2 ^ 63) }
        ensures { result ≡ has_no_room geometry.now count self }
    {
        let len = u64::from(geometry.page_len());
        let column = self.input_column();
        len < column || len - column < count as u64
    }
}
