//! The reasons against a word, by what is known before it.
ghost use Rattle.std.specs.Prelude.{◌≡◌, ◌^◌, ◌<◌, ◌==◌, ◌&&◌, not};
ghost use Rattle.micro_claims.specs.Against.{next_address, is_of_profile, is_unfit, opener_refused, closer_refused, goes_on_at, may_end_sequence, command_out_of_place, command_past_rows, command_not_for_programs, has_second_column, column_limit, takes_any_byte, takes_identity, is_identity_byte, identity_refused, plane_refused, copied_planes, copy_refused, row_refused, surely_past, address_out_of_place, begins_elsewhere, column_past, row_outside, output_refused, output_past, input_past, may_be_unready};
ghost use Rattle.nand_geometry.specs.Optional.{is_wide};
ghost use Rattle.onfi_cycle.specs.Rules.{excludes_cache, excludes_program};
ghost use Rattle.micro_claims.specs.Reasons.{breaks_cycle_forbidden, breaks_address_unaligned, breaks_handover_in_sequence, breaks_buffer_passed, breaks_row_or_plane_outside, breaks_column_too_large, breaks_no_status, breaks_ends_too_soon, breaks_over_budget, breaks_command_not_allowed, reason_against};
ghost use Rattle.micro_claims.specs.Spans.{bound_plus, is_at_most};
ghost use Rattle.micro_program.specs.Program.{cost};

use crate::bounds::Bounds;
use crate::last_closer::LastCloser;
use crate::limits::{bound_plus, is_at_most};
use crate::place::Place;
use crate::planes::Planes;
use crate::refusal::Reason;
use crate::state::State;
use bitflags::Flags;
use micro_word::Word;
use nand_geometry::Geometry;
use onfi_cycle::{Command, is_undeclared};

/// How many cycles a word costs; a `wait` costs none.
pub fn cost(geometry: &Geometry, word: Word) -> u64
    ensures value { result ≡ cost geometry.now word }
    ensures small { result < 2 ^ 32 }
{
    match word {
        Word::Command { .. } => 1,
        Word::Address { count, .. } => u64::from(count),
        Word::Get { len } | Word::Put { len } => u64::from(len),
        Word::ReadStatus => { if geometry.parts().luns > 1 { 5 } else { 2 } }
        _ => 0,
    }
}

// The chip is read as one of the wider profile.
fn is_wide(geometry: &Geometry) -> bool
    ensures { result ≡ is_wide geometry.now.optional }
{
    geometry.parts().optional.is_wide()
}

// The command is one of the profile of the geometry.
fn is_of_profile(geometry: &Geometry, command: Command) -> bool
    ensures { result ≡ is_of_profile geometry.now command }
{
    command.is_of_base() || command.is_known() && is_wide(geometry)
}

// Not a command of the profile, or one that isn't declared.
fn is_unfit(geometry: &Geometry, command: Command) -> bool
    ensures { result ≡ is_unfit geometry.now command }
{
    !is_of_profile(geometry, command) || is_undeclared(geometry, command)
}

// An opener goes on with the sequence: a Read Cache Sequential or a Change Write Column that the tail wants. Where no copyback is declared no
// Change Write Column begins a sequence.
fn goes_on_at(geometry: &Geometry, command: Command, tail: Place) -> bool
    ensures { result ≡ goes_on_at geometry.now command tail }
{
    match command {
        Command::ReadCacheSequential => tail.wants(command),
        Command::ChangeWriteColumn => {
            tail.wants(command) || !geometry.parts().optional.has_copyback()
        }
        _ => false,
    }
}

// The opener's row names a LUN that does no cache read: a Read may name one in the wider profile, and so may a Change Read Column
// Enhanced.
fn excludes_cache(geometry: &Geometry, opener: Command) -> bool
    ensures { result ≡ excludes_cache geometry.now opener }
{
    match opener {
        Command::Read => !is_wide(geometry),
        Command::ChangeReadColumnEnhanced => false,
        _ => opener.addresses_the_array(),
    }
}

// The opener's row names a LUN whose array is at no program of a 15h.
fn excludes_program(opener: Command) -> bool
    ensures { result ≡ excludes_program opener }
{
    matches!(
        opener,
        Command::Read
            | Command::ChangeReadColumnEnhanced
            | Command::BlockErase
            | Command::ChangeWriteColumn
    )
}

// A reset ends an open sequence in the wider profile.
fn may_end_sequence(geometry: &Geometry, command: Command) -> bool
    ensures { result ≡ may_end_sequence geometry.now command }
{
    command.is_reset() && is_wide(geometry)
}

// Programs may not use the command.
fn is_not_for_programs(geometry: &Geometry, command: Command) -> bool
    ensures { result ≡ command_not_for_programs geometry.now command }
{
    is_unfit(geometry, command)
        || matches!(command, Command::ReadStatus | Command::ReadStatusEnhanced)
        || command.wants_one_lun() && geometry.parts().luns > 1
}

// The second column cycle is among these.
fn has_second_column(from: u8, count: u8) -> bool
    ensures { result ≡ has_second_column from count }
{
    from <= 1 && u32::from(from) + u32::from(count) >= 2
}

// The address of a feature, which may be any byte.
fn takes_any_byte(opener: Command) -> bool
    ensures { result ≡ takes_any_byte opener }
{
    matches!(opener, Command::GetFeatures | Command::SetFeatures)
}

// The address bytes of an opener that reads what stands beside the array, or sets it.
fn takes_identity(geometry: &Geometry, opener: Command, byte: u8) -> bool
    ensures { result ≡ takes_identity geometry.now opener byte }
{
    match opener {
        Command::ReadId => byte == 0x20 || is_wide(geometry) && (byte == 0x00 || byte == 0x40),
        Command::ReadParameterPage | Command::ReadUniqueId => byte == 0x00,
        _ => takes_any_byte(opener),
    }
}

// The byte of the column register is one of them, whatever it may be.
fn is_identity_byte(geometry: &Geometry, opener: Command, from: u8, column: Option<u32>) -> bool
    ensures { result ≡ is_identity_byte geometry.now opener from column }
{
    match column {
        None => from <= 1 && takes_any_byte(opener),
        Some(column) => {
            let byte = if from == 0 {
                column % 256
            } else {
                column / 256 % 256
            };
            from <= 1 && takes_identity(geometry, opener, byte as u8)
        }
    }
}

// A command that programs may not use; and 31h in a text that is not known to have one.
#[tactic(auto, unfolding(crate::specs::Reasons::breaks_command_not_allowed))]
fn breaks_command_not_allowed(geometry: &Geometry, bounds: Bounds, word: Word) -> bool
    ensures { result ≡ breaks_command_not_allowed geometry.now bounds word }
{
    match word {
        Word::Command { byte } => {
            let command = Command::of(byte);
            is_not_for_programs(geometry, command)
                || command == Command::ReadCacheSequential && !bounds.continues_cache_read
        }
        _ => false,
    }
}

impl State {
    // A continued cache read may pass its block.
    fn may_leave_the_block(&self, geometry: &Geometry) -> bool
        ensures { result ≡ not (is_at_most (bound_plus self.now.lun.cached.page.hi 2) geometry.now.pages) }
    {
        let next = bound_plus(self.lun.cached.page.hi(), 2);
        !is_at_most(next, u64::from(geometry.parts().pages))
    }

    // An opener may be refused, though nothing is open.
    fn refuses_opener(&self, geometry: &Geometry, opener: Command) -> bool
        ensures { result ≡ opener_refused geometry.now self.now opener }
    {
        match opener {
            Command::ChangeReadColumn => {
                !self.target.shows_only_data()
                    || self.lun.busy
                    || !self.lun.has_page_or_parameters()
            }
            Command::Read
            | Command::ChangeReadColumnEnhanced
            | Command::BlockErase
            | Command::PageProgram
            | Command::ChangeWriteColumn => self.lun.busy,
            Command::ReadId
            | Command::ReadParameterPage
            | Command::ReadUniqueId
            | Command::GetFeatures
            | Command::SetFeatures => geometry.parts().luns <= 1 && self.lun.may_work(),
            Command::ReadCacheSequential => {
                !self.target.drives()
                    || self.lun.busy
                    || self.lun.last.contains(LastCloser::OTHER)
                    || self.may_leave_the_block(geometry)
            }
            Command::ReadCacheEnd => {
                !self.target.drives()
                    || self.lun.busy
                    || self.lun.last.contains(LastCloser::OTHER)
                    || self.lun.last.contains(LastCloser::READ)
            }
            _ => false,
        }
    }

    // A command that the tail wants may find no driver to work on, a cache read that goes on, or none that may; a 15h may find rows that are
    // queued, or a page that is held.
    fn refuses_closer(&self, geometry: &Geometry, closer: Command) -> bool
        ensures { result ≡ closer_refused geometry.now self.now closer }
    {
        match closer {
            Command::ChangeReadColumnConfirm => {
                !self.target.tail.selects_plane() && !self.target.drives()
            }
            Command::ReadConfirm => is_wide(geometry) && self.lun.last.may_be_31(),
            Command::ReadPlane | Command::CopybackRead => self.lun.last.may_be_31(),
            Command::ReadCacheSequential => !is_wide(geometry) || self.lun.last.may_be_other(),
            Command::ProgramCache => {
                !geometry.parts().optional.has_group_cache() && self.lun.queue.may_be_some()
                    || geometry.parts().optional.has_copyback() && self.lun.copies.holds
            }
            _ => false,
        }
    }

    fn refuses_command(&self, geometry: &Geometry, command: Command) -> bool
        ensures { result ≡ command_out_of_place geometry.now self.now command }
    {
        if is_unfit(geometry, command) {
            false
        } else if command.is_opener() && !goes_on_at(geometry, command, self.target.tail) {
            !may_end_sequence(geometry, command) && self.may_be_open()
                || self.refuses_opener(geometry, command)
        } else {
            !self.target.tail.wants(command) || self.refuses_closer(geometry, command)
        }
    }

    // A continued cache read may go past the rows.
    fn may_pass_rows(&self, geometry: &Geometry, rows: u32, command: Command) -> bool
        ensures { result ≡ command_past_rows geometry.now rows self.now command }
    {
        command == Command::ReadCacheSequential
            && !is_unfit(geometry, command)
            && !self.target.tail.wants(command)
            && !is_at_most(bound_plus(self.lun.cached.index.hi(), 2), u64::from(rows))
    }

    // How long what the column is of may be.
    fn column_limit(&self, geometry: &Geometry) -> u32
        ensures { result ≡ column_limit geometry.now self.now self.now.target.tail }
    {
        match self.target.tail {
            Place::After {
                opener: Command::ChangeReadColumn,
                ..
            } => {
                if self.target.drives() {
                    self.lun.least_length(geometry)
                } else {
                    0
                }
            }
            _ => geometry.page_len(),
        }
    }

    // The one address of an opener that reads what stands beside the array, or sets it, may be refused.
    fn refuses_identity(&self, geometry: &Geometry, from: u8, count: u8) -> bool
        ensures { result ≡ identity_refused geometry.now self.now from count self.now.target.tail }
    {
        match self.target.tail {
            Place::After { opener, .. } => {
                geometry.parts().luns > 1
                    || count != 1
                    || !is_identity_byte(geometry, opener, from, self.registers.column.only())
            }
            _ => false,
        }
    }

    // The row of 06h may be of a plane that holds no page, or something may be queued.
    fn refuses_plane(&self, opener: Command) -> bool
        ensures { result ≡ plane_refused self.now opener }
    {
        opener == Command::ChangeReadColumnEnhanced
            && (self.lun.queue.may_be_some() || !self.registers.planes.are_within(self.lun.held))
    }

    // The planes whose page a program may copy to a row, as far as its parity goes.
    fn copied_planes(&self, geometry: &Geometry) -> Planes
        ensures { result ≡ copied_planes geometry.now self.now.lun }
    {
        if geometry.parts().optional.has_odd_even() {
            self.lun.held
        } else {
            self.lun.copies.even
        }
    }

    // The row of 85h may be of a plane that holds no page to be copied there; that of 80h may come in a group of copies.
    fn refuses_copy(&self, geometry: &Geometry, opener: Command) -> bool
        ensures { result ≡ copy_refused geometry.now self.now opener }
    {
        match opener {
            Command::ChangeWriteColumn => {
                !self.lun.copies.keeps
                    || !self
                        .registers
                        .planes
                        .are_within(self.copied_planes(geometry))
            }
            Command::PageProgram => {
                geometry.parts().optional.has_copyback()
                    && self.lun.queue.may_be_some()
                    && self.lun.copies.holds
            }
            _ => false,
        }
    }

    // The last row cycle may be refused; that of Reset LUN is fine whatever the LUN does.
    fn refuses_row(&self, geometry: &Geometry) -> bool
        ensures { result ≡ row_refused geometry.now self.now self.now.target.tail }
    {
        match self.target.tail {
            Place::After { opener, .. } => {
                opener.addresses_the_array()
                    && (self.lun.busy
                        || excludes_cache(geometry, opener) && self.lun.last.may_be_31()
                        || self.lun.queue.refuses(self.registers.planes, opener)
                        || self.refuses_plane(opener)
                        || self.refuses_copy(geometry, opener)
                        || excludes_program(opener) && self.lun.programming)
            }
            _ => false,
        }
    }

    // An address begins with the byte that is wanted, and holds the second column cycle.
    fn completes_column(&self, from: u8, count: u8) -> bool
        ensures { result ≡ (from == next_address self.now.target.tail && has_second_column from count) }
    {
        usize::from(from) == self.target.tail.next_address() && has_second_column(from, count)
    }

    // The column is surely past its limit, so that nothing is asked of the cycles after it.
    fn surely_past(&self, geometry: &Geometry, from: u8, count: u8) -> bool
        ensures { result ≡ surely_past geometry.now self.now from count self.now.target.tail }
    {
        self.completes_column(from, count)
            && self.column_limit(geometry) <= self.registers.column.lo()
    }

    fn refuses_address(&self, geometry: &Geometry, from: u8, count: u8) -> bool
        ensures { result ≡ address_out_of_place geometry.now self.now from count self.now.target.tail }
    {
        let tail = self.target.tail;
        let left = tail.addresses_left();
        if left == 0 {
            true
        } else if tail.takes_identity() {
            self.refuses_identity(geometry, from, count)
        } else if self.surely_past(geometry, from, count) {
            false
        } else {
            left < usize::from(count)
                || usize::from(from) == tail.next_address()
                    && u32::from(from) + u32::from(count) >= 5
                    && self.refuses_row(geometry)
        }
    }

    // An address begins at another byte than the one that is wanted.
    fn begins_elsewhere(&self, from: u8) -> bool
        ensures { result ≡ begins_elsewhere from self.now.target.tail }
    {
        let tail = self.target.tail;
        tail.addresses_left() != 0
            && !tail.takes_identity()
            && usize::from(from) != tail.next_address()
    }

    fn may_pass_column(&self, geometry: &Geometry, from: u8, count: u8) -> bool
        ensures { result ≡ column_past geometry.now self.now from count self.now.target.tail }
    {
        let tail = self.target.tail;
        tail.addresses_left() != 0
            && !tail.takes_identity()
            && self.completes_column(from, count)
            && !is_at_most(
                bound_plus(self.registers.column.hi(), 1),
                u64::from(self.column_limit(geometry)),
            )
    }

    // A row cycle, with the index or the plane perhaps outside.
    fn may_leave_rows(&self, geometry: &Geometry, rows: u32, from: u8, count: u8) -> bool
        ensures { result ≡ row_outside geometry.now rows self.now from count }
    {
        u32::from(from) + u32::from(count) > 2
            && (!is_at_most(bound_plus(self.registers.index.hi(), 1), u64::from(rows))
                || !self.registers.planes.are_below(geometry.planes()))
    }

    fn refuses_output(&self) -> bool
        ensures { result ≡ output_refused self.now }
    {
        self.may_be_open()
            || !self.target.drives()
            || self.target.may_show_data()
                && (self.lun.busy || self.lun.register.is_none() || self.lun.column.is_none())
    }

    fn may_pass_register(&self, geometry: &Geometry, len: u32) -> bool
        ensures { result ≡ output_past geometry.now self.now len }
    {
        let column = match self.lun.column {
            None => None,
            Some(column) => column.at.hi(),
        };
        self.target.may_show_data()
            && !is_at_most(
                bound_plus(column, u64::from(len)),
                u64::from(self.lun.least_length(geometry)),
            )
    }

    fn may_pass_page(&self, geometry: &Geometry, len: u32) -> bool
        ensures { result ≡ input_past geometry.now self.now len }
    {
        let column = match self.target.column {
            None => None,
            Some(column) => column.hi(),
        };
        !self.target.tail.is_in_features()
            && !is_at_most(
                bound_plus(column, u64::from(len)),
                u64::from(geometry.page_len()),
            )
    }

    // The LUN may be busy, have rows queued, read a cache or program one, or a sequence be open.
    fn may_be_unready(&self) -> bool
        ensures { result ≡ may_be_unready self.now }
    {
        self.lun.busy
            || self.may_be_open()
            || self.lun.queue.may_be_some()
            || self.lun.last.contains(LastCloser::CACHE)
            || self.lun.programming
    }

    #[tactic(auto, unfolding(crate::specs::Reasons::breaks_cycle_forbidden))]
    fn breaks_cycle_forbidden(&self, geometry: &Geometry, word: Word) -> bool
        ensures { result ≡ breaks_cycle_forbidden geometry.now self.now word }
    {
        match word {
            Word::Command { byte } => self.refuses_command(geometry, Command::of(byte)),
            Word::Address { from, count } => self.refuses_address(geometry, from, count),
            Word::Get { .. } => self.refuses_output(),
            Word::Put { len } => !self.target.tail.takes_inputs(len),
            Word::ReadStatus => self.may_be_open(),
            _ => false,
        }
    }

    #[tactic(auto, unfolding(crate::specs::Reasons::breaks_address_unaligned))]
    fn breaks_address_unaligned(&self, word: Word) -> bool
        ensures { result ≡ breaks_address_unaligned self.now word }
    {
        match word {
            Word::Address { from, .. } => self.begins_elsewhere(from),
            Word::Column { .. } | Word::RowAdd { .. } | Word::Row { .. } | Word::Plane { .. } => {
                self.target.tail.is_inside_address()
            }
            _ => false,
        }
    }

    #[tactic(auto, unfolding(crate::specs::Reasons::breaks_handover_in_sequence))]
    fn breaks_handover_in_sequence(&self, word: Word) -> bool
        ensures { result ≡ breaks_handover_in_sequence self.now word }
    {
        match word {
            Word::Wait | Word::Yield => self.may_be_open(),
            _ => false,
        }
    }

    #[tactic(auto, unfolding(crate::specs::Reasons::breaks_buffer_passed))]
    fn breaks_buffer_passed(&self, buffer: u32, word: Word) -> bool
        ensures { result ≡ breaks_buffer_passed buffer self.now word }
    {
        match word {
            Word::Get { len } | Word::Put { len } => !is_at_most(
                bound_plus(self.registers.place.hi(), u64::from(len)),
                u64::from(buffer),
            ),
            _ => false,
        }
    }

    #[tactic(auto, unfolding(crate::specs::Reasons::breaks_row_or_plane_outside))]
    fn breaks_row_or_plane_outside(&self, geometry: &Geometry, rows: u32, word: Word) -> bool
        ensures { result ≡ breaks_row_or_plane_outside geometry.now rows self.now word }
    {
        match word {
            Word::Command { byte } => self.may_pass_rows(geometry, rows, Command::of(byte)),
            Word::Address { from, count } => self.may_leave_rows(geometry, rows, from, count),
            Word::Plane { plane } => plane > 3,
            _ => false,
        }
    }

    #[tactic(auto, unfolding(crate::specs::Reasons::breaks_column_too_large))]
    fn breaks_column_too_large(&self, geometry: &Geometry, word: Word) -> bool
        ensures { result ≡ breaks_column_too_large geometry.now self.now word }
    {
        match word {
            Word::Address { from, count } => self.may_pass_column(geometry, from, count),
            Word::Get { len } => self.may_pass_register(geometry, len),
            Word::Put { len } => self.may_pass_page(geometry, len),
            _ => false,
        }
    }

    #[tactic(auto, unfolding(crate::specs::Reasons::breaks_no_status))]
    fn breaks_no_status(&self, word: Word) -> bool
        ensures { result ≡ breaks_no_status self.now word }
    {
        matches!(word, Word::BranchOnStatus { .. }) && !self.registers.polled
    }

    #[tactic(auto, unfolding(crate::specs::Reasons::breaks_ends_too_soon))]
    fn breaks_ends_too_soon(&self, word: Word) -> bool
        ensures { result ≡ breaks_ends_too_soon self.now word }
    {
        matches!(word, Word::End { .. }) && self.may_be_unready()
    }

    #[tactic(auto, unfolding(crate::specs::Reasons::breaks_over_budget))]
    fn breaks_over_budget(&self, geometry: &Geometry, budget: u32, word: Word) -> bool
        ensures { result ≡ breaks_over_budget geometry.now budget self.now word }
    {
        let cost = cost(geometry, word);
        cost > 0
            && !is_at_most(
                bound_plus(self.registers.cost.hi(), cost),
                u64::from(budget),
            )
    }

    /// The lowest reason against a word.
    #[tactic(auto, unfolding(crate::specs::Reasons::reason_against))]
    pub fn reason_against(&self, geometry: &Geometry, bounds: Bounds, word: Word) -> Option<Reason>
        ensures { result ≡ reason_against geometry.now bounds self.now word }
    {
        if self.breaks_cycle_forbidden(geometry, word) {
            Some(Reason::CycleForbidden)
        } else if self.breaks_address_unaligned(word) {
            Some(Reason::AddressUnaligned)
        } else if self.breaks_handover_in_sequence(word) {
            Some(Reason::HandoverInSequence)
        } else if self.breaks_buffer_passed(bounds.buffer, word) {
            Some(Reason::BufferPassed)
        } else if self.breaks_row_or_plane_outside(geometry, bounds.rows, word) {
            Some(Reason::RowOrPlaneOutside)
        } else if self.breaks_column_too_large(geometry, word) {
            Some(Reason::ColumnTooLarge)
        } else if self.breaks_no_status(word) {
            Some(Reason::NoStatus)
        } else if self.breaks_ends_too_soon(word) {
            Some(Reason::EndsTooSoon)
        } else if self.breaks_over_budget(geometry, bounds.budget, word) {
            Some(Reason::OverBudget)
        } else if breaks_command_not_allowed(geometry, bounds, word) {
            Some(Reason::CommandNotAllowed)
        } else {
            None
        }
    }
}
