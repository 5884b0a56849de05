//! A cycle that breaks a rule, and what it came to: why it isn't permitted.

use crate::cause::{Cause, Columns, Half, RowPart, Unwanted};
use crate::open_sequence::{CommandAt, OpenSequence, Wanted};
use crate::target_look::{MOST_LUNS, TargetLook};
use crate::target_past::TargetPast;
use nand_geometry::{Geometry, RowParts};
use onfi_cycle::{Command, Cycle, Forbidden, Kind, LunState, PageAddress, Register, TailFacts};

/// A cycle, and the target to which it came.
#[derive(Clone, Copy)]
pub struct FaultyCycle {
    pub geometry: Geometry,
    pub target: TargetLook,
    /// What is known of what happened to the target before.
    pub past: TargetPast,
    pub cycle: Cycle,
}

// The opener of the sequences that a command ends or goes on with.
fn opener_of(command: Command) -> Option<u8> {
    match command {
        Command::ReadConfirm | Command::ReadPlane | Command::CopybackRead => Some(0x00),
        Command::ChangeReadColumnConfirm => Some(0x05),
        Command::BlockEraseConfirm | Command::BlockErasePlane => Some(0x60),
        Command::ChangeWriteColumn
        | Command::ProgramConfirm
        | Command::ProgramPlane
        | Command::ProgramCache => Some(0x80),
        _ => None,
    }
}

// The page that a LUN's register holds.
fn page_of(lun: LunState) -> Option<PageAddress> {
    match lun.register {
        Register::Page(page) => Some(page),
        Register::Empty
        | Register::ParameterPage
        | Register::Identifier
        | Register::Identity
        | Register::JedecIdentity
        | Register::UniqueId
        | Register::Features(_) => None,
    }
}

impl FaultyCycle {
    // What the tail of its target tells.
    fn tail(&self) -> TailFacts {
        self.target.tail
    }

    // The sequence that is open on its target.
    fn open(&self) -> Option<OpenSequence> {
        Some(OpenSequence {
            opener: self.past.opener?,
            wanted: Wanted::of(self.tail())?,
        })
    }

    // Where the target wants something else, or nothing.
    fn unwanted(&self, cycle: Unwanted) -> Cause {
        match self.open() {
            Some(open) => Cause::Other { cycle, open },
            None => Cause::Nothing(cycle),
        }
    }

    // A copyback may come before this closer of programs; none may before that of a cache program.
    fn may_close_copy(&self, command: u8) -> bool {
        self.geometry.parts().optional.has_copyback()
            && Command::of(command) != Command::ProgramCache
    }

    fn command_misplaced(&self) -> Cause {
        let command = self.cycle.byte;
        match (self.open(), opener_of(Command::of(command))) {
            (None, Some(0x05)) if self.geometry.parts().optional.has_enhanced_column() => {
                Cause::NoColumnOpened { command }
            }
            (None, Some(0x80)) if self.may_close_copy(command) => {
                Cause::NoProgramOpened { command }
            }
            (None, Some(opener)) => Cause::Unopened { command, opener },
            (None, None) | (Some(_), _) => self.unwanted(Unwanted::Command(command)),
        }
    }

    // The command with which work of the whole target began, where that is known.
    fn target_work(&self) -> Option<CommandAt> {
        let since = self.past.work[0]?;
        if Command::of(since.byte).is_of_target() {
            Some(since)
        } else {
            None
        }
    }

    // In the wider profile a target with several LUNs takes each command, where it is clear who answers.
    fn several_luns(&self) -> Cause {
        let command = self.cycle.byte;
        let parts = self.geometry.parts();
        if !parts.optional.is_wide() {
            let luns = parts.luns;
            return Cause::SeveralLuns { command, luns };
        }
        match Command::of(command) {
            Command::ReadStatusEnhanced => Cause::TargetWorks {
                command,
                since: self.target_work(),
            },
            _ => Cause::SeveralAnswer { command },
        }
    }

    // The part of a row that isn't there.
    fn row_outside(&self) -> Cause {
        let row = self
            .geometry
            .parts_of(self.tail().row_with(self.cycle.byte));
        let parts = self.geometry.parts();
        let luns = u32::from(parts.luns);
        if luns <= row.lun {
            let (part, number, last) = (RowPart::Lun, row.lun, luns.saturating_sub(1));
            return Cause::RowOutside { part, number, last };
        }
        let (part, number, count) = if parts.blocks <= row.block {
            (RowPart::Block, row.block, parts.blocks)
        } else {
            (RowPart::Page, row.page, parts.pages)
        };
        Cause::RowOutside {
            part,
            number,
            last: count.saturating_sub(1),
        }
    }

    // Since when the LUN of this number works.
    fn works(&self, lun: u32) -> Option<Cause> {
        let place = lun as usize;
        if MOST_LUNS <= place {
            return None;
        }
        let since = self.past.work[place]?;
        Some(Cause::Works { lun, since })
    }

    fn lun_busy(&self) -> Option<Cause> {
        if self.cycle.kind == Kind::Adr {
            let row = self.tail().row_with(self.cycle.byte);
            return self.works(self.geometry.parts_of(row).lun);
        }
        let luns = self.geometry.parts().luns;
        if luns == 1 {
            return self.works(0);
        }
        let since = self.past.work[0]?;
        Some(Cause::AllWork { luns, since })
    }

    fn no_sole_driver(&self) -> Cause {
        if self.tail().is_open() {
            if let Some(open) = self.open() {
                return Cause::Open(open);
            }
        }
        match self.target.count_drivers() {
            0 => Cause::NoDriver {
                since: self.past.undriven,
            },
            count => Cause::Drivers { count },
        }
    }

    fn data_not_ready(&self) -> Option<Cause> {
        let (lun, state) = self.target.driver()?;
        if state.busy {
            return self.works(u32::from(lun));
        }
        if state.register == Register::Empty {
            let reads_planes = self.reads_planes();
            return Some(Cause::NoData { lun, reads_planes });
        }
        let asked = self.past.asked;
        Some(Cause::ColumnLost { lun, asked })
    }

    // The row that the cycle closes, or ends by its address.
    fn named_row(&self) -> RowParts {
        match self.cycle.kind {
            Kind::Adr => self
                .geometry
                .parts_of(self.tail().row_with(self.cycle.byte)),
            Kind::Cmd | Kind::Din | Kind::Dout => self.geometry.parts_of(self.tail().named_row()),
        }
    }

    // A look at the LUN of this number of its target.
    fn lun(&self, lun: u32) -> Option<LunState> {
        let place = lun as usize;
        if MOST_LUNS <= place {
            return None;
        }
        self.target.luns[place]
    }

    fn reads_planes(&self) -> bool {
        self.geometry.parts().optional.has_plane_reads()
    }

    // The LUN has rows in its queue, with which this page doesn't go together, if it is one of a row.
    fn queue_of(&self, lun: u32, page: Option<PageAddress>) -> Option<Cause> {
        let rows = self.lun(lun)?.queued;
        if rows == 0 {
            return None;
        }
        Some(Cause::QueueStands {
            lun,
            rows,
            page,
            reads_planes: self.reads_planes(),
        })
    }

    // A command for the whole target comes while a LUN has a queue, or a row that doesn't go together with the queue of its LUN.
    fn queue_clash(&self) -> Option<Cause> {
        match self.cycle.kind {
            Kind::Adr => {
                let row = self.tail().row_with(self.cycle.byte);
                let page = PageAddress::of_row(&self.geometry, row);
                self.queue_of(self.named_row().lun, Some(page))
            }
            Kind::Cmd | Kind::Din | Kind::Dout => self
                .queue_of(0, None)
                .or(self.queue_of(1, None))
                .or(self.queue_of(2, None))
                .or(self.queue_of(3, None)),
        }
    }

    // The LUN holds no page of the plane of the row, or has a queue.
    fn plane_not_held(&self) -> Cause {
        let row = self.named_row();
        if let Some(cause) = self.queue_of(row.lun, None) {
            return cause;
        }
        let planes = self.geometry.planes().max(1);
        Cause::PlaneNotHeld {
            lun: row.lun,
            plane: row.block % planes,
            planes,
            reads_planes: self.reads_planes(),
            held: self.lun(row.lun).and_then(page_of),
        }
    }

    // Whether an odd page alone, or an even one alone, may be copied to this page; None: each may.
    fn wanted_half(&self, page: PageAddress) -> Option<Half> {
        if self.geometry.parts().optional.has_odd_even() {
            return None;
        }
        Some(if page.page % 2 == 1 {
            Half::Odd
        } else {
            Half::Even
        })
    }

    // A row of a copyback to which no page may be copied that its LUN holds.
    fn no_copy(&self) -> Cause {
        let row = self.named_row();
        let planes = self.geometry.planes().max(1);
        let page = PageAddress::of_row(&self.geometry, self.tail().row_with(self.cycle.byte));
        Cause::NoCopy {
            lun: row.lun,
            page,
            plane: row.block % planes,
            planes,
            half: self.wanted_half(page),
        }
    }

    // A row of a copyback to which nothing may be copied, or of another program while copies wait in the queue; or a cache program that closes a copy.
    fn copyback_misplaced(&self) -> Option<Cause> {
        if self.cycle.kind == Kind::Cmd {
            let lun = self.named_row().lun;
            return Some(Cause::CopyNotCached { lun });
        }
        if self.tail().opening?.opener == Command::ChangeWriteColumn {
            return Some(self.no_copy());
        }
        let lun = self.named_row().lun;
        let rows = self.lun(lun)?.queued;
        Some(Cause::CopiesQueued { lun, rows })
    }

    // The LUN of this number reads a cache.
    fn caching(&self, lun: u32) -> Option<Cause> {
        if self.lun(lun)?.caching {
            Some(Cause::CacheGoesOn { lun })
        } else {
            None
        }
    }

    // The LUN to which a 31 is: that of its row, or the one that drives the bus.
    fn cached_lun(&self) -> Option<u32> {
        if self.tail().wants_command(Command::ReadCacheSequential) {
            return Some(self.named_row().lun);
        }
        let (lun, _) = self.target.driver()?;
        Some(u32::from(lun))
    }

    // A 31 comes to a LUN that has read no page, or several at once; not where its page is the last of a block, or a cache read goes on.
    fn no_page_alone(&self) -> Option<Cause> {
        let lun = self.cached_lun()?;
        let state = self.lun(lun)?;
        let pages = u64::from(self.geometry.parts().pages);
        let is_last = match page_of(state) {
            Some(page) => pages <= page.page.saturating_add(1),
            None => false,
        };
        if state.busy || state.caching || is_last {
            return None;
        }
        Some(Cause::NoPageAlone { lun })
    }

    // The LUN of this number programs behind a cache program.
    fn programming(&self, lun: u32) -> Option<Cause> {
        if self.lun(lun)?.programming {
            Some(Cause::ProgramGoesOn { lun })
        } else {
            None
        }
    }

    // A cache program of several planes, where its chip has none.
    fn group_not_cached(&self) -> Option<Cause> {
        let lun = self.named_row().lun;
        let rows = self.lun(lun)?.queued;
        Some(Cause::GroupNotCached { lun, rows })
    }

    // A row, or a command for the whole target, of a LUN that programs behind a cache program; or a cache program of several planes.
    fn cache_program_misplaced(&self) -> Option<Cause> {
        match self.cycle.kind {
            Kind::Adr => self.programming(self.named_row().lun),
            Kind::Cmd | Kind::Din | Kind::Dout => match Command::of(self.cycle.byte) {
                Command::ProgramCache => self.group_not_cached(),
                _ => self
                    .programming(0)
                    .or(self.programming(1))
                    .or(self.programming(2))
                    .or(self.programming(3)),
            },
        }
    }

    fn cache_read_misplaced(&self) -> Option<Cause> {
        match self.cycle.kind {
            Kind::Adr => self.caching(self.named_row().lun),
            Kind::Cmd | Kind::Din | Kind::Dout => match Command::of(self.cycle.byte) {
                Command::ReadCacheSequential => self.no_page_alone(),
                Command::ReadConfirm | Command::ReadPlane | Command::CopybackRead => {
                    self.caching(self.named_row().lun)
                }
                Command::ReadCacheEnd => None,
                _ => self
                    .caching(0)
                    .or(self.caching(1))
                    .or(self.caching(2))
                    .or(self.caching(3)),
            },
        }
    }

    // The column past the register of the LUN that drives the bus.
    fn register_column(&self, column: Option<u32>) -> Option<Cause> {
        let (_, state) = self.target.driver()?;
        Some(Cause::ColumnOutside {
            column: u64::from(column.or(state.column)?),
            of: Columns::Register,
            length: state.register.len(&self.geometry),
        })
    }

    fn page_column(&self, column: u64) -> Cause {
        Cause::ColumnOutside {
            column,
            of: Columns::Page,
            length: self.geometry.page_len(),
        }
    }

    fn column_outside(&self) -> Option<Cause> {
        let tail = self.tail();
        let given = tail.column_with(self.cycle.byte);
        match self.cycle.kind {
            Kind::Cmd => None,
            Kind::Dout => self.register_column(None),
            Kind::Din => {
                let column = u64::from(tail.column).saturating_add(tail.inputs as u64);
                Some(self.page_column(column))
            }
            Kind::Adr => match tail.opening {
                Some(opening) if opening.opener == Command::ChangeReadColumn => {
                    self.register_column(Some(given))
                }
                Some(_) | None => Some(self.page_column(u64::from(given))),
            },
        }
    }

    /// Why the cycle breaks this rule, where that has one cause that can be named.
    pub fn cause_of(&self, rule: Forbidden) -> Option<Cause> {
        match rule {
            Forbidden::SequenceOpen => Some(Cause::Open(self.open()?)),
            Forbidden::SeveralLuns => Some(self.several_luns()),
            Forbidden::CommandMisplaced => Some(self.command_misplaced()),
            Forbidden::AddressMisplaced => Some(self.unwanted(Unwanted::Address)),
            Forbidden::RowOutside => Some(self.row_outside()),
            Forbidden::LunBusy => self.lun_busy(),
            Forbidden::InputMisplaced => Some(self.unwanted(Unwanted::Data)),
            Forbidden::NoSoleDriver => Some(self.no_sole_driver()),
            Forbidden::DataNotReady => self.data_not_ready(),
            Forbidden::ColumnOutside => self.column_outside(),
            Forbidden::PlaneNotHeld => Some(self.plane_not_held()),
            Forbidden::CopybackMisplaced => self.copyback_misplaced(),
            Forbidden::QueueClash => self.queue_clash(),
            Forbidden::CacheReadMisplaced => self.cache_read_misplaced(),
            Forbidden::CacheProgramMisplaced => self.cache_program_misplaced(),
            Forbidden::NotThere | Forbidden::CommandUnknown | Forbidden::NoColumnToChange => None,
        }
    }

    /// The opener whose address the cycle is, if it is an address.
    pub fn opener_of_address(&self) -> Option<CommandAt> {
        match self.cycle.kind {
            Kind::Adr => self.past.opener,
            Kind::Cmd | Kind::Din | Kind::Dout => None,
        }
    }
}
