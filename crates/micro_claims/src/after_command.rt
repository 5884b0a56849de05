//! What a command leaves of what is known before it.
ghost use Rattle.std.specs.Prelude.{◌≡◌};
ghost use Rattle.std.specs.Prelude.{if◌then◌else◌, None, true};
ghost use Rattle.onfi_cycle.specs.declared.command.Command.TheVariants.{ChangeWriteColumn};
ghost use Rattle.micro_claims.specs.Against.{place_wants, selects_plane_at};
ghost use Rattle.micro_claims.specs.Leaves.{may_be_reads, page_register, opened_by, work_started, queued_more, read_queued, read_started, copy_started, program_queued, cache_programmed, cache_read, cache_read_on, column_changed, reset_started, command_leaves, with_target};
ghost use Rattle.micro_claims.specs.State.{InColumn, any_but_31};

use crate::cached_page::CachedPage;
use crate::copies::Copies;
use crate::held::register_read;
use crate::known_lun::KnownLun;
use crate::known_target::KnownTarget;
use crate::last_closer::LastCloser;
use crate::named_row::{named_plane, register_selected};
use crate::output_column::OutputColumn;
use crate::place::Place;
use crate::planes::Planes;
use crate::queued_rows::QueuedRows;
use crate::shown::{DATA_SHOWN, Shown};
use crate::state::State;
use nand_geometry::Geometry;
use onfi_cycle::Command;

// The last closer then: where reads were queued, no 31h may follow.
fn last_read(queue: QueuedRows) -> LastCloser
    ensures { result ≡ if may_be_reads queue then any_but_31 else record { 0 = 1 } }
{
    if queue.may_be_reads() {
        LastCloser::ANY_BUT_CACHE
    } else {
        LastCloser::READ
    }
}

impl State {
    // After an opener that only begins.
    fn open(&mut self, opener: Command)
        ensures { self.new ≡ opened_by opener self.old }
    {
        self.target = KnownTarget::opened(opener, self.target.shows);
    }

    // After the start of work that leaves the LUN without a register.
    pub(crate) fn start_work(&mut self, queue: QueuedRows)
        ensures { self.new ≡ work_started queue self.old }
    {
        self.target = KnownTarget::closed(self.target.shows);
        self.lun = self.lun.at_work(queue);
    }

    // After the start of a read, behind which nothing is queued.
    fn start_read(&mut self, geometry: &Geometry)
        ensures { self.new ≡ read_started geometry.now self.old }
    {
        self.lun = KnownLun {
            busy: true,
            register: register_read(self.lun.queue),
            column: OutputColumn::given(self.target.column),
            queue: QueuedRows::NoRows,
            last: last_read(self.lun.queue),
            cached: CachedPage::of(self.target.named),
            held: self.lun.queue.held_by_read(self.target.named),
            array: named_plane(self.target.named),
            copies: Copies::uncopied(),
            programming: false,
        };
        self.target = KnownTarget::closed(self.target.shows_after_read(geometry));
    }

    // After the start of a read for copies, behind which no 31h may follow.
    fn start_copy(&mut self, geometry: &Geometry)
        ensures { self.new ≡ copy_started geometry.now self.old }
    {
        self.lun = self.lun.at_copy(geometry, &self.target);
        self.target = KnownTarget::closed(self.target.shows_after_read(geometry));
    }

    // After a read of a plane, which comes with the next 30h.
    fn queue_read(&mut self, geometry: &Geometry)
        ensures { self.new ≡ read_queued geometry.now self.old }
    {
        self.lun = self
            .lun
            .at_work(self.lun.queue.with_read(self.target.named));
        self.target = KnownTarget::closed(self.target.shows_after_read(geometry));
    }

    // After a command that goes on with a cache read, or ends it.
    fn read_cache(
        &mut self,
        last: LastCloser,
        cached: CachedPage,
        array: Planes,
        shows: Option<Shown>,
    )
        ensures { self.new ≡ cache_read last cached array shows self.old }
    {
        self.target = KnownTarget::closed(shows);
        self.lun = self.lun.caching(last, cached, array);
    }

    // After a 31h: the array reads the page of the row, where the tail wants it, and else the next one.
    fn go_on_with_cache_read(&mut self, geometry: &Geometry)
        ensures { self.new ≡ cache_read_on geometry.now self.old }
    {
        if self.target.tail.wants(Command::ReadCacheSequential) {
            let shows = self.target.shows_after_read(geometry);
            self.read_cache(
                LastCloser::CACHE,
                CachedPage::of(self.target.named),
                named_plane(self.target.named),
                shows,
            );
        } else {
            self.read_cache(
                LastCloser::CACHE,
                self.lun.cached.next(),
                self.lun.array,
                DATA_SHOWN,
            );
        }
    }

    // After a reset.
    pub(crate) fn reset(&mut self)
        ensures { self.new ≡ reset_started self.old }
    {
        self.target = KnownTarget::closed(None);
        self.lun = self.lun.at_work(QueuedRows::NoRows);
    }

    // After the column that 05h or 06h gave; behind 06h the LUN alone shows data, from the page that the plane holds.
    fn give_column(&mut self)
        ensures { self.new ≡ column_changed self.old }
    {
        self.lun.column = OutputColumn::given(self.target.column);
        if self.target.tail.selects_plane() {
            self.lun.register = register_selected(self.target.named, self.lun.held);
            self.target = KnownTarget::closed(DATA_SHOWN);
        } else {
            self.target = KnownTarget::closed(self.target.shows);
        }
    }

    // After a Change Write Column: a change of the column, where the tail wants it, and else the beginning of a copy.
    fn change_column(&mut self)
        ensures { self.new ≡ if place_wants ChangeWriteColumn self.old.target.tail then with_target self.old (record self.old.target { tail = InColumn 0 }) else opened_by ChangeWriteColumn self.old }
    {
        if self.target.tail.wants(Command::ChangeWriteColumn) {
            self.target.tail = Place::InColumn { addresses: 0 };
        } else {
            self.open(Command::ChangeWriteColumn);
        }
    }

    // After a plane's erase.
    fn queue_erase(&mut self)
        ensures { self.new ≡ work_started (queued_more true self.old.lun.queue self.old.target.named) self.old }
    {
        self.start_work(self.lun.queue.with(true, self.target.named));
    }

    // After a plane's program, which leaves the pages that are held, and the array at what a 15h gave it.
    fn queue_program(&mut self)
        ensures { self.new ≡ program_queued self.old }
    {
        let queue = self.lun.queue.with(false, self.target.named);
        self.lun = KnownLun {
            held: self.lun.held,
            copies: self.lun.copies.queued(),
            programming: self.lun.programming,
            ..self.lun.at_work(queue)
        };
        self.target = KnownTarget::closed(self.target.shows);
    }

    // After a program behind which the next page may come while the array works.
    fn program_cache(&mut self)
        ensures { self.new ≡ cache_programmed self.old }
    {
        self.lun = KnownLun {
            programming: true,
            ..self.lun.at_work(QueuedRows::NoRows)
        };
        self.target = KnownTarget::closed(self.target.shows);
    }

    // After a command.
    pub(crate) fn take_command(&mut self, geometry: &Geometry, command: Command)
        ensures { self.new ≡ command_leaves geometry.now self.old command }
    {
        match command {
            Command::Read => self.target = KnownTarget::opened(command, self.target.resumed()),
            Command::ChangeReadColumn
            | Command::ChangeReadColumnEnhanced
            | Command::BlockErase
            | Command::PageProgram
            | Command::ReadId
            | Command::ReadParameterPage
            | Command::ReadUniqueId
            | Command::GetFeatures
            | Command::SetFeatures
            | Command::ResetLun => self.open(command),
            Command::ChangeWriteColumn => self.change_column(),
            Command::ReadConfirm => self.start_read(geometry),
            Command::ReadPlane => self.queue_read(geometry),
            Command::CopybackRead => self.start_copy(geometry),
            Command::ChangeReadColumnConfirm => self.give_column(),
            Command::BlockEraseConfirm | Command::ProgramConfirm => {
                self.start_work(QueuedRows::NoRows)
            }
            Command::BlockErasePlane => self.queue_erase(),
            Command::ProgramPlane => self.queue_program(),
            Command::ProgramCache => self.program_cache(),
            Command::Reset | Command::SynchronousReset => self.reset(),
            Command::ReadCacheSequential => self.go_on_with_cache_read(geometry),
            Command::ReadCacheEnd => {
                self.read_cache(
                    LastCloser::OTHER,
                    self.lun.cached,
                    self.lun.array,
                    DATA_SHOWN,
                );
            }
            Command::ReadStatus | Command::ReadStatusEnhanced | Command::Unknown => {}
        }
    }
}
