//! What is known of the LUN.
ghost use Rattle.std.specs.Prelude.{◌≡◌, Some, true, false, None, ◌||◌, if◌then◌else◌};
ghost use Rattle.micro_claims.specs.Against.{has_page_or_parameters, least_length, may_be_queued};
ghost use Rattle.micro_claims.specs.Joins.{joined_lun};
ghost use Rattle.micro_claims.specs.Leaves.{unread, page_register, given_at, column_read, gathers, held_by_copy, copies_read, may_be_reads, named_plane};
ghost use Rattle.micro_claims.specs.Order.{is_lun_within};
ghost use Rattle.micro_claims.specs.Planes.{no_planes};
ghost use Rattle.micro_claims.specs.Spans.{exactly};
ghost use Rattle.micro_claims.specs.State.{NoRows, other_closer, no_copies, uncopied, may_be_31};

use crate::cached_page::CachedPage;
use crate::copies::{Copies, parity_of};
use crate::flags::may_within;
use crate::held::{Held, PAGE_HELD, is_register_within, joined_registered, register_read};
use crate::known_target::KnownTarget;
use crate::last_closer::LastCloser;
use crate::named_row::{NamedRow, named_plane};
use crate::output_column::{OutputColumn, is_output_within, joined_outputs, widened_output};
use crate::planes::Planes;
use crate::queued_rows::QueuedRows;
use crate::shown::Shown;
use bitflags::Flags;
use nand_geometry::Geometry;

/// What is known of the LUN, whoever has the bus.
#[derive(Clone, Copy)]
pub struct KnownLun {
    /// It may be busy.
    pub busy: bool,
    pub last: LastCloser,
    /// None where it may be empty.
    pub register: Option<Held>,
    /// None where it may be lost.
    pub column: Option<OutputColumn>,
    pub queue: QueuedRows,
    pub cached: CachedPage,
    /// The planes that surely hold a page.
    pub held: Planes,
    /// The plane of the page that the array reads, where it is sure.
    pub array: Planes,
    pub copies: Copies,
    /// The array may be at a program that a 15h began.
    pub programming: bool,
}

impl KnownLun {
    // A status after data was read loses the column.
    pub(crate) fn unread(&self) -> Option<OutputColumn>
        ensures { result ≡ unread self.now.column }
    {
        match self.column {
            Some(column) if column.read => None,
            column => column,
        }
    }

    // The column after so many outputs.
    pub(crate) fn column_read(&self, shows: Option<Shown>, len: u32) -> Option<OutputColumn>
        ensures { result ≡ column_read shows len self.now.column }
    {
        let shown = match shows {
            None => return None,
            Some(shown) => shown,
        };
        let column = match self.column {
            None => return None,
            Some(column) => column,
        };
        if !shown.contains(Shown::REGISTER) {
            return Some(column);
        }
        let least = if shown.contains(Shown::STATUS) {
            0
        } else {
            u64::from(len)
        };
        Some(OutputColumn {
            at: column.at.plus_between(least, u64::from(len)),
            read: true,
        })
    }

    // At work that leaves no register, and no page.
    pub(crate) fn at_work(&self, queue: QueuedRows) -> KnownLun
        ensures { result ≡ record {
          busy = true;
          register = None;
          column = None;
          queue = queue;
          last = other_closer;
          cached = self.now.cached;
          held = no_planes;
          array = no_planes;
          copies = no_copies;
          programming = false;
        } }
    {
        KnownLun {
            busy: true,
            register: None,
            column: None,
            queue,
            last: LastCloser::OTHER,
            cached: self.cached,
            held: Planes::none(),
            array: Planes::none(),
            copies: Copies::none(),
            programming: false,
        }
    }

    // At a cache read, whose array reads a page of this plane.
    pub(crate) fn caching(&self, last: LastCloser, cached: CachedPage, array: Planes) -> KnownLun
        ensures { result ≡ record {
          busy = true;
          register = page_register;
          column = Some (record { at = exactly 0; read = false });
          queue = self.now.queue;
          last = last;
          cached = cached;
          held = self.now.array;
          array = array;
          copies = uncopied;
          programming = false;
        } }
    {
        KnownLun {
            busy: true,
            register: PAGE_HELD,
            column: Some(OutputColumn::first()),
            queue: self.queue,
            last,
            cached,
            held: self.array,
            array,
            copies: Copies::uncopied(),
            programming: false,
        }
    }

    // Another 35h leaves the pages that are held.
    fn gathers(&self) -> bool
        ensures { result ≡ gathers self.now }
    {
        self.copies.copying && !self.queue.may_be_some()
    }

    // The planes that surely hold a page behind a 35h of the row of the tail.
    fn held_by_copy(self, named: Option<NamedRow>) -> Planes
        ensures { result ≡ held_by_copy self named }
    {
        match named {
            None => Planes::none(),
            Some(row) if !self.gathers() => self.queue.copied_beside(row),
            Some(row) => {
                if row.planes.is_one() {
                    row.planes.or(self.held)
                } else {
                    Planes::none()
                }
            }
        }
    }

    // What is known of copies behind it.
    fn copies_read(self, pages: u32, named: Option<NamedRow>) -> Copies
        ensures { result ≡ copies_read pages self named }
    {
        match named {
            None => Copies::first(None, Planes::none()),
            Some(row) => {
                let parity = parity_of(pages, row.drift);
                if self.gathers() {
                    self.copies.with(parity, row.planes)
                } else {
                    Copies::first(parity, self.queue.alike_beside(row))
                }
            }
        }
    }

    // At a read for copies of the row of the tail, behind which no 31h may follow.
    pub(crate) fn at_copy(&self, geometry: &Geometry, target: &KnownTarget) -> KnownLun
        ensures { result ≡ record {
          busy = true;
          register = if may_be_reads self.now.queue then None else page_register;
          column = given_at target.now.column;
          queue = NoRows;
          last = other_closer;
          cached = self.now.cached;
          held = held_by_copy self.now target.now.named;
          array = named_plane target.now.named;
          copies = copies_read geometry.now.pages self.now target.now.named;
          programming = false;
        } }
    {
        KnownLun {
            busy: true,
            register: register_read(self.queue),
            column: OutputColumn::given(target.column),
            queue: QueuedRows::NoRows,
            last: LastCloser::OTHER,
            cached: self.cached,
            held: self.held_by_copy(target.named),
            array: named_plane(target.named),
            copies: self.copies_read(geometry.parts().pages, target.named),
            programming: false,
        }
    }

    pub(crate) fn has_page_or_parameters(&self) -> bool
        ensures { result ≡ has_page_or_parameters self.now.register }
    {
        match self.register {
            None => false,
            Some(held) => !held.holds_short(),
        }
    }

    pub(crate) fn least_length(&self, geometry: &Geometry) -> u32
        ensures { result ≡ least_length geometry.now self.now.register }
    {
        match self.register {
            None => 0,
            Some(held) => held.least_length(geometry),
        }
    }

    // An opener that reads what stands beside the array, or sets it, may be refused.
    pub(crate) fn may_work(&self) -> bool
        ensures { result ≡ self.now.busy || may_be_queued self.now.queue || may_be_31 self.now.last || self.now.programming }
    {
        self.busy
            || self.queue.may_be_some()
            || self.last.contains(LastCloser::CACHE)
            || self.programming
    }

    pub(crate) fn is_within(&self, other: &KnownLun) -> bool
        ensures { result ≡ is_lun_within self.now other.now }
    {
        may_within(self.busy, other.busy)
            && is_register_within(self.register, other.register)
            && is_output_within(self.column, other.column)
            && self.queue.are_within(other.queue)
            && other.last.contains(self.last)
            && self.cached.index.is_within(other.cached.index)
            && self.cached.page.is_within(other.cached.page)
            && other.held.are_within(self.held)
            && other.array.are_within(self.array)
            && self.copies.are_within(other.copies)
            && may_within(self.programming, other.programming)
    }

    pub(crate) fn join(&self, other: &KnownLun) -> KnownLun
        ensures { result ≡ joined_lun self.now other.now }
    {
        KnownLun {
            busy: self.busy || other.busy,
            register: joined_registered(self.register, other.register),
            column: joined_outputs(self.column, other.column),
            queue: self.queue.join(other.queue),
            last: self.last.join(other.last),
            cached: self.cached.join(other.cached),
            held: self.held.and(other.held),
            array: self.array.and(other.array),
            copies: self.copies.join(other.copies),
            programming: self.programming || other.programming,
        }
    }

    pub(crate) fn widen(&self, other: &KnownLun) -> KnownLun {
        KnownLun {
            column: widened_output(self.column, other.column),
            cached: CachedPage {
                index: self.cached.index.widen(other.cached.index),
                page: self.cached.page.widen(other.cached.page),
            },
            ..*other
        }
    }
}
