//! What is known of the registers of the program.
ghost use Rattle.std.specs.Prelude.{◌≡◌};
ghost use Rattle.micro_claims.specs.Joins.{joined_registers};
ghost use Rattle.micro_claims.specs.Leaves.{paid, greatest_page_of, name_now};
ghost use Rattle.micro_claims.specs.Order.{are_registers_within, span_in_loop};
ghost use Rattle.micro_claims.specs.Spans.{plus};
ghost use Rattle.micro_program.specs.Program.{cost};

use crate::drift::NO_DISTANCE;
use crate::flags::may_within;
use crate::limits::GREATEST_BOUND;
use crate::loop_place::LoopPlace;
use crate::named_row::NamedRow;
use crate::page_range::{ANY_PAGE, PageRange};
use crate::planes::Planes;
use crate::span::Span;
use nand_geometry::Geometry;

/// The registers of the program.
#[derive(Clone, Copy)]
pub struct Registers {
    pub column: Span,
    /// The row index, counted from the job's base.
    pub index: Span,
    /// The page of the row index in its block, for a base that begins a block.
    pub page: PageRange,
    /// The place in the buffer.
    pub place: Span,
    /// The cost of the words so far, in cycles.
    pub cost: Span,
    pub planes: Planes,
    /// A status was asked for.
    pub polled: bool,
}

// The greatest page of the index register in its block.
fn greatest_page(geometry: &Geometry, registers: &Registers) -> u32
    ensures { result ≡ greatest_page_of geometry.now.pages registers.now.page registers.now.index.lo registers.now.index.hi }
{
    let pages = geometry.parts().pages;
    let most = registers.page.hi;
    match registers.index.hi() {
        Some(hi)
            if registers.index.lo() / pages == hi / pages
                && hi % pages < most
                && u64::from(hi) <= GREATEST_BOUND => { hi % pages }
        _ => most,
    }
}

impl Registers {
    // The row of the registers as they are.
    pub(crate) fn row(&self, geometry: &Geometry) -> NamedRow
        ensures { result ≡ name_now geometry.now self.now }
    {
        NamedRow {
            index: self.index.copied(),
            planes: self.planes,
            page: greatest_page(geometry, self),
            drift: Some(NO_DISTANCE),
        }
    }

    // What costs nothing leaves the cost as it is.
    pub(crate) fn paid(self, cost: u64) -> Registers
        ensures { result ≡ paid cost self }
    {
        if cost == 0 {
            self
        } else {
            Registers {
                cost: self.cost.plus(cost),
                ..self
            }
        }
    }

    // At another place of the buffer, so many bytes on.
    pub(crate) fn moved(self, len: u32) -> Registers
        ensures { result ≡ record self { place = plus self.place len } }
    {
        Registers {
            place: self.place.plus(u64::from(len)),
            ..self
        }
    }

    pub(crate) fn are_within(&self, other: &Registers) -> bool
        ensures { result ≡ are_registers_within self.now other.now }
    {
        self.column.is_within(other.column)
            && self.planes.are_within(other.planes)
            && self.index.is_within(other.index)
            && other.page.lo <= self.page.lo
            && self.page.hi <= other.page.hi
            && self.place.is_within(other.place)
            && self.cost.is_within(other.cost)
            && may_within(other.polled, self.polled)
    }

    pub(crate) fn in_loop(&self, end: &Registers, place: LoopPlace) -> Registers
        ensures { result ≡ record end.now {
          column = span_in_loop place self.now.column end.now.column;
          index = span_in_loop place self.now.index end.now.index;
          place = span_in_loop place self.now.place end.now.place;
          cost = span_in_loop place self.now.cost end.now.cost;
        } }
    {
        Registers {
            column: place.number(self.column, end.column),
            planes: end.planes,
            index: place.number(self.index, end.index),
            page: end.page,
            place: place.number(self.place, end.place),
            cost: place.number(self.cost, end.cost),
            polled: end.polled,
        }
    }

    pub(crate) fn join(&self, other: &Registers) -> Registers
        ensures { result ≡ joined_registers self.now other.now }
    {
        Registers {
            column: self.column.join(other.column),
            planes: self.planes.or(other.planes),
            index: self.index.join(other.index),
            page: self.page.join(other.page),
            place: self.place.join(other.place),
            cost: self.cost.join(other.cost),
            polled: self.polled && other.polled,
        }
    }

    pub(crate) fn widen(&self, other: &Registers) -> Registers {
        Registers {
            column: self.column.widen(other.column),
            index: self.index.widen(other.index),
            page: ANY_PAGE,
            place: self.place.widen(other.place),
            cost: self.cost.widen(other.cost),
            ..*other
        }
    }
}
