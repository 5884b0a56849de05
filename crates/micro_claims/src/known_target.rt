//! What is known of the target.
ghost use Rattle.std.specs.Prelude.{◌≡◌, None};
ghost use Rattle.micro_claims.specs.Against.{shows_only_data, drives, may_show_data};
ghost use Rattle.micro_claims.specs.Joins.{joined_target};
ghost use Rattle.micro_claims.specs.Leaves.{resumed_shows, shows_after_read};
ghost use Rattle.micro_claims.specs.Order.{is_target_within};
ghost use Rattle.micro_claims.specs.State.{After, closed};

use crate::named_row::{NamedRow, is_named_within, joined_named, widened_name};
use crate::place::Place;
use crate::shown::{DATA_SHOWN, Shown, is_shows_within, joined_shows};
use crate::span::{Span, is_column_within, joined_columns, widened_column};
use bitflags::Flags;
use nand_geometry::Geometry;
use onfi_cycle::Command;

/// What is known of the target, while no other LUN of it has the bus.
#[derive(Clone, Copy)]
pub struct KnownTarget {
    pub tail: Place,
    /// The column of the tail and the inputs after it, where the tail has a column.
    pub column: Option<Span>,
    /// The row of the tail, where it has one.
    pub named: Option<NamedRow>,
    /// None where others may drive too, or the LUN be off.
    pub shows: Option<Shown>,
}

impl KnownTarget {
    // Nothing is open.
    pub(crate) fn closed(shows: Option<Shown>) -> KnownTarget
        ensures { result ≡ closed shows }
    {
        KnownTarget {
            tail: Place::Closed,
            column: None,
            named: None,
            shows,
        }
    }

    // After an opener.
    pub(crate) fn opened(opener: Command, shows: Option<Shown>) -> KnownTarget
        ensures { result ≡ record { tail = After opener 0; column = None; named = None; shows = shows } }
    {
        KnownTarget {
            tail: Place::After {
                opener,
                addresses: 0,
            },
            column: None,
            named: None,
            shows,
        }
    }

    // What is shown after 00h.
    pub(crate) fn resumed(&self) -> Option<Shown>
        ensures { result ≡ resumed_shows self.now.shows }
    {
        match self.shows {
            None => None,
            Some(_) => DATA_SHOWN,
        }
    }

    // What is shown after a read.
    pub(crate) fn shows_after_read(&self, geometry: &Geometry) -> Option<Shown>
        ensures { result ≡ shows_after_read geometry.now self.now.shows }
    {
        if self.shows.is_none() && geometry.parts().luns > 1 {
            None
        } else {
            DATA_SHOWN
        }
    }

    // The LUN surely drives alone.
    pub(crate) fn drives(&self) -> bool
        ensures { result ≡ drives self.now.shows }
    {
        self.shows.is_some()
    }

    pub(crate) fn shows_only_data(&self) -> bool
        ensures { result ≡ shows_only_data self.now.shows }
    {
        match self.shows {
            None => false,
            Some(shown) => !shown.contains(Shown::STATUS),
        }
    }

    pub(crate) fn may_show_data(&self) -> bool
        ensures { result ≡ may_show_data self.now.shows }
    {
        match self.shows {
            None => false,
            Some(shown) => shown.contains(Shown::REGISTER),
        }
    }

    pub(crate) fn is_within(&self, other: &KnownTarget) -> bool
        ensures { result ≡ is_target_within self.now other.now }
    {
        self.tail.is_within(other.tail)
            && is_column_within(self.column, other.column)
            && is_named_within(self.named, other.named)
            && is_shows_within(self.shows, other.shows)
    }

    pub(crate) fn join(&self, other: &KnownTarget) -> KnownTarget
        ensures { result ≡ joined_target self.now other.now }
    {
        KnownTarget {
            tail: self.tail.join(other.tail),
            column: joined_columns(self.column, other.column),
            named: joined_named(self.named, other.named),
            shows: joined_shows(self.shows, other.shows),
        }
    }

    pub(crate) fn widen(&self, other: &KnownTarget) -> KnownTarget {
        KnownTarget {
            column: widened_column(self.column, other.column),
            named: widened_name(self.named, other.named),
            ..*other
        }
    }
}
