//! The row that the tail names.
ghost use Rattle.std.specs.Prelude.{◌≡◌, Some};
ghost use Rattle.micro_claims.specs.Joins.{both_know, joined_name};
ghost use Rattle.micro_claims.specs.Leaves.{moved_by, named_moved, named_plane, register_selected};
ghost use Rattle.micro_claims.specs.Order.{is_name_within, is_named_within};

use crate::drift::{Drift, IndexMove, is_drift_within, joined_drift};
use crate::held::{Held, PAGE_HELD};
use crate::planes::Planes;
use crate::span::Span;

/// The row that the tail names.
#[derive(Clone, Copy)]
pub struct NamedRow {
    /// Its index, counted from the job's base.
    pub index: Span,
    pub planes: Planes,
    /// The greatest page that it may be in its block, for a base that begins a block.
    pub page: u32,
    pub drift: Option<Drift>,
}

impl NamedRow {
    pub(crate) fn after(self, by: IndexMove) -> NamedRow
        ensures { Some result ≡ named_moved (moved_by by) (Some self) }
    {
        let drift = match self.drift {
            None => None,
            Some(drift) => drift.after(by),
        };
        NamedRow { drift, ..self }
    }

    pub(crate) fn is_within(&self, other: &NamedRow) -> bool
        ensures { result ≡ is_name_within self.now other.now }
    {
        self.index.is_within(other.index)
            && self.planes.are_within(other.planes)
            && self.page <= other.page
            && is_drift_within(self.drift, other.drift)
    }

    pub(crate) fn join(self, other: NamedRow) -> NamedRow
        ensures { result ≡ joined_name self other }
    {
        NamedRow {
            index: self.index.join(other.index),
            planes: self.planes.or(other.planes),
            page: if self.page <= other.page {
                other.page
            } else {
                self.page
            },
            drift: joined_drift(self.drift, other.drift),
        }
    }
}

// The plane of the row of the tail, where it is sure.
pub(crate) fn named_plane(named: Option<NamedRow>) -> Planes
    ensures { result ≡ named_plane named }
{
    match named {
        None => Planes::none(),
        Some(row) => row.planes.sure(),
    }
}

// The register that is the page which the plane of the row holds.
pub(crate) fn register_selected(named: Option<NamedRow>, held: Planes) -> Option<Held>
    ensures { result ≡ register_selected named held }
{
    match named {
        Some(row) if row.planes.are_within(held) => PAGE_HELD,
        _ => None,
    }
}

pub(crate) fn is_named_within(one: Option<NamedRow>, other: Option<NamedRow>) -> bool
    ensures { result ≡ is_named_within one other }
{
    match (one, other) {
        (_, None) => true,
        (None, Some(_)) => false,
        (Some(one), Some(other)) => one.is_within(&other),
    }
}

pub(crate) fn joined_named(one: Option<NamedRow>, other: Option<NamedRow>) -> Option<NamedRow>
    ensures { result ≡ both_know joined_name one other }
{
    match (one, other) {
        (Some(one), Some(other)) => Some(one.join(other)),
        _ => None,
    }
}

pub(crate) fn widened_name(one: Option<NamedRow>, other: Option<NamedRow>) -> Option<NamedRow> {
    let (one, other) = (one?, other?);
    Some(NamedRow {
        index: one.index.widen(other.index),
        ..other
    })
}
