//! The page that the array reads.
ghost use Rattle.std.specs.Prelude.{◌≡◌};
ghost use Rattle.micro_claims.specs.Joins.{joined_cached};
ghost use Rattle.micro_claims.specs.Leaves.{cached_at, next_cached};
ghost use Rattle.micro_claims.specs.State.{not_cached};

use crate::named_row::NamedRow;
use crate::span::{Span, any_number};

/// The page that the array reads, where the last closer is 30h or 31h.
#[derive(Clone, Copy)]
pub struct CachedPage {
    /// Its index, counted from the job's base.
    pub index: Span,
    /// Its place in its block.
    pub page: Span,
}

// Nothing is known of it.
pub(crate) fn not_cached() -> CachedPage
    ensures { result ≡ not_cached }
{
    CachedPage {
        index: any_number(),
        page: any_number(),
    }
}

impl CachedPage {
    // The row that the tail names.
    pub(crate) fn of(named: Option<NamedRow>) -> CachedPage
        ensures { result ≡ cached_at named }
    {
        match named {
            None => not_cached(),
            Some(row) => CachedPage {
                index: row.index.copied(),
                page: Span::of(0, Some(row.page), None),
            },
        }
    }

    // The page after it.
    pub(crate) fn next(self) -> CachedPage
        ensures { result ≡ next_cached self }
    {
        CachedPage {
            index: self.index.plus(1),
            page: self.page.plus(1),
        }
    }

    pub(crate) fn join(self, other: CachedPage) -> CachedPage
        ensures { result ≡ joined_cached self other }
    {
        CachedPage {
            index: self.index.join(other.index),
            page: self.page.join(other.page),
        }
    }
}
