//! The pages of a block among which one is.
ghost use Rattle.std.specs.Prelude.{◌≡◌};
ghost use Rattle.micro_claims.specs.Joins.{joined_pages};
ghost use Rattle.micro_claims.specs.Leaves.{page_plus};

use nand_geometry::Geometry;

/// From `lo` to `hi`.
#[derive(Clone, Copy)]
pub struct PageRange {
    pub lo: u32,
    pub hi: u32,
}

pub(crate) const ANY_PAGE: PageRange = PageRange {
    lo: 0,
    hi: u32::MAX,
};

impl PageRange {
    // So many pages on.
    pub(crate) fn after_rows(self, geometry: &Geometry, rows: u16) -> PageRange
        ensures { result ≡ page_plus geometry.now.pages rows self }
    {
        let pages = u64::from(geometry.parts().pages);
        let (lo, hi) = (u64::from(self.lo), u64::from(self.hi));
        let more = u64::from(rows) % pages;
        if lo == hi {
            let page = ((lo + u64::from(rows)) % pages) as u32;
            PageRange { lo: page, hi: page }
        } else if lo <= hi && hi + more < pages {
            PageRange {
                lo: (lo + more) as u32,
                hi: (hi + more) as u32,
            }
        } else {
            PageRange {
                lo: 0,
                hi: geometry.parts().pages - 1,
            }
        }
    }

    pub(crate) fn join(self, other: PageRange) -> PageRange
        ensures { result ≡ joined_pages self other }
    {
        PageRange {
            lo: if self.lo <= other.lo {
                self.lo
            } else {
                other.lo
            },
            hi: if self.hi <= other.hi {
                other.hi
            } else {
                self.hi
            },
        }
    }
}
