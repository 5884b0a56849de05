//! Where a page has its bytes from.
ghost use Rattle.std.specs.Prelude.{◌≡◌};
ghost use Rattle.trace_data.specs.Data.{programmed_at, opening_of};

/// Where a page has its bytes from. An item is counted from 0.
#[derive(Clone, Copy, Debug, PartialEq, Eq)]
pub enum Origin {
    /// Nobody knows what it holds.
    Unknown,
    /// It holds what it held at the beginning.
    Beginning,
    /// The work that began at this item has erased it.
    Erased { item: usize },
    /// The work that began at this item has programmed it.
    Programmed { item: usize },
}

impl Origin {
    /// Where the pages of a die have their bytes from at the beginning, where those are known or aren't.
    pub(crate) fn at_beginning(is_known: bool) -> Origin
        ensures { result ≡ opening_of is_known }
    {
        if is_known {
            Origin::Beginning
        } else {
            Origin::Unknown
        }
    }

    /// The same after a program that began at an item. Of bytes that nobody knew nobody knows what it left.
    pub(crate) fn programmed_at(self, item: usize) -> Origin
        ensures { result ≡ programmed_at item self }
    {
        match self {
            Origin::Unknown => Origin::Unknown,
            Origin::Beginning | Origin::Erased { .. } | Origin::Programmed { .. } => {
                Origin::Programmed { item }
            }
        }
    }
}
