//! The page and the column that an output gives.
ghost use Rattle.std.specs.Prelude.{◌≡◌, ◌≤◌, ◌+◌, ◌<◌, ℕ};
ghost use Rattle.trace_data.specs.Data.{shown_of, page_shown_from, page_shown};

use onfi_cycle::{Latch, Lun, LunState, PageAddress, Register};
use target_bus::Bus;

/// The page and the column that an output of a LUN gives.
#[derive(Clone, Copy, Debug, PartialEq, Eq)]
pub struct PageShown {
    pub lun: Lun,
    pub page: PageAddress,
    pub column: u32,
}

/// The page and the column that the next output of a LUN gives, if it gives one.
pub(crate) fn shown_of(lun: Lun, look: Option<LunState>) -> Option<PageShown>
    ensures { result ≡ shown_of lun look }
{
    match look {
        None => None,
        Some(look) => match (look.latch, look.register, look.column) {
            (Latch::Data, Register::Page(page), Some(column)) => {
                Some(PageShown { lun, page, column })
            }
            (Latch::Off | Latch::Status, _, _)
            | (Latch::Data, Register::Empty, _)
            | (
                Latch::Data,
                Register::ParameterPage
                | Register::Identifier
                | Register::Identity
                | Register::JedecIdentity
                | Register::UniqueId
                | Register::Features(_),
                _,
            )
            | (Latch::Data, Register::Page(_), None) => None,
        },
    }
}

// The same of the first such LUN of a target, from this number on.
fn shown_from(bus: &Bus, ce: u8, luns: u8, lun: u8) -> Option<PageShown>
    requires { lun ≤ luns }
    ensures { (count : ℕ) → lun + count ≡ luns → result ≡ page_shown_from bus.now.geometry bus.now.targets bus.now.past ce count lun }
{
    if lun == luns {
        return None;
    }
    let here = Lun { ce, lun };
    match shown_of(here, bus.lun_state(here)) {
        Some(shown) => Some(shown),
        None => shown_from(bus, ce, luns, lun + 1),
    }
}

/// The page and the column that the next output on a target gives, if it gives one.
pub(crate) fn page_shown(bus: &Bus, ce: u8) -> Option<PageShown>
    ensures { result ≡ page_shown bus.now.geometry bus.now.targets bus.now.past ce }
{
    shown_from(bus, ce, bus.geometry().parts().luns, 0)
}
