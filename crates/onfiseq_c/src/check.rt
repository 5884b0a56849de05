//! The check of a whole trace.
ghost use Rattle.std.specs.Prelude.{◌≡◌, ◌≤◌, ℕ, []};
ghost use Rattle.nand_geometry.specs.declared.parts.Parts.{Parts};
ghost use Rattle.nand_geometry.specs.Limits.{InLimits};
ghost use Rattle.nand_geometry.specs.Optional.{is_wide};
ghost use Rattle.onfi_cycle.specs.State.{Follows};
ghost use Rattle.bus_record.specs.Bus.{IsSound, bus_view};
ghost use Rattle.target_record.specs.Geometry.{parts_of};
ghost use Rattle.onfiseq_c.specs.Check.{checked, answered};

use bus_record::{OnfiseqBus, OnfiseqGeometry, OnfiseqItem, is_wide, push_item, renew};
use nand_geometry::Geometry;
use target_record::NO_TARGET;

/// An answer. `letter` is 0 where all is well, and `at` counts the items. Else `letter` and `number` are those of the code, as F and 9 of F9: F is the rule that the
/// item at `at` breaks first, P the fault of the geometry. I says that the numbers at `at` are no item, and T that the targets aren't 1 to 4.
#[repr(C)]
#[derive(Clone, Copy)]
pub struct OnfiseqAnswer {
    pub letter: u8,
    pub number: u32,
    pub at: usize,
}

impl OnfiseqAnswer {
    #[inline(always)]
    fn of(letter: u8, number: u32, at: usize) -> OnfiseqAnswer
        ensures { result ≡ record { letter = letter; number = number; at = at } }
    {
        OnfiseqAnswer { letter, number, at }
    }
}

// Plays the items of a trace on a channel to which nothing has happened, up to the first that is refused.
fn check_items(bus: &mut OnfiseqBus, items: &[OnfiseqItem], wide: bool) -> OnfiseqAnswer
    requires sound { IsSound bus.old }
    requires wide { wide ≡ is_wide (bus_view bus.old).geometry.optional }
    ensures { (g : Parts) (n : ℕ) → Follows g n (bus_view bus.old) [] → result ≡ checked g n [] items.now 0 }
{
    let mut rest = items;
    let mut at = 0;
    'items: while let Some((first, behind)) = rest.split_first() {
        let Some(item) = first.item(wide) else {
            return OnfiseqAnswer::of(b'I', 0, at);
        };
        if let Some(rule) = push_item(bus, item) {
            return OnfiseqAnswer::of(b'F', rule.number(), at);
        }
        rest = behind;
        at += 1;
    }
    OnfiseqAnswer::of(0, 0, at)
}

// Checks the items on a channel of its own.
fn check_on(geometry: &OnfiseqGeometry, targets: u8, items: &[OnfiseqItem]) -> OnfiseqAnswer
    requires limits { InLimits (parts_of geometry.now) }
    requires few { targets ≤ 4 }
    ensures { result ≡ checked (parts_of geometry.now) targets [] items.now 0 }
{
    let mut bus = OnfiseqBus {
        magic: 0,
        geometry: *geometry,
        count: 0,
        targets: [NO_TARGET; 4],
    };
    renew(&mut bus, geometry, targets);
    let wide = is_wide(&bus);
    check_items(&mut bus, items, wide)
}

/// Checks whether the items are a legal trace on a channel of so many targets of this geometry.
#[unsafe(no_mangle)]
pub extern "C" fn onfiseq_check(
    geometry: &OnfiseqGeometry,
    targets: u8,
    items: &[OnfiseqItem],
) -> OnfiseqAnswer
    ensures { result ≡ answered (parts_of geometry.now) targets items.now }
{
    if targets < 1 || targets > 4 {
        return OnfiseqAnswer::of(b'T', 0, 0);
    }
    match Geometry::of(geometry.parts()) {
        Ok(_) => check_on(geometry, targets, items),
        Err(fault) => OnfiseqAnswer::of(b'P', fault.number(), 0),
    }
}
