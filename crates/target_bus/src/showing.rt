//! What the one driver of a target shows.
ghost use Rattle.std.specs.Prelude.{◌≡◌, ℕ, ◌+◌, ◌<◌, ◌≤◌, List, Some, None, IfSome, length, slice_get};
ghost use Rattle.std.specs.Option.{option_copied};
ghost use Rattle.nand_geometry.specs.declared.parts.Parts.{Parts};
ghost use Rattle.nand_geometry.specs.Page.{parameter_bytes};
ghost use Rattle.onfi_cycle.specs.declared.item.Item.{Item};
ghost use Rattle.onfi_cycle.specs.declared.item.Kind.TheVariants.{Dout};
ghost use Rattle.onfi_cycle.specs.Effect.{is_off};
ghost use Rattle.onfi_cycle.specs.Lun.{drivers_from, latch, read_column, output_column};
ghost use Rattle.onfi_cycle.specs.Permitted.{broken};
ghost use Rattle.onfi_cycle.specs.Channel.{Channel, cycle, bus_byte};
ghost use Rattle.onfi_cycle.specs.Content.{shown, shown_by, byte_at};
ghost use Rattle.onfi_cycle.specs.State.{Follows};
ghost use Rattle.die_model.specs.Die.{status_of, bytes_shown};
ghost use Rattle.die_model.specs.Standing.{IsDieOf};
ghost use Rattle.onfi_cycle.specs.Outputs.{judged_outputs};
ghost use Rattle.target_bus.specs.Bus.{channel_on, Entries, first_of, IsStanding, AreShown, AreOf, HasBytes};

use die_model::LunDie;
use onfi_cycle::{BusState, Latch, Lun, LunState};
use std::alloc::Allocator;

// A LUN drives nothing.
fn is_off_at(state: &BusState, lun: Lun) -> bool
    ensures { (g : Parts) (n : ℕ) (past : List Item) → Follows g n state.now past → lun.ce < n → lun.lun < g.luns
        → result ≡ is_off (latch g past lun) }
{
    match state.lun_state(lun) {
        None => true,
        Some(found) => found.latch.is_off(),
    }
}

// Of the LUNs of a target from this number on, the first that isn't off.
fn first_driver(state: &BusState, ce: u8, luns: u8, lun: u8) -> Option<u8>
    requires { lun ≤ luns }
    ensures there { IfSome result (λ found. found < luns) }
    ensures past { (g : Parts) (targets : ℕ) (past : List Item) (count : ℕ) → Follows g targets state.now past → ce < targets
        → g.luns ≡ luns → lun + count ≡ luns
        → result ≡ first_of (drivers_from (λ m. latch g past (record { ce = ce; lun = m })) count lun) }
{
    if lun == luns {
        return None;
    }
    if is_off_at(state, Lun { ce, lun }) {
        return first_driver(state, ce, luns, lun + 1);
    }
    Some(lun)
}

// The die of this number, if it is there.
fn die_at<A: Allocator>(dies: &[LunDie<A>], place: usize) -> Option<&LunDie<A>>
    ensures { option_copied result ≡ slice_get dies.now place }
{
    dies.get(place)
}

// The byte that a die shows under a latch, its status or that of a column of its register, where it shows one.
fn shown_as<A: Allocator + Copy>(die: &LunDie<A>, look: LunState) -> u8
    ensures { (byte : ℕ) → shown_by look.latch (status_of die.now) (byte_at (bytes_shown die.now) look.column) ≡ Some byte → result ≡ byte }
{
    match look.latch {
        Latch::Off => 0,
        Latch::Status => die.status().0,
        Latch::Data => match look.column {
            None => 0,
            Some(column) => match die.shown(column as usize) {
                None => 0,
                Some(byte) => byte,
            },
        },
    }
}

// The byte that a LUN shows, where it shows one.
fn byte_of<A: Allocator + Copy>(state: &BusState, die: &LunDie<A>, lun: Lun) -> u8
    ensures { (s : Channel) (past : List Item) (byte : ℕ) → Follows s.geometry s.targets state.now past → lun.ce < s.targets
        → lun.lun < s.geometry.luns → IsDieOf s past lun die.now → parameter_bytes s.geometry ≡ s.parameters
        → shown s.geometry s.parameters s.opening past lun ≡ Some byte → result ≡ byte }
{
    match state.lun_state(lun) {
        None => 0,
        Some(look) => shown_as(die, look),
    }
}

// Copies what a die shows in a run of outputs, its status or the bytes of its register from a column on, where it has them.
fn copy_shown_as<A: Allocator + Copy>(die: &LunDie<A>, look: LunState, into: &mut [u8])
    ensures { HasBytes die.now look.latch look.column (length into.old) → AreOf die.now look.latch look.column into.new }
{
    match (look.latch, look.column) {
        (Latch::Status, _) => into.fill(die.status().0),
        (Latch::Data, Some(column)) => die.copy_shown(column as usize, into),
        _ => {}
    }
}

// Copies what a LUN shows in a run of outputs.
fn copy_of<A: Allocator + Copy>(state: &BusState, die: &LunDie<A>, lun: Lun, into: &mut [u8])
    ensures { (g : Parts) (n : ℕ) (past : List Item) → Follows g n state.now past → lun.ce < n → lun.lun < g.luns
        → HasBytes die.now (latch g past lun) (output_column (read_column g past lun)) (length into.old)
        → AreOf die.now (latch g past lun) (output_column (read_column g past lun)) into.new }
{
    match state.lun_state(lun) {
        None => {}
        Some(look) => copy_shown_as(die, look, into),
    }
}

/// Copies what the one driver of a target shows in a run of outputs, where they are permitted.
pub fn copy_shown<A: Allocator + Copy>(
    state: &BusState,
    dies: &[LunDie<A>],
    ce: u8,
    into: &mut [u8],
)
    requires few { length dies.now ≤ 16 }
    ensures { (opened : List Entries) (past : List Item) → IsStanding state.now opened dies.now past
        → judged_outputs ce (length into.old) state.now ≡ None
        → AreShown (channel_on state.now.geometry (length state.now.targets) opened) ce into.new past }
{
    // Its contract says that what is kept fits.
    state.facts_fit();
    let luns = state.geometry().parts().luns;
    match first_driver(state, ce, luns, 0) {
        None => {}
        Some(lun) => match die_at(dies, Lun { ce, lun }.place(luns)) {
            None => {}
            Some(die) => copy_of(state, die, Lun { ce, lun }, into),
        },
    }
}

/// The byte that the one driver of a target shows, where an output of it is permitted.
pub fn shown_byte<A: Allocator + Copy>(state: &BusState, dies: &[LunDie<A>], ce: u8) -> u8
    requires { length dies.now ≤ 16 }
    ensures { (opened : List Entries) (past : List Item) → IsStanding state.now opened dies.now past
        → broken state.now.geometry (length state.now.targets) past (cycle ce Dout 0) ≡ None
        → bus_byte (channel_on state.now.geometry (length state.now.targets) opened) past ce ≡ Some result }
{
    let luns = state.geometry().parts().luns;
    match first_driver(state, ce, luns, 0) {
        None => 0,
        Some(lun) => match die_at(dies, Lun { ce, lun }.place(luns)) {
            None => 0,
            Some(die) => byte_of(state, die, Lun { ce, lun }),
        },
    }
}
