//! Going on with the running state by bursts.
ghost use Rattle.std.specs.Prelude.{◌≡◌, ℕ, ◌+◌, ◌≤◌, false, if◌then◌else◌, List, [], ◌∷◌, length, replicate};
ghost use Rattle.nand_geometry.specs.declared.parts.Parts.{Parts};
ghost use Rattle.onfi_cycle.specs.State.{Follows};
ghost use Rattle.onfi_cycle.specs.Permitted.{is_permitted};
ghost use Rattle.onfi_cycle.specs.declared.item.Kind.TheVariants.{Adr, Din};
ghost use Rattle.micro_program.specs.Moves.{Give, Take, gives, part, outputs};
ghost use Rattle.seq_live.specs.Burst.{moves_of, all_moves, BurstFits, AllFit};
ghost use Rattle.seq_live.specs.Calls.{CanMove, HasMoved};

use crate::burst::Burst;
use onfi_cycle::{BusState, Cycle, Item, Kind, Lun};

// One cycle that is given.
fn give(state: &mut BusState, lun: Lun, kind: Kind, byte: u8)
    requires { CanMove state.old lun (Give kind byte ∷ []) }
    ensures { HasMoved state.old state.new lun.ce (Give kind byte ∷ []) [] }
{
    state.apply(Item::Cyc(Cycle {
        ce: lun.ce,
        kind,
        byte,
    }));
}

// Address cycles.
fn give_addresses(state: &mut BusState, lun: Lun, bytes: &[u8])
    requires { CanMove state.old lun (gives Adr bytes.now) }
    ensures { HasMoved state.old state.new lun.ce (gives Adr bytes.now) [] }
{
    for byte in bytes {
        give(state, lun, Kind::Adr, *byte);
    }
}

// Data inputs: these bytes.
fn feed(state: &mut BusState, lun: Lun, bytes: &[u8])
    requires { CanMove state.old lun (gives Din bytes.now) }
    ensures { HasMoved state.old state.new lun.ce (gives Din bytes.now) [] }
{
    state.apply_inputs(lun.ce, bytes.len());
}

// Data outputs: so many, whatever they give.
fn take(state: &mut BusState, lun: Lun, len: usize)
    requires { CanMove state.old lun (replicate len Take) }
    ensures { (bytes : List ℕ) → length bytes ≡ len → HasMoved state.old state.new lun.ce (replicate len Take) bytes }
{
    state.apply_outputs(lun.ce, len);
}

// The bytes of an address burst.
fn address_bytes(five: &[u8; 5], from: u8, count: u8) -> &[u8]
    requires { from + count ≤ 5 }
    ensures { result.now ≡ part from count five.now }
{
    &five[usize::from(from)..usize::from(from + count)]
}

// Goes on by one burst of a job with this buffer.
fn apply(state: &mut BusState, lun: Lun, buffer: &[u8], burst: Burst)
    requires fits { BurstFits (length buffer.now) burst }
    requires can { CanMove state.old lun (moves_of buffer.now burst) }
    ensures { (bytes : List ℕ) → length bytes ≡ outputs (moves_of buffer.now burst) → HasMoved state.old state.new lun.ce (moves_of buffer.now burst) bytes }
{
    match burst {
        Burst::Command { byte, .. } => give(state, lun, Kind::Cmd, byte),
        Burst::Address {
            five,
            from,
            count,
            ..
        } => give_addresses(state, lun, address_bytes(&five, from, count)),
        Burst::Input { place, len, .. } => feed(state, lun, &buffer[place..place + len]),
        Burst::Output { len, .. } => take(state, lun, len),
    }
}

/// Goes on by these bursts of a job with this buffer, one after another, whatever their outputs give.
pub(crate) fn apply_all(state: &mut BusState, lun: Lun, buffer: &[u8], bursts: &[Burst])
    requires fits { AllFit (length buffer.now) bursts.now }
    requires can { CanMove state.old lun (all_moves buffer.now bursts.now) }
    ensures { (bytes : List ℕ) → length bytes ≡ outputs (all_moves buffer.now bursts.now)
        → HasMoved state.old state.new lun.ce (all_moves buffer.now bursts.now) bytes }
{
    match bursts {
        [] => {}
        [first, rest @ ..] => {
            apply(state, lun, buffer, *first);
            apply_all(state, lun, buffer, rest);
        }
    }
}

/// Goes on by a ready where it is permitted; whether it was.
pub(crate) fn go_on_if(state: &mut BusState, ready: Item) -> bool
    ensures past { (g : Parts) (n : ℕ) (past : List Item) → Follows g n state.old past
        → (result ≡ is_permitted g n past ready) × Follows g n state.new (if result then ready ∷ past else past) }
    ensures no { result ≡ false → state.new ≡ state.old }
{
    let is_permitted = state.judge(ready).is_none();
    if is_permitted {
        state.apply(ready);
    }
    is_permitted
}
