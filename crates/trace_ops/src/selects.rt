//! What an operation selects: a status, a column, data.
ghost use Rattle.std.specs.Prelude.{◌≡◌, slice_get, if◌then◌else◌};
ghost use Rattle.trace_ops.specs.declared.role.Role.TheVariants.{Nothing as NoRole};
ghost use Rattle.trace_ops.specs.Listing.{Listing, may_select, role_of_command, role_of_address, role_of_kind, role_by, is_unshown, folded_into, folded_if, held_in, held_by, selected_by, selected_on, all_selected};

use crate::begins::begins_by;
use crate::change::{Change, change_at};
use crate::judged::Judged;
use crate::looks::{gives_data, gives_status};
use crate::operation::{Operation, is_byte, is_permitted};
use crate::owner::{either_of, op_of};
use crate::places::Places;
use crate::role::Role;
use onfi_cycle::{Cycle, Item, Kind, LunState, Register};
use std::alloc::Allocator;

// This, if it is so.
fn role_if(is: bool, role: Role) -> Role
    ensures { result ≡ (if is then role else NoRole) }
{
    if is { role } else { Role::Nothing }
}

// What a command is to a LUN that begins work by it or doesn't, after it.
fn role_of_command(byte: u8, starts: bool, after: Option<LunState>) -> Role
    ensures { result ≡ role_of_command byte starts after }
{
    match byte {
        0x70 => role_if(gives_status(after), Role::Asks),
        0x30 => role_if(starts, Role::Gives),
        0x31 | 0x3f => role_if(starts, Role::Holds),
        0xe0 => role_if(gives_data(after), Role::Holds),
        0x00 => role_if(gives_data(after), Role::Returns),
        _ => Role::Nothing,
    }
}

// What an address of an operation is.
fn role_of_address(operation: Operation, starts: bool, after: Option<LunState>) -> Role
    ensures { result ≡ role_of_address operation starts after }
{
    let opener = operation.opener();
    if is_byte(opener, 0x78) {
        role_if(
            operation.address_count == 3 && gives_status(after),
            Role::Asks,
        )
    } else if is_byte(opener, 0x90) || is_byte(opener, 0xec) {
        role_if(starts || gives_data(after), Role::Gives)
    } else {
        Role::Nothing
    }
}

// What a cycle of this kind is.
fn role_of_kind(
    operation: Operation,
    cycle: Cycle,
    starts: bool,
    after: Option<LunState>,
    kind: Kind,
) -> Role
    ensures { result ≡ role_of_kind operation cycle starts after kind }
{
    match kind {
        Kind::Cmd => role_of_command(cycle.byte, starts, after),
        Kind::Adr => role_of_address(operation, starts, after),
        Kind::Din | Kind::Dout => Role::Nothing,
    }
}

// What an item makes of its operation to a LUN.
fn role_by(judged: &Judged, operation: Option<Operation>, item: Item, lun: u8) -> Role
    ensures { result ≡ role_by judged.now operation item lun }
{
    match (operation, item) {
        (Some(operation), Item::Cyc(cycle)) => {
            if is_permitted(judged.said) {
                let starts = begins_by(judged, item, lun);
                role_of_kind(operation, cycle, starts, judged.after.at(lun), cycle.kind)
            } else {
                Role::Nothing
            }
        }
        (None, _) | (Some(_), Item::Rdy { .. } | Item::Ard { .. }) => Role::Nothing,
    }
}

// The work hasn't been shown to be over by a status byte.
fn is_unshown(operation: Option<Operation>) -> bool
    ensures { result ≡ is_unshown operation }
{
    match operation {
        None => false,
        Some(operation) => operation.status.is_none(),
    }
}

// The operation is a part of this one.
fn fold_into<A: Allocator>(ops: &mut Vec<Operation, A>, number: usize, parent: Option<usize>)
    ensures { ops.new.items ≡ folded_into number parent ops.old.items }
{
    if let Some(parent) = parent {
        if parent != number {
            change_at(ops, number, Change::Fold { parent });
        }
    }
}

fn fold_if<A: Allocator>(
    ops: &mut Vec<Operation, A>,
    unshown: bool,
    number: usize,
    parent: Option<usize>,
)
    ensures { ops.new.items ≡ folded_if unshown number parent ops.old.items }
{
    if unshown {
        fold_into(ops, number, parent);
    }
}

// Its outputs give the page that the register holds.
fn hold<A: Allocator>(ops: &mut Vec<Operation, A>, number: usize, lun: Option<LunState>)
    ensures { ops.new.items ≡ held_by lun number ops.old.items }
{
    if let Some(lun) = lun {
        match lun.register {
            Register::Page(page) => change_at(ops, number, Change::Hold { page }),
            Register::Empty
            | Register::ParameterPage
            | Register::Identifier
            | Register::Identity
            | Register::JedecIdentity
            | Register::UniqueId
            | Register::Features(_) => {}
        }
    }
}

// What a role makes of a LUN.
fn select_by<A: Allocator>(
    ops: &mut Vec<Operation, A>,
    places: &mut Places,
    judged: &Judged,
    role: Role,
    number: usize,
    lun: u8,
)
    ensures ops { ops.new.items ≡ (selected_by role judged.now number lun (record { places = places.old; ops = ops.old.items })).ops }
    ensures places { places.new ≡ (selected_by role judged.now number lun (record { places = places.old; ops = ops.old.items })).places }
{
    let ce = judged.ce;
    match role {
        Role::Nothing => {}
        Role::Asks => {
            let worker = places.worker(ce, lun);
            let unshown = is_unshown(op_of(ops.as_slice(), worker));
            change_at(ops, number, Change::SetLun { lun });
            fold_if(ops, unshown, number, worker);
            places.note_asker(ce, lun, number);
        }
        Role::Gives => places.note_giver(ce, lun, number),
        Role::Holds => {
            change_at(ops, number, Change::SetLun { lun });
            hold(ops, number, judged.after.at(lun));
            places.note_giver(ce, lun, number);
        }
        Role::Returns => {
            let parent = either_of(places.worker(ce, lun), places.giver(ce, lun));
            change_at(ops, number, Change::SetLun { lun });
            fold_into(ops, number, parent);
        }
    }
}

// What the item of an operation makes of a LUN.
#[tactic(auto, using(crate::proofs::Selecting::absent_selects_nothing))]
fn select_on<A: Allocator>(
    ops: &mut Vec<Operation, A>,
    places: &mut Places,
    judged: &Judged,
    number: usize,
    lun: u8,
)
    ensures ops { ops.new.items ≡ (selected_on judged.now number lun (record { places = places.old; ops = ops.old.items })).ops }
    ensures places { places.new ≡ (selected_on judged.now number lun (record { places = places.old; ops = ops.old.items })).places }
{
    if judged.after.at(lun).is_none() {
        return;
    }
    let operation = op_of(ops.as_slice(), Some(number));
    let role = role_by(judged, operation, judged.item, lun);
    select_by(ops, places, judged, role, number, lun);
}

// What the item of an operation makes of each LUN.
fn select_each<A: Allocator>(
    ops: &mut Vec<Operation, A>,
    places: &mut Places,
    judged: &Judged,
    number: usize,
)
    ensures ops { ops.new.items ≡ (all_selected judged.now number (record { places = places.old; ops = ops.old.items })).ops }
    ensures places { places.new ≡ (all_selected judged.now number (record { places = places.old; ops = ops.old.items })).places }
{
    select_on(ops, places, judged, number, 0);
    select_on(ops, places, judged, number, 1);
    select_on(ops, places, judged, number, 2);
    select_on(ops, places, judged, number, 3);
}

// Commands and addresses alone select something.
fn may_select(item: Item) -> bool
    ensures { result ≡ may_select item }
{
    match item {
        Item::Cyc(cycle) => match cycle.kind {
            Kind::Cmd | Kind::Adr => true,
            Kind::Din | Kind::Dout => false,
        },
        Item::Rdy { .. } | Item::Ard { .. } => false,
    }
}

/// What the item of an operation makes of each LUN.
#[tactic(auto, using(crate::proofs::Selecting::selects_nothing))]
pub(crate) fn select_all<A: Allocator>(
    ops: &mut Vec<Operation, A>,
    places: &mut Places,
    judged: &Judged,
    number: usize,
)
    ensures ops { ops.new.items ≡ (all_selected judged.now number (record { places = places.old; ops = ops.old.items })).ops }
    ensures places { places.new ≡ (all_selected judged.now number (record { places = places.old; ops = ops.old.items })).places }
{
    if may_select(judged.item) {
        select_each(ops, places, judged, number);
    }
}
