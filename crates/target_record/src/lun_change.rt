//! What an effect leaves of the record of a LUN, written where it stands.
ghost use Rattle.std.specs.Prelude.{◌≡◌, ◌+◌, ◌%◌, ◌^◌, ◌<◌, ◌≤◌, ◌++◌, true, false, if◌then◌else◌, Some, None, [], ◌∷◌, length, take};
ghost use Rattle.onfi_cycle.specs.declared.command.Command.{Command as CommandValue};
ghost use Rattle.onfi_cycle.specs.declared.effect.Effect.{Effect as EffectValue};
ghost use Rattle.onfi_cycle.specs.declared.latch.Latch.{Latch as LatchValue};
ghost use Rattle.onfi_cycle.specs.declared.register.Register.{Register as RegisterValue};
ghost use Rattle.onfi_cycle.specs.Lun.{column_at, has_reads, latch_after, selected_after, overlapped_after, works, queue_after, view_after, page_in_plane, register_of_plane, of_other_planes, held_on, pages_of_reads, is_copyback_read, leaves_array_busy};
ghost use Rattle.target_record.specs.Record.{IsRecord, lun_of, pages_of, queue_of};

use crate::judging::closer;
use crate::record::{
    NO_PAGE, NO_ROW, OnfiseqHeld, OnfiseqLun, OnfiseqQueued, closer_byte, flag, held_record,
    held_records, is_set, latch_code, latch_of, page_of, queued_of, queued_record, register_record,
};
use onfi_cycle::{
    Command, Effect, Failures, HeldPages, Latch, MAX_PLANES, PageAddress, Queued, Register,
    RowQueue, apply_to_held, has_reads, is_cache_program, is_cache_read, keeps_array_busy,
};

// Its next output gives this column of its register.
#[inline(always)]
fn set_column(kept: &mut OnfiseqLun, column: u32)
    requires { IsRecord kept.old }
    ensures value { lun_of kept.new ≡ record (lun_of kept.old) { column = column_at column } }
    ensures numbers { IsRecord kept.new }
{
    kept.has_column = 1;
    kept.lost = 0;
    kept.column = column;
    kept.outputs = 0;
}

// Its register holds this, after this closer.
#[inline(always)]
fn set_register(kept: &mut OnfiseqLun, closer: Command, register: Register)
    requires { IsRecord kept.old }
    ensures value { lun_of kept.new ≡ record (lun_of kept.old) { closer = Some closer; array_busy = false; register = register } }
    ensures queue { (kept.new.queued ≡ kept.old.queued) × (kept.new.queue ≡ kept.old.queue) }
    ensures numbers { IsRecord kept.new }
{
    let register = register_record(register);
    kept.has_closer = 1;
    kept.closer = closer_byte(Some(closer));
    kept.array_busy = 0;
    kept.register = register.code;
    kept.register_block = register.block;
    kept.register_page = register.page;
}

// Its plane registers hold no page.
#[inline(always)]
fn hold_none(kept: &mut OnfiseqLun)
    requires { IsRecord kept.old }
    ensures value { lun_of kept.new ≡ record (lun_of kept.old) { held = [] } }
    ensures queue { (kept.new.queued ≡ kept.old.queued) × (kept.new.queue ≡ kept.old.queue) }
    ensures numbers { IsRecord kept.new }
{
    kept.holds = 0;
    kept.held = [NO_PAGE; 4];
}

// They hold this page alone.
#[inline(always)]
fn hold_one(kept: &mut OnfiseqLun, page: PageAddress)
    requires { IsRecord kept.old }
    ensures value { lun_of kept.new ≡ record (lun_of kept.old) { held = page ∷ [] } }
    ensures numbers { IsRecord kept.new }
{
    kept.holds = 1;
    kept.held = [held_record(page), NO_PAGE, NO_PAGE, NO_PAGE];
}

// They hold these pages.
fn hold_all(kept: &mut OnfiseqLun, pages: &[PageAddress])
    requires numbers { IsRecord kept.old }
    requires few { length pages.now ≤ 4 }
    ensures value { lun_of kept.new ≡ record (lun_of kept.old) { held = pages.now } }
    ensures numbers { IsRecord kept.new }
{
    kept.holds = pages.len();
    kept.held = held_records(pages);
}

// Its queue is empty.
#[inline(always)]
fn queue_none(kept: &mut OnfiseqLun)
    requires { IsRecord kept.old }
    ensures value { lun_of kept.new ≡ record (lun_of kept.old) { queue = [] } }
    ensures numbers { IsRecord kept.new }
{
    kept.queue = [NO_ROW; 4];
    kept.queued = 0;
}

// It gives what its register holds, from this column on.
#[inline(always)]
fn give_register(kept: &mut OnfiseqLun, closer: Command, register: Register, column: u32)
    requires { IsRecord kept.old }
    ensures value { lun_of kept.new ≡ record (lun_of kept.old) { latch = LatchValue.Data; closer = Some closer; array_busy = false; register = register; column = column_at column } }
    ensures numbers { IsRecord kept.new }
{
    set_register(kept, closer, register);
    set_column(kept, column);
    kept.latch = latch_code(Latch::Data);
}

// It is the selected LUN of its target.
#[inline(always)]
fn be_selected(kept: &mut OnfiseqLun)
    requires { IsRecord kept.old }
    ensures value { lun_of kept.new ≡ record (lun_of kept.old) { selected = true } }
    ensures numbers { IsRecord kept.new }
    ensures queue { kept.new.queued ≡ kept.old.queued }
{
    kept.selected = 1;
}

// It does what is done for its whole target, whose work overlaps no more.
#[inline(always)]
fn act_for_target(kept: &mut OnfiseqLun)
    requires { IsRecord kept.old }
    ensures value { lun_of kept.new ≡ record (lun_of kept.old) { selected = true; overlapped = false } }
    ensures numbers { IsRecord kept.new }
{
    kept.selected = 1;
    kept.overlapped = 0;
}

// It reads a page for this closer, this being what its register is to hold, and gives it from this column on.
#[inline(always)]
fn begin_read(
    kept: &mut OnfiseqLun,
    closer: Command,
    page: PageAddress,
    register: Register,
    column: u32,
)
    requires { IsRecord kept.old }
    ensures value { lun_of kept.new ≡ record (lun_of kept.old) { latch = LatchValue.Data; selected = true; busy = true; closer = Some closer; array_busy = false; array_page = page; register = register; column = column_at column } }
    ensures numbers { IsRecord kept.new }
{
    give_register(kept, closer, register, column);
    be_selected(kept);
    kept.busy = 1;
    kept.array_block = page.block;
    kept.array_page = page.page;
}

// What the register is to hold behind a read of this page: none where reads are queued, since a plane is selected first.
fn register_behind(queue: &[Queued], page: PageAddress) -> Register
    ensures { result ≡ register_of_plane (if has_reads queue.now then None else Some page) }
{
    if has_reads(queue) {
        Register::Empty
    } else {
        Register::Page(page)
    }
}

// It reads a page, and those of the reads that it has queued.
fn start_reads(kept: &mut OnfiseqLun, page: PageAddress, column: u32)
    requires { IsRecord kept.old }
    ensures value { lun_of kept.new ≡ view_after (EffectValue.ReadStarted page column) (lun_of kept.old) }
    ensures numbers { IsRecord kept.new }
{
    let rows = queue_rows(&kept.queue[..kept.queued]);
    let mut held = HeldPages::new();
    apply_to_held(
        &mut held,
        Effect::ReadStarted { page, column },
        false,
        page,
        rows.as_slice(),
    );
    let register = register_behind(rows.as_slice(), page);
    begin_read(kept, Command::ReadConfirm, page, register, column);
    queue_none(kept);
    hold_all(kept, held.as_slice());
}

// It reads a page, and those of the reads that it has queued, and gives it from this column on.
#[inline(always)]
fn start_read(kept: &mut OnfiseqLun, page: PageAddress, column: u32)
    requires { IsRecord kept.old }
    ensures value { lun_of kept.new ≡ view_after (EffectValue.ReadStarted page column) (lun_of kept.old) }
    ensures numbers { IsRecord kept.new }
{
    if kept.queued == 0 {
        begin_read(
            kept,
            Command::ReadConfirm,
            page,
            Register::Page(page),
            column,
        );
        queue_none(kept);
        hold_one(kept, page);
    } else {
        start_reads(kept, page, column);
    }
}

// Adds a page, if there is room.
fn hold_page(held: &mut HeldPages, page: PageAddress)
    requires { length held.old.items ≤ 4 }
    ensures { held.new.items ≡ take 4 (held.old.items ++ (page ∷ [])) }
{
    if held.len() < MAX_PLANES {
        held.push(page);
    }
}

// Adds a page, if it lies in another plane of so many than this one and there is room.
fn hold_other(held: &mut HeldPages, planes: u32, page: PageAddress, other: PageAddress)
    requires { length held.old.items ≤ 4 }
    ensures { held.new.items ≡ take 4 (held.old.items ++ of_other_planes planes page (other ∷ [])) }
{
    if plane_of(other.block, planes) != plane_of(page.block, planes) {
        hold_page(held, other);
    }
}

// Adds the pages of other planes.
fn hold_others(held: &mut HeldPages, planes: u32, page: PageAddress, kept: &[OnfiseqHeld])
    requires { length held.old.items ≤ 4 }
    ensures { held.new.items ≡ take 4 (held.old.items ++ of_other_planes planes page (pages_of kept.now)) }
{
    match kept {
        [] => {}
        [first, rest @ ..] => {
            hold_other(held, planes, page, page_of(first));
            hold_others(held, planes, page, rest)
        }
    }
}

// The last closer is Copyback Read.
fn is_copyback_read(closer: Option<Command>) -> bool
    ensures { result ≡ is_copyback_read closer }
{
    closer == Some(Command::CopybackRead)
}

// The pages that it holds behind a read of this page for a copyback: those of the queued reads too, and those of other planes that were read for
// one before it.
#[tactic(auto, using(onfi_cycle::proofs::HeldPages::copies_hold, onfi_cycle::proofs::HeldPages::copies_hold_none))]
fn held_for_copyback(
    kept: &OnfiseqLun,
    queue: &[Queued],
    page: PageAddress,
    planes: u32,
) -> HeldPages
    requires { IsRecord kept.now }
    ensures { result.items ≡ take 4 (page ∷ (pages_of_reads queue.now ++ held_on planes page (is_copyback_read (lun_of kept.now).closer) (lun_of kept.now).held)) }
{
    let mut held = HeldPages::new();
    apply_to_held(
        &mut held,
        Effect::ReadStarted { page, column: 0 },
        false,
        page,
        queue,
    );
    if is_copyback_read(closer(kept)) {
        hold_others(&mut held, planes, page, &kept.held[..kept.holds]);
    }
    held
}

// It reads a page for a copyback, and those of the reads that it has queued.
fn start_copyback_read(kept: &mut OnfiseqLun, page: PageAddress, column: u32, planes: u32)
    requires { IsRecord kept.old }
    ensures value { lun_of kept.new ≡ view_after (EffectValue.CopybackReadStarted page column planes) (lun_of kept.old) }
    ensures numbers { IsRecord kept.new }
{
    let rows = queue_rows(&kept.queue[..kept.queued]);
    let held = held_for_copyback(kept, rows.as_slice(), page, planes);
    let register = register_behind(rows.as_slice(), page);
    begin_read(kept, Command::CopybackRead, page, register, column);
    queue_none(kept);
    hold_all(kept, held.as_slice());
}

// It queues the read of a page, and shows data.
#[inline(always)]
fn queue_read(kept: &mut OnfiseqLun, page: PageAddress)
    requires numbers { IsRecord kept.old }
    requires room { kept.old.queued ≤ 3 }
    ensures value { lun_of kept.new ≡ view_after (EffectValue.ReadQueued page) (lun_of kept.old) }
    ensures numbers { IsRecord kept.new }
{
    queue_work(kept, Command::ReadPlane, Queued::Read(page));
    hold_none(kept);
    kept.latch = latch_code(Latch::Data);
}

// It gives the page that its array has read, after this closer, and its array is at this page then.
#[inline(always)]
fn give_cached(kept: &mut OnfiseqLun, closer: Command, next: u64)
    requires { IsRecord kept.old }
    ensures value { lun_of kept.new ≡ record (lun_of kept.old) { latch = LatchValue.Data; busy = true; closer = Some closer; array_busy = false; array_page = record { block = kept.old.array_block; page = next }; register = RegisterValue.Page (lun_of kept.old).array_page; held = (lun_of kept.old).array_page ∷ []; column = column_at 0 } }
    ensures numbers { IsRecord kept.new }
{
    let page = PageAddress {
        block: kept.array_block,
        page: kept.array_page,
    };
    give_register(kept, closer, Register::Page(page), 0);
    hold_one(kept, page);
    kept.busy = 1;
    kept.array_page = next;
}

// It gives the page that its array has read, and the array reads the next.
#[inline(always)]
fn continue_cache_read(kept: &mut OnfiseqLun)
    requires numbers { IsRecord kept.old }
    requires array_page { kept.old.array_page < 2 ^ 32 }
    ensures value { lun_of kept.new ≡ view_after (EffectValue.CacheReadContinued None) (lun_of kept.old) }
    ensures numbers { IsRecord kept.new }
{
    let next = kept.array_page + 1;
    give_cached(kept, Command::ReadCacheSequential, next);
}

// It gives the page that its array has read, and the array reads this one.
#[inline(always)]
fn read_cache_at(kept: &mut OnfiseqLun, page: PageAddress)
    requires { IsRecord kept.old }
    ensures value { lun_of kept.new ≡ view_after (EffectValue.CacheReadContinued (Some page)) (lun_of kept.old) }
    ensures numbers { IsRecord kept.new }
{
    give_cached(kept, Command::ReadCacheSequential, page.page);
    be_selected(kept);
    kept.array_block = page.block;
}

// Its array begins to work for this closer.
#[inline(always)]
fn begin_work(kept: &mut OnfiseqLun, closer: Command)
    requires { IsRecord kept.old }
    ensures value { lun_of kept.new ≡ record (lun_of kept.old) { selected = true; busy = true; closer = Some closer; array_busy = false; register = RegisterValue.Empty } }
    ensures numbers { IsRecord kept.new }
    ensures queue { kept.new.queued ≡ kept.old.queued }
{
    set_register(kept, closer, Register::Empty);
    be_selected(kept);
    kept.busy = 1;
}

// Adds the rows of a queue behind those that are there.
fn add_rows(rows: &mut RowQueue, queue: &[OnfiseqQueued])
    requires { length rows.old.items + length queue.now ≤ 4 }
    ensures { rows.new.items ≡ rows.old.items ++ queue_of queue.now }
{
    match queue {
        [] => {}
        [first, rest @ ..] => {
            rows.push(queued_of(first));
            add_rows(rows, rest);
        }
    }
}

// The rows of a queue.
fn queue_rows(queue: &[OnfiseqQueued]) -> RowQueue
    requires { length queue.now ≤ 4 }
    ensures { result.items ≡ queue_of queue.now }
{
    let mut rows = RowQueue::new();
    add_rows(&mut rows, queue);
    rows
}

// It has one row more in its queue.
#[inline(always)]
fn queue_row(kept: &mut OnfiseqLun, row: Queued)
    requires numbers { IsRecord kept.old }
    requires room { kept.old.queued ≤ 3 }
    ensures value { lun_of kept.new ≡ record (lun_of kept.old) { queue = row ∷ (lun_of kept.old).queue } }
    ensures numbers { IsRecord kept.new }
{
    let queue = kept.queue;
    kept.queue = [queued_record(row), queue[0], queue[1], queue[2]];
    kept.queued += 1;
}

// Its array works for this closer, with one row more in its queue.
#[inline(always)]
fn queue_work(kept: &mut OnfiseqLun, closer: Command, row: Queued)
    requires numbers { IsRecord kept.old }
    requires room { kept.old.queued ≤ 3 }
    ensures value { lun_of kept.new ≡ record (lun_of kept.old) { selected = true; busy = true; closer = Some closer; array_busy = false; register = RegisterValue.Empty; queue = row ∷ (lun_of kept.old).queue } }
    ensures numbers { IsRecord kept.new }
{
    begin_work(kept, closer);
    queue_row(kept, row);
}

// It programs one plane of several: its array goes on with the page of a Page Cache Program before it.
fn queue_program(kept: &mut OnfiseqLun, page: PageAddress)
    requires numbers { IsRecord kept.old }
    requires room { kept.old.queued ≤ 3 }
    ensures value { lun_of kept.new ≡ view_after (EffectValue.ProgramStarted true page) (lun_of kept.old) }
    ensures numbers { IsRecord kept.new }
{
    let goes_on = keeps_array_busy(closer(kept)) && is_set(kept.array_busy);
    queue_work(kept, Command::ProgramPlane, Queued::Program(page));
    kept.array_busy = flag(goes_on);
}

// Its array works for this closer, which empties its queue.
#[inline(always)]
fn start_work(kept: &mut OnfiseqLun, closer: Command)
    requires { IsRecord kept.old }
    ensures value { lun_of kept.new ≡ record (lun_of kept.old) { selected = true; busy = true; closer = Some closer; array_busy = false; register = RegisterValue.Empty; queue = []; held = [] } }
    ensures numbers { IsRecord kept.new }
{
    begin_work(kept, closer);
    queue_none(kept);
    hold_none(kept);
}

// It is reset.
#[inline(always)]
fn reset(kept: &mut OnfiseqLun)
    requires { IsRecord kept.old }
    ensures value { lun_of kept.new ≡ view_after EffectValue.ResetStarted (lun_of kept.old) }
    ensures numbers { IsRecord kept.new }
{
    start_work(kept, Command::Reset);
    kept.latch = latch_code(Latch::Off);
}

// All LUNs of its target are reset, of which it is the first, or not.
#[inline(always)]
fn reset_of_target(kept: &mut OnfiseqLun, is_first: bool)
    requires { IsRecord kept.old }
    ensures value { lun_of kept.new ≡ view_after (EffectValue.TargetResetStarted is_first) (lun_of kept.old) }
    ensures numbers { IsRecord kept.new }
{
    reset(kept);
    kept.selected = flag(is_first);
    kept.overlapped = 0;
}

// It changes at most what it shows, and whether it is selected or overlapped.
#[inline(always)]
fn turn(kept: &mut OnfiseqLun, effect: Effect)
    requires { IsRecord kept.old }
    ensures value { lun_of kept.new ≡ record (lun_of kept.old) {
      latch = latch_after effect (lun_of kept.old).selected (works (lun_of kept.old)) (lun_of kept.old).latch;
      selected = selected_after effect (lun_of kept.old).selected;
      overlapped = overlapped_after effect (works (lun_of kept.old)) (lun_of kept.old).overlapped;
    } }
    ensures numbers { IsRecord kept.new }
{
    let works = is_set(kept.busy) || is_set(kept.array_busy);
    let selected = is_set(kept.selected);
    kept.latch = latch_code(effect.latch_after(selected, works, latch_of(kept.latch)));
    kept.selected = flag(effect.selected_after(selected));
    kept.overlapped = flag(effect.overlapped_after(works, is_set(kept.overlapped)));
}

// The plane in which a block lies. Any number of planes may be handed in.
#[tactic(auto, using(crate::proofs::Planes::mod_zero))]
fn plane_of(block: u32, planes: u32) -> u32
    ensures { result ≡ block % planes }
{
    if planes == 0 { block } else { block % planes }
}

/// The page of this plane among these, where a LUN has so many planes.
pub(crate) fn page_in_plane(planes: u32, plane: u32, held: &[OnfiseqHeld]) -> Option<PageAddress>
    ensures { result ≡ page_in_plane planes plane (pages_of held.now) }
{
    match held {
        [] => None,
        [first, rest @ ..] => {
            if plane_of(first.block, planes) == plane {
                Some(page_of(first))
            } else {
                page_in_plane(planes, plane, rest)
            }
        }
    }
}

// The register of a page, or of none.
fn register_of_plane(page: Option<PageAddress>) -> Register
    ensures { result ≡ register_of_plane page }
{
    match page {
        None => Register::Empty,
        Some(page) => Register::Page(page),
    }
}

// It gives the page that it holds in this plane of so many, from this column on.
#[inline(always)]
fn select_plane(kept: &mut OnfiseqLun, plane: u32, planes: u32, column: u32)
    requires { IsRecord kept.old }
    ensures value { lun_of kept.new ≡ view_after (EffectValue.PlaneSelected plane planes column) (lun_of kept.old) }
    ensures numbers { IsRecord kept.new }
{
    let page = page_in_plane(planes, plane, &kept.held[..kept.holds]);
    let register = register_record(register_of_plane(page));
    kept.register = register.code;
    kept.register_block = register.block;
    kept.register_page = register.page;
    set_column(kept, column);
    turn(
        kept,
        Effect::PlaneSelected {
            plane,
            planes,
            column,
        },
    );
}

// It reads its parameter page.
#[inline(always)]
fn read_parameter_page(kept: &mut OnfiseqLun)
    requires { IsRecord kept.old }
    ensures value { lun_of kept.new ≡ view_after EffectValue.ParameterPageReadStarted (lun_of kept.old) }
    ensures numbers { IsRecord kept.new }
{
    give_register(kept, Command::ReadParameterPage, Register::ParameterPage, 0);
    hold_none(kept);
    act_for_target(kept);
    kept.busy = 1;
}

// It gives an identity, and is not busy with it.
#[inline(always)]
fn give_identity(kept: &mut OnfiseqLun, register: Register)
    requires { IsRecord kept.old }
    ensures value { lun_of kept.new ≡ record (lun_of kept.old) { latch = LatchValue.Data; selected = true; overlapped = false; closer = Some CommandValue.ReadId; array_busy = false; register = register; held = []; column = column_at 0 } }
    ensures numbers { IsRecord kept.new }
{
    give_register(kept, Command::ReadId, register, 0);
    hold_none(kept);
    act_for_target(kept);
}

// It reads what stands beside its array, after this closer, and is busy with it.
#[inline(always)]
fn read_beside(kept: &mut OnfiseqLun, closer: Command, register: Register)
    requires { IsRecord kept.old }
    ensures value { lun_of kept.new ≡ record (lun_of kept.old) { latch = LatchValue.Data; selected = true; overlapped = false; busy = true; closer = Some closer; array_busy = false; register = register; held = []; column = column_at 0 } }
    ensures numbers { IsRecord kept.new }
{
    give_register(kept, closer, register, 0);
    hold_none(kept);
    act_for_target(kept);
    kept.busy = 1;
}

// It sets a feature.
#[inline(always)]
fn set_features(kept: &mut OnfiseqLun, address: u8)
    requires { IsRecord kept.old }
    ensures value { lun_of kept.new ≡ view_after (EffectValue.FeaturesSet address) (lun_of kept.old) }
    ensures numbers { IsRecord kept.new }
{
    let _address = address;
    set_register(kept, Command::SetFeatures, Register::Empty);
    hold_none(kept);
    act_for_target(kept);
    kept.busy = 1;
}

/// A LUN goes on by an effect.
pub fn change(kept: &mut OnfiseqLun, effect: Effect)
    requires numbers { IsRecord kept.old }
    requires outputs { kept.old.outputs ≤ 2 ^ 16 }
    requires array_page { kept.old.array_page < 2 ^ 32 }
    requires room { length (queue_after effect (lun_of kept.old).queue) ≤ 4 }
    ensures value { lun_of kept.new ≡ view_after effect (lun_of kept.old) }
    ensures numbers { IsRecord kept.new }
{
    match effect {
        Effect::Unaffected => {}
        Effect::DataOutputEnabled
        | Effect::SelectedForStatus
        | Effect::Deselected
        | Effect::AnotherAddressed { .. } => turn(kept, effect),
        Effect::StatusSelected | Effect::StatusOfSelected | Effect::StatusRowAwaited => {
            kept.lost = flag(is_set(kept.lost) || 0 < kept.outputs);
            turn(kept, effect);
        }
        Effect::ReadStarted { page, column } => start_read(kept, page, column),
        Effect::ReadQueued { page } => queue_read(kept, page),
        Effect::CopybackReadStarted {
            page,
            column,
            planes,
        } => start_copyback_read(kept, page, column, planes),
        Effect::ProgramAddressed => hold_none(kept),
        Effect::EraseStarted { queued: true, row } => {
            queue_work(kept, Command::BlockErasePlane, Queued::Erase(row));
            hold_none(kept);
        }
        Effect::EraseStarted { queued: false, .. } => {
            start_work(kept, Command::BlockEraseConfirm);
        }
        Effect::ProgramStarted { queued: true, page } => {
            queue_program(kept, page);
        }
        Effect::ProgramStarted { queued: false, .. } => {
            start_work(kept, Command::ProgramConfirm);
        }
        Effect::CacheProgramStarted { .. } => start_work(kept, Command::ProgramCache),
        Effect::IdRead => give_identity(kept, Register::Identifier),
        Effect::IdentityRead { jedec: true } => give_identity(kept, Register::JedecIdentity),
        Effect::IdentityRead { jedec: false } => give_identity(kept, Register::Identity),
        Effect::ParameterPageReadStarted => read_parameter_page(kept),
        Effect::UniqueIdReadStarted => {
            read_beside(kept, Command::ReadUniqueId, Register::UniqueId);
        }
        Effect::FeaturesReadStarted { address } => {
            read_beside(kept, Command::GetFeatures, Register::Features(address));
        }
        Effect::FeaturesSet { address } => set_features(kept, address),
        Effect::CacheReadContinued { to: None } => continue_cache_read(kept),
        Effect::CacheReadContinued { to: Some(page) } => read_cache_at(kept, page),
        Effect::CacheReadEnded => {
            let next = kept.array_page;
            give_cached(kept, Command::ReadCacheEnd, next);
        }
        Effect::ReadColumnChanged { column } => set_column(kept, column),
        Effect::PlaneSelected {
            plane,
            planes,
            column,
        } => select_plane(kept, plane, planes, column),
        Effect::DataOutput => kept.outputs += 1,
        Effect::ResetStarted => reset(kept),
        Effect::TargetResetStarted { first } => reset_of_target(kept, first),
        Effect::BecameReady { fail } => become_ready(kept, fail),
        Effect::ArrayBecameReady { fail } => become_array_ready(kept, fail),
    }
}

// The array goes on with its work behind the ready of this closer.
fn leaves_array_busy(closer: Option<Command>) -> bool
    ensures { result ≡ leaves_array_busy closer }
{
    is_cache_read(closer) || is_cache_program(closer)
}

/// It becomes ready, with failures or without.
pub fn become_ready(kept: &mut OnfiseqLun, fail: Failures)
    requires { IsRecord kept.old }
    ensures value { lun_of kept.new ≡ view_after (EffectValue.BecameReady fail) (lun_of kept.old) }
    ensures numbers { IsRecord kept.new }
{
    let _fail = fail;
    let goes_on = leaves_array_busy(closer(kept));
    kept.array_busy = flag(is_set(kept.array_busy) || is_set(kept.busy) && goes_on);
    kept.busy = 0;
}

/// Its array becomes ready, with failure or without.
pub fn become_array_ready(kept: &mut OnfiseqLun, fail: bool)
    requires { IsRecord kept.old }
    ensures value { lun_of kept.new ≡ view_after (EffectValue.ArrayBecameReady fail) (lun_of kept.old) }
    ensures numbers { IsRecord kept.new }
{
    let _fail = fail;
    kept.array_busy = 0;
}
