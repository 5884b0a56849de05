//! Whether a record is one that a target can have, by its numbers alone: whatever bytes a caller hands in, what isn't one is found before anything is done with it.
ghost use Rattle.std.specs.Prelude.{◌≡◌, ◌+◌, ◌≤◌, length, true};
ghost use Rattle.std.specs.List.{All, list_all};
ghost use Rattle.onfi_cycle.specs.Bounds.{is_in_use, is_row, names_erase, names_identity, names_program, names_read, names_row, plane_of, room_in, rooms};
ghost use Rattle.onfi_cycle.specs.Effect.{names_lun};
ghost use Rattle.nand_geometry.specs.Limits.{InLimits, fault_of};
ghost use Rattle.std.specs.Option.{is_none};
ghost use Rattle.target_record.specs.Geometry.{parts_of};
ghost use Rattle.target_record.specs.Record.{IsRecord, IsTarget, lun_of, luns_of, queue_of, queued_of, tail_of, target_of};
ghost use Rattle.target_record.specs.Whole.{IsWhole, WholeAreTaken, are_numbers, erase_goes, given_fits, identity_waits, is_record, is_short, is_whole, lun_fits, lun_stands, luns_fit, page_goes, program_goes, queue_fits, read_goes, row_goes, row_lies, row_stands, stands_alone, tail_fits, target_fits};

use crate::geometry::OnfiseqGeometry;
use crate::judging::{is_shared, some_queued_clashes, some_read_clashes};
use crate::record::{
    OnfiseqLun, OnfiseqQueued, OnfiseqTarget, given_of, is_set, queued_of, tail_of,
};
use nand_geometry::Geometry;
use onfi_cycle::{Command, DataPhase, FEATURE_BYTES, Opening, PageAddress, Queued, TailFacts};

// ---- the numbers of a record

fn is_record(lun: &OnfiseqLun) -> bool
    ensures value { result ≡ is_record lun.now }
    ensures numbers { result ≡ true → IsRecord lun.now }
{
    lun.queued <= 4 && lun.holds <= 4 && lun.outputs < 1 << 63
}

fn are_records(luns: &[OnfiseqLun; 4]) -> bool
    ensures value { result ≡ list_all is_record luns.now }
    ensures numbers { result ≡ true → All IsRecord luns.now }
{
    is_record(&luns[0]) && is_record(&luns[1]) && is_record(&luns[2]) && is_record(&luns[3])
}

/// Whether the counts in a record of a target are in their arrays.
pub fn are_numbers(kept: &OnfiseqTarget) -> bool
    ensures value { result ≡ are_numbers kept.now }
    ensures numbers { result ≡ true → IsTarget kept.now }
{
    kept.count <= 4 && are_records(&kept.luns)
}

// ---- the tail

fn is_short(opening: Option<Opening>) -> bool
    ensures { result ≡ is_short opening }
{
    match opening {
        None => true,
        Some(opening) => opening.addresses <= 5,
    }
}

fn stands_alone(tail: TailFacts) -> bool
    ensures { result ≡ stands_alone tail }
{
    tail.opening.is_none() || (!tail.phase.wants_column() && !tail.is_empty)
}

fn tail_fits(geometry: &OnfiseqGeometry, tail: TailFacts) -> bool
    ensures { result ≡ tail_fits (parts_of geometry.now) tail }
{
    tail.column < 65536
        && tail.inputs as u64 <= geometry.page_len() + FEATURE_BYTES as u64
        && is_short(tail.opening)
        && stands_alone(tail)
        && (!tail.is_empty || matches!(tail.phase, DataPhase::Outside))
        && (!tail.phase.takes_features() || tail.inputs < FEATURE_BYTES)
}

// ---- what the tail names

// The whole row of a read.
fn names_read(tail: TailFacts) -> bool
    ensures { result ≡ names_read tail }
{
    match tail.opening {
        None => false,
        Some(opening) => opening.opener == Command::Read && opening.addresses == 5,
    }
}

// The whole row of an erase.
fn names_erase(tail: TailFacts) -> bool
    ensures { result ≡ names_erase tail }
{
    match tail.opening {
        None => false,
        Some(opening) => opening.opener == Command::BlockErase && opening.addresses == 3,
    }
}

// The whole row of a program.
fn names_program(tail: TailFacts) -> bool
    ensures { result ≡ names_program tail }
{
    tail.phase.takes_data() || tail.phase.wants_column()
}

fn names_row(tail: TailFacts) -> bool
    ensures { result ≡ names_row tail }
{
    names_read(tail) || names_erase(tail) || names_program(tail)
}

// What reads or sets what stands beside the array waits for its address, or a Set Features for its bytes.
fn names_identity(tail: TailFacts) -> bool
    ensures { result ≡ names_identity tail }
{
    let opens = match tail.opening {
        None => false,
        Some(opening) => opening.opener.reads_identity() && opening.addresses == 0,
    };
    opens || tail.phase.takes_features()
}

// ---- the queue of a LUN

fn plane_of(geometry: &Geometry, queued: &OnfiseqQueued) -> u32
    ensures { result ≡ plane_of geometry.now (queued_of queued.now) }
{
    match queued_of(queued) {
        Queued::Erase(at) | Queued::Program(at) | Queued::Read(at) => at.block % geometry.planes(),
    }
}

// Some row of the queue lies in this plane.
fn is_in_use(geometry: &Geometry, plane: u32, queue: &[OnfiseqQueued]) -> bool
    ensures { result ≡ is_in_use geometry.now plane (queue_of queue.now) }
{
    match queue {
        [] => false,
        [first, rest @ ..] => {
            plane_of(geometry, first) == plane || is_in_use(geometry, plane, rest)
        }
    }
}

fn room_in(geometry: &Geometry, plane: u32, queue: &[OnfiseqQueued]) -> usize
    ensures { result ≡ room_in geometry.now plane (queue_of queue.now) }
{
    if is_in_use(geometry, plane, queue) {
        0
    } else {
        1
    }
}

// How many of four planes hold no row of the queue.
fn rooms(geometry: &Geometry, queue: &[OnfiseqQueued]) -> usize
    ensures { result ≡ rooms geometry.now (queue_of queue.now) }
{
    room_in(geometry, 0, queue)
        + room_in(geometry, 1, queue)
        + room_in(geometry, 2, queue)
        + room_in(geometry, 3, queue)
}

// ---- a LUN

fn given_fits(given: Option<u32>) -> bool
    ensures { result ≡ given_fits given }
{
    match given {
        None => true,
        Some(column) => column < 65536,
    }
}

// A plane is left for each row that it may yet have.
fn queue_fits(geometry: &OnfiseqGeometry, lun: &OnfiseqLun) -> bool
    requires limits { InLimits (parts_of geometry.now) }
    requires numbers { IsRecord lun.now }
    ensures { result ≡ queue_fits (parts_of geometry.now) (lun_of lun.now) }
{
    if lun.queued == 0 {
        return true;
    }
    lun.queued + rooms(&geometry.known(), &lun.queue[..lun.queued]) <= 4
}

fn lun_fits(geometry: &OnfiseqGeometry, lun: &OnfiseqLun) -> bool
    requires limits { InLimits (parts_of geometry.now) }
    requires numbers { IsRecord lun.now }
    ensures { result ≡ lun_fits (parts_of geometry.now) (lun_of lun.now) }
{
    lun.outputs <= 65536
        && given_fits(given_of(is_set(lun.has_column), lun.column))
        && lun.array_page < 1 << 32
        && queue_fits(geometry, lun)
        && lun.holds <= 4
}

fn is_row(geometry: &Geometry, page: PageAddress) -> bool
    ensures { result ≡ is_row geometry.now page }
{
    let parts = geometry.parts();
    page.block < parts.blocks && page.page < u64::from(parts.pages)
}

// The row that the tail names lies on the LUN of this number.
fn row_lies(geometry: &Geometry, tail: TailFacts, number: usize) -> bool
    ensures { result ≡ row_lies geometry.now tail number }
{
    names_row(tail) && geometry.parts_of(tail.named_row()).lun as usize == number
}

// Where the tail names the row of a read, this page goes together with the queue.
fn read_goes(geometry: &Geometry, tail: TailFacts, page: PageAddress, lun: &OnfiseqLun) -> bool
    requires { IsRecord lun.now }
    ensures { result ≡ read_goes geometry.now tail page (lun_of lun.now) }
{
    !(names_read(tail) && some_read_clashes(geometry, page, &lun.queue[..lun.queued]))
}

// The same of an erase.
fn erase_goes(geometry: &Geometry, tail: TailFacts, page: PageAddress, lun: &OnfiseqLun) -> bool
    requires { IsRecord lun.now }
    ensures { result ≡ erase_goes geometry.now tail page (lun_of lun.now) }
{
    !(names_erase(tail) && some_queued_clashes(geometry, true, page, &lun.queue[..lun.queued]))
}

// The same of a program.
fn program_goes(geometry: &Geometry, tail: TailFacts, page: PageAddress, lun: &OnfiseqLun) -> bool
    requires { IsRecord lun.now }
    ensures { result ≡ program_goes geometry.now tail page (lun_of lun.now) }
{
    !(names_program(tail) && some_queued_clashes(geometry, false, page, &lun.queue[..lun.queued]))
}

// This page is inside the geometry, its LUN is ready, and it goes together with the queue.
fn page_goes(geometry: &Geometry, tail: TailFacts, page: PageAddress, lun: &OnfiseqLun) -> bool
    requires { IsRecord lun.now }
    ensures { result ≡ page_goes geometry.now tail page (lun_of lun.now) }
{
    is_row(geometry, page)
        && !is_set(lun.busy)
        && read_goes(geometry, tail, page, lun)
        && erase_goes(geometry, tail, page, lun)
        && program_goes(geometry, tail, page, lun)
}

// The row of the tail does.
fn row_goes(geometry: &Geometry, tail: TailFacts, lun: &OnfiseqLun) -> bool
    requires { IsRecord lun.now }
    ensures { result ≡ row_goes geometry.now tail (lun_of lun.now) }
{
    let page = PageAddress::of_row(geometry, tail.named_row());
    page_goes(geometry, tail, page, lun)
}

// Where the row of the tail lies on this LUN, it does.
fn known_row_stands(geometry: &Geometry, tail: &TailFacts, number: usize, lun: &OnfiseqLun) -> bool
    requires { IsRecord lun.now }
    ensures { result ≡ row_stands geometry.now tail.now number (lun_of lun.now) }
{
    !row_lies(geometry, *tail, number) || row_goes(geometry, *tail, lun)
}

// The same; a geometry is made for a row alone.
fn row_stands(geometry: &OnfiseqGeometry, tail: &TailFacts, number: usize, lun: &OnfiseqLun) -> bool
    requires limits { InLimits (parts_of geometry.now) }
    requires numbers { IsRecord lun.now }
    ensures { result ≡ row_stands (parts_of geometry.now) tail.now number (lun_of lun.now) }
{
    if !names_row(*tail) {
        return true;
    }
    known_row_stands(&geometry.known(), tail, number, lun)
}

fn identity_waits(
    geometry: &OnfiseqGeometry,
    tail: &TailFacts,
    number: usize,
    lun: &OnfiseqLun,
) -> bool
    ensures { result ≡ identity_waits (parts_of geometry.now) tail.now number (lun_of lun.now) }
{
    !names_identity(*tail) || (!is_set(lun.busy) && (is_shared(geometry) || number == 0))
}

// The LUN of this number.
#[inline(always)]
fn lun_stands(geometry: &OnfiseqGeometry, tail: &TailFacts, number: usize, lun: &OnfiseqLun) -> bool
    requires limits { InLimits (parts_of geometry.now) }
    requires numbers { IsRecord lun.now }
    ensures { result ≡ lun_stands (parts_of geometry.now) tail.now number (lun_of lun.now) }
{
    lun_fits(geometry, lun)
        && row_stands(geometry, tail, number, lun)
        && identity_waits(geometry, tail, number, lun)
}

// The LUNs of a target, from this number on.
fn luns_fit(geometry: &OnfiseqGeometry, tail: &TailFacts, number: u8, luns: &[OnfiseqLun]) -> bool
    requires limits { InLimits (parts_of geometry.now) }
    requires few { number + length luns.now ≤ 4 }
    requires numbers { All IsRecord luns.now }
    ensures { result ≡ luns_fit (parts_of geometry.now) tail.now number (luns_of luns.now) }
{
    match luns {
        [] => true,
        [first, rest @ ..] => {
            lun_stands(geometry, tail, usize::from(number), first)
                && luns_fit(geometry, tail, number + 1, rest)
        }
    }
}

// Those of a target of one LUN go without the recursion.
#[inline(always)]
fn all_fit(geometry: &OnfiseqGeometry, tail: &TailFacts, luns: &[OnfiseqLun]) -> bool
    requires limits { InLimits (parts_of geometry.now) }
    requires few { length luns.now ≤ 4 }
    requires numbers { All IsRecord luns.now }
    ensures { result ≡ luns_fit (parts_of geometry.now) tail.now 0 (luns_of luns.now) }
{
    match luns {
        [only] => lun_stands(geometry, tail, 0, only),
        _ => luns_fit(geometry, tail, 0, luns),
    }
}

#[inline(always)]
fn target_fits(geometry: &OnfiseqGeometry, kept: &OnfiseqTarget) -> bool
    requires limits { InLimits (parts_of geometry.now) }
    requires numbers { IsTarget kept.now }
    ensures { result ≡ target_fits (parts_of geometry.now) (target_of kept.now) }
{
    let tail = tail_of(kept);
    tail_fits(geometry, tail)
        && all_fit(geometry, &tail, &kept.luns[..kept.count])
        && kept.count == usize::from(geometry.luns)
}

// Whether the numbers of a geometry have no fault.
#[inline(always)]
fn has_limits(geometry: &OnfiseqGeometry) -> bool
    ensures value { result ≡ is_none (fault_of (parts_of geometry.now)) }
    ensures limits { result ≡ true → InLimits (parts_of geometry.now) }
{
    Geometry::of(geometry.parts()).is_ok()
}

/// Whether a record is one that a target of this geometry can have. Any numbers may be handed in.
pub fn is_whole(geometry: &OnfiseqGeometry, kept: &OnfiseqTarget) -> bool
    ensures value { result ≡ is_whole geometry.now kept.now }
    ensures whole { result ≡ true → IsWhole geometry.now kept.now }
{
    if !has_limits(geometry) {
        return false;
    }
    if !are_numbers(kept) {
        return false;
    }
    target_fits(geometry, kept)
}

/// The record of each target that permitted items have led there is taken.
pub fn whole_records_are_taken()
    ensures { WholeAreTaken }
{}
