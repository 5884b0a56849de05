//! The state of a target as numbers in the caller's memory, so that it may be copied, compared, or kept where the caller likes.
ghost use Rattle.std.specs.Prelude.{◌≡◌, ◌≤◌, ◌<◌, ◌^◌, length, take, IfSome};
ghost use Rattle.std.specs.List.{All};
ghost use Rattle.onfi_cycle.specs.Command.{command};
ghost use Rattle.target_record.specs.Record.{is_set, latch_of, phase_of, closer_of, opening_of, register_of, given_of, queued_of, queue_of, page_of, pages_of, lun_of, luns_of, tail_of, target_of, page_address, IsRecord, HasRoom};

use onfi_cycle::{
    Command, DataPhase, Latch, LunFacts, Opening, PageAddress, Queued, Register, RowBytes,
    RowQueue, TailFacts, TargetState,
};

/// A row in the queue of a LUN. `kind`: 0 an erase's, 1 a program's, 2 a read's.
#[repr(C)]
#[derive(Clone, Copy)]
pub struct OnfiseqQueued {
    pub page: u64,
    pub block: u32,
    pub kind: u8,
}

/// A page that a plane register of a LUN holds.
#[repr(C)]
#[derive(Clone, Copy)]
pub struct OnfiseqHeld {
    pub page: u64,
    pub block: u32,
}

/// What is kept of a LUN.
#[repr(C)]
#[derive(Clone, Copy)]
pub struct OnfiseqLun {
    pub latch: u8,
    pub busy: u8,
    pub has_closer: u8,
    pub closer: u8,
    pub array_busy: u8,
    pub register: u8,
    pub has_column: u8,
    pub lost: u8,
    pub column: u32,
    pub array_block: u32,
    pub array_page: u64,
    pub register_block: u32,
    pub selected: u8,
    pub overlapped: u8,
    pub register_page: u64,
    pub outputs: usize,
    pub queued: usize,
    pub queue: [OnfiseqQueued; 4],
    pub holds: usize,
    pub held: [OnfiseqHeld; 4],
}

/// What is kept of a target.
#[repr(C)]
#[derive(Clone, Copy)]
pub struct OnfiseqTarget {
    pub is_open: u8,
    pub opener: u8,
    pub phase: u8,
    pub r1: u8,
    pub r2: u8,
    pub r3: u8,
    pub is_empty: u8,
    pub column: u32,
    pub addresses: usize,
    pub inputs: usize,
    pub count: usize,
    pub luns: [OnfiseqLun; 4],
}

/// Whether a flag of a record is set: any number but 0.
#[inline(always)]
pub fn is_set(flag: u8) -> bool
    ensures { result ≡ is_set flag }
{
    flag != 0
}

/// The flag of a yes or no.
#[inline(always)]
pub fn flag(yes: bool) -> u8
    ensures { is_set result ≡ yes }
{
    u8::from(yes)
}

/// What a LUN drives the bus with, by the number in its record.
#[inline(always)]
pub fn latch_of(code: u8) -> Latch
    ensures { result ≡ latch_of code }
{
    match code {
        0 => Latch::Off,
        1 => Latch::Status,
        _ => Latch::Data,
    }
}

/// The number of what a LUN drives the bus with.
#[inline(always)]
pub fn latch_code(latch: Latch) -> u8
    ensures { latch_of result ≡ latch }
{
    match latch {
        Latch::Off => 0,
        Latch::Status => 1,
        Latch::Data => 2,
    }
}

#[inline(always)]
pub(crate) fn phase_of(code: u8) -> DataPhase
    ensures { result ≡ phase_of code }
{
    match code {
        0 => DataPhase::Outside,
        1 => DataPhase::Inputs,
        2 => DataPhase::FirstColumn,
        3 => DataPhase::SecondColumn,
        _ => DataPhase::FeatureInputs,
    }
}

#[inline(always)]
pub(crate) fn phase_code(phase: DataPhase) -> u8
    ensures { phase_of result ≡ phase }
{
    match phase {
        DataPhase::Outside => 0,
        DataPhase::Inputs => 1,
        DataPhase::FirstColumn => 2,
        DataPhase::SecondColumn => 3,
        DataPhase::FeatureInputs => 4,
    }
}

// The byte of a command. 01h is none of the commands, so it stands for any that isn't known.
#[tactic(auto, unfolding(onfi_cycle::specs::Command::command))]
pub(crate) fn command_code(named: Command) -> u8
    ensures { command result ≡ named }
{
    match named.opcode() {
        Some(byte) => byte,
        None => 1,
    }
}

pub(crate) fn queued_of(kept: &OnfiseqQueued) -> Queued
    ensures { result ≡ queued_of kept.now }
{
    let at = PageAddress {
        block: kept.block,
        page: kept.page,
    };
    match kept.kind {
        0 => Queued::Erase(at),
        1 => Queued::Program(at),
        _ => Queued::Read(at),
    }
}

/// The record of a row in a queue.
pub(crate) fn queued_record(queued: Queued) -> OnfiseqQueued
    ensures { queued_of result ≡ queued }
{
    match queued {
        Queued::Erase(at) => OnfiseqQueued {
            page: at.page,
            block: at.block,
            kind: 0,
        },
        Queued::Program(at) => OnfiseqQueued {
            page: at.page,
            block: at.block,
            kind: 1,
        },
        Queued::Read(at) => OnfiseqQueued {
            page: at.page,
            block: at.block,
            kind: 2,
        },
    }
}

/// What stands in the free places of a queue.
pub(crate) const NO_ROW: OnfiseqQueued = OnfiseqQueued {
    page: 0,
    block: 0,
    kind: 0,
};

/// What stands in the free places of the pages that are held.
pub(crate) const NO_PAGE: OnfiseqHeld = OnfiseqHeld { page: 0, block: 0 };

/// The page of a record.
#[inline(always)]
pub(crate) fn page_of(kept: &OnfiseqHeld) -> PageAddress
    ensures { result ≡ page_of kept.now }
{
    PageAddress {
        block: kept.block,
        page: kept.page,
    }
}

/// The record of a page.
#[inline(always)]
pub(crate) fn held_record(page: PageAddress) -> OnfiseqHeld
    ensures { page_of result ≡ page }
{
    OnfiseqHeld {
        page: page.page,
        block: page.block,
    }
}

/// The records of the pages that are held, at the front of the array.
pub(crate) fn held_records(held: &[PageAddress]) -> [OnfiseqHeld; 4]
    requires { length held.now ≤ 4 }
    ensures { pages_of (take (length held.now) result) ≡ held.now }
{
    let mut records = [NO_PAGE; 4];
    for (place, page) in held.iter().enumerate() {
        records[place] = held_record(*page);
    }
    records
}

// The records of a queue, at the front of the array.
fn queue_records(queue: &[Queued]) -> [OnfiseqQueued; 4]
    requires { length queue.now ≤ 4 }
    ensures { queue_of (take (length queue.now) result) ≡ queue.now }
{
    let mut records = [NO_ROW; 4];
    for (place, queued) in queue.iter().enumerate() {
        records[place] = queued_record(*queued);
    }
    records
}

/// What a LUN's register holds, by the numbers in its record.
#[inline(always)]
pub fn register_of(code: u8, block: u32, page: u64) -> Register
    ensures { result ≡ register_of code block page }
{
    match code {
        0 => Register::Empty,
        1 => Register::Page(PageAddress { block, page }),
        2 => Register::ParameterPage,
        3 => Register::Identifier,
        4 => Register::Identity,
        5 => Register::JedecIdentity,
        6 => Register::UniqueId,
        _ => Register::Features((block % 256) as u8),
    }
}

/// A register as numbers.
#[derive(Clone, Copy)]
pub(crate) struct RegisterRecord {
    pub code: u8,
    pub block: u32,
    pub page: u64,
}

/// A register as numbers.
pub(crate) fn register_record(register: Register) -> RegisterRecord
    ensures { register_of result.code result.block result.page ≡ register }
{
    match register {
        Register::Empty => RegisterRecord {
            code: 0,
            block: 0,
            page: 0,
        },
        Register::Page(at) => RegisterRecord {
            code: 1,
            block: at.block,
            page: at.page,
        },
        Register::ParameterPage => RegisterRecord {
            code: 2,
            block: 0,
            page: 0,
        },
        Register::Identifier => RegisterRecord {
            code: 3,
            block: 0,
            page: 0,
        },
        Register::Identity => RegisterRecord {
            code: 4,
            block: 0,
            page: 0,
        },
        Register::JedecIdentity => RegisterRecord {
            code: 5,
            block: 0,
            page: 0,
        },
        Register::UniqueId => RegisterRecord {
            code: 6,
            block: 0,
            page: 0,
        },
        Register::Features(address) => RegisterRecord {
            code: 7,
            block: u32::from(address),
            page: 0,
        },
    }
}

/// The last closer of a LUN, by its byte in the record, if it had one.
#[inline(always)]
pub fn closer_of(has: bool, byte: u8) -> Option<Command>
    ensures { result ≡ closer_of has byte }
{
    if has { Some(Command::of(byte)) } else { None }
}

#[inline(always)]
pub(crate) fn given_of(has: bool, column: u32) -> Option<u32>
    ensures { result ≡ given_of has column }
{
    if has { Some(column) } else { None }
}

/// The byte of a closer in its record, 0 where there is none.
pub(crate) fn closer_byte(closer: Option<Command>) -> u8
    ensures { IfSome closer (λ c. command result ≡ c) }
{
    match closer {
        None => 0,
        Some(closer) => command_code(closer),
    }
}

fn lun_record(lun: &LunFacts<RowQueue>) -> OnfiseqLun
    requires { HasRoom lun.now }
    ensures value { lun_of result ≡ lun.now }
    ensures fits { IsRecord result }
{
    let register = register_record(lun.register);
    let queue = queue_records(lun.queue.as_slice());
    let held = held_records(lun.held.as_slice());
    OnfiseqLun {
        latch: latch_code(lun.latch),
        busy: flag(lun.busy),
        has_closer: flag(lun.closer.is_some()),
        closer: closer_byte(lun.closer),
        array_busy: flag(lun.array_busy),
        register: register.code,
        has_column: flag(lun.column.given.is_some()),
        lost: flag(lun.column.lost),
        column: lun.column.given.unwrap_or(0),
        array_block: lun.array_page.block,
        array_page: lun.array_page.page,
        register_block: register.block,
        selected: flag(lun.selected),
        overlapped: flag(lun.overlapped),
        register_page: register.page,
        outputs: lun.column.outputs,
        queued: lun.queue.len(),
        queue,
        holds: lun.held.len(),
        held,
    }
}

// What stands in the free places of a target.
const NO_LUN: OnfiseqLun = OnfiseqLun {
    latch: 0,
    busy: 0,
    has_closer: 0,
    closer: 0,
    array_busy: 0,
    register: 0,
    has_column: 0,
    lost: 0,
    column: 0,
    array_block: 0,
    array_page: 0,
    register_block: 0,
    selected: 0,
    overlapped: 0,
    register_page: 0,
    outputs: 0,
    queued: 0,
    queue: [NO_ROW; 4],
    holds: 0,
    held: [NO_PAGE; 4],
};

/// What stands in the free places of a channel.
pub const NO_TARGET: OnfiseqTarget = OnfiseqTarget {
    is_open: 0,
    opener: 0,
    phase: 0,
    r1: 0,
    r2: 0,
    r3: 0,
    is_empty: 1,
    column: 0,
    addresses: 0,
    inputs: 0,
    count: 0,
    luns: [NO_LUN; 4],
};

fn lun_records(luns: &[LunFacts<RowQueue>]) -> [OnfiseqLun; 4]
    requires count { length luns.now ≤ 4 }
    requires queues { All HasRoom luns.now }
    ensures value { luns_of (take (length luns.now) result) ≡ luns.now }
    ensures numbers { All IsRecord result }
{
    let mut records = [NO_LUN; 4];
    for (place, lun) in luns.iter().enumerate() {
        records[place] = lun_record(lun);
    }
    records
}

/// The beginning of a tail, by the numbers in its record, if it has one.
#[inline(always)]
pub fn opening_of(has: bool, byte: u8, addresses: usize) -> Option<Opening>
    ensures { result ≡ opening_of has byte addresses }
{
    if has {
        Some(Opening {
            opener: Command::of(byte),
            addresses,
        })
    } else {
        None
    }
}

#[inline(always)]
pub(crate) fn opener_byte(opening: Option<Opening>) -> u8
    ensures { IfSome opening (λ o. command result ≡ o.opener) }
{
    match opening {
        None => 0,
        Some(opening) => command_code(opening.opener),
    }
}

#[inline(always)]
pub(crate) fn address_count(opening: Option<Opening>) -> usize
    ensures { IfSome opening (λ o. result ≡ o.addresses) }
{
    match opening {
        None => 0,
        Some(opening) => opening.addresses,
    }
}

/// The facts of a tail that a record stands for.
#[inline(always)]
pub fn tail_of(kept: &OnfiseqTarget) -> TailFacts
    ensures { result ≡ tail_of kept.now }
{
    TailFacts {
        opening: opening_of(is_set(kept.is_open), kept.opener, kept.addresses),
        phase: phase_of(kept.phase),
        row: RowBytes {
            r1: kept.r1,
            r2: kept.r2,
            r3: kept.r3,
        },
        column: kept.column,
        inputs: kept.inputs,
        is_empty: is_set(kept.is_empty),
    }
}

/// The record of a target.
pub fn record_of(target: &TargetState) -> OnfiseqTarget
    requires count { length target.now.luns ≤ 4 }
    requires queues { All HasRoom target.now.luns }
    ensures value { target_of result ≡ target.now }
    ensures count { result.count ≤ 4 }
    ensures numbers { All IsRecord result.luns }
{
    let tail = target.tail;
    let luns = lun_records(target.luns.as_slice());
    OnfiseqTarget {
        is_open: flag(tail.opening.is_some()),
        opener: opener_byte(tail.opening),
        phase: phase_code(tail.phase),
        r1: tail.row.r1,
        r2: tail.row.r2,
        r3: tail.row.r3,
        is_empty: flag(tail.is_empty),
        column: tail.column,
        addresses: address_count(tail.opening),
        inputs: tail.inputs,
        count: target.luns.len(),
        luns,
    }
}
