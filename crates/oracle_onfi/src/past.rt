//! The facts of a target and of its LUNs, by looking back over a past, the newest item first.
ghost use Rattle.std.specs.Prelude.{[], ◌≡◌, ◌+◌, ◌^◌, ◌<◌, ◌≤◌, ◌∷◌, IfOk, length};
ghost use Rattle.onfi_cycle.specs.declared.lun.Lun.{Lun};
ghost use Rattle.onfi_cycle.specs.Effect.{IsSmallEffect, HasPlanes};
ghost use Rattle.onfi_cycle.specs.Sequence.{AreSmall, tail, facts_of};
ghost use Rattle.onfi_cycle.specs.Lun.{latch, drivers, is_only, latch_alone, effect_on, is_busy, closer, is_caching, is_array_busy, array_page, register, read_column, queue, queue_after, held_after, is_copyback_read, first_view, lun_view, luns_of, works};
ghost use Rattle.oracle_onfi.specs.Stepped.{IsShort, AreShort, given_alone, facts_by, stepped, stepped_from, firsts_from, numbers_from};

use nand_geometry::Geometry;
use onfi_cycle::{
    Command, Effect, HeldPages, Item, Latch, Lun, LunFacts, PageAddress, Queued, ReadColumn,
    Register, TailFacts, TargetCycle, apply_to_held, is_cache_read, is_copyback_read, item_effect,
};
use std::alloc::{AllocError, Global};

/// The facts of a target's tail.
pub fn tail_facts(past: &[Item], ce: u8) -> TailFacts
    ensures value { result ≡ facts_of (tail past.now ce) }
    ensures small { AreSmall (length past.now) result }
{
    match past {
        [] => TailFacts::none(),
        [first, rest @ ..] => {
            let t = tail_facts(rest, ce);
            match first {
                Item::Cyc(c) => {
                    if c.ce == ce {
                        t.after(TargetCycle::of(c.kind, c.byte))
                    } else {
                        t
                    }
                }
                Item::Rdy { .. } => t,
                Item::Ard { .. } => t,
            }
        }
    }
}

/// What the rules see of a LUN to which nothing has happened.
fn first_facts(alloc: Global, number: u8) -> LunFacts<Vec<Queued>>
    ensures { result ≡ first_view number }
{
    LunFacts {
        latch: Latch::Off,
        selected: number == 0,
        overlapped: false,
        busy: false,
        closer: None,
        array_busy: false,
        array_page: PageAddress { block: 0, page: 0 },
        register: Register::Empty,
        column: ReadColumn {
            given: None,
            outputs: 0,
            lost: false,
        },
        queue: Vec::new(alloc),
        held: HeldPages::new(),
    }
}

/// The same of so many LUNs of a target, from number `n` on.
fn firsts_from(
    alloc: Global,
    count: u8,
    number: u8,
) -> Result<Vec<LunFacts<Vec<Queued>>>, AllocError>
    requires { count + number < 256 }
    ensures value { IfOk result (λ v. v.items ≡ firsts_from count number) }
    ensures short { IfOk result (λ v. AreShort 0 v.items) }
{
    if count == 0 {
        return Ok(Vec::new(alloc));
    }
    let mut rest = firsts_from(alloc, count - 1, number + 1)?;
    rest.insert(0, first_facts(alloc, number))?;
    Ok(rest)
}

fn queue_after(alloc: Global, effect: Effect, before: &[Queued]) -> Result<Vec<Queued>, AllocError>
    ensures { IfOk result (λ v. v.items ≡ queue_after effect before.now) }
{
    let more = match effect {
        Effect::EraseStarted { queued: true, row } => Queued::Erase(row),
        Effect::ProgramStarted { queued: true, page } => Queued::Program(page),
        Effect::ReadQueued { page } => Queued::Read(page),
        Effect::ReadStarted { .. }
        | Effect::CopybackReadStarted { .. }
        | Effect::EraseStarted { .. }
        | Effect::ProgramStarted { .. }
        | Effect::CacheProgramStarted { .. }
        | Effect::ResetStarted
        | Effect::TargetResetStarted { .. } => {
            return Ok(Vec::new(alloc));
        }
        _ => return before.to_vec(alloc),
    };
    let mut queue = vec![in alloc; more]?;
    queue.extend_from_slice(before)?;
    Ok(queue)
}

fn held_after(effect: Effect, before: &LunFacts<Vec<Queued>>) -> Result<HeldPages, AllocError>
    requires { HasPlanes effect }
    ensures { IfOk result (λ v. v.items ≡ held_after effect (is_copyback_read before.now.closer) before.now.array_page before.now.queue before.now.held) }
{
    let mut held = before.held.clone()?;
    apply_to_held(
        &mut held,
        effect,
        is_copyback_read(before.closer),
        before.array_page,
        before.queue.as_slice(),
    );
    Ok(held)
}

/// What an item leaves of a LUN that showed this before it, and alone that.
#[tactic(auto, using(crate::proofs::Stepping::column_short, onfi_cycle::proofs::HeldPages::has_planes))]
fn facts_after(
    alloc: Global,
    given: Effect,
    effect: Effect,
    before: &LunFacts<Vec<Queued>>,
    most: usize,
) -> Result<LunFacts<Vec<Queued>>, AllocError>
    requires short { IsShort most before.now }
    requires few { most + 1 < 2 ^ 63 }
    requires small { IsSmallEffect effect }
    ensures value { IfOk result (λ v. v ≡ facts_by given effect before.now) }
    ensures short { IfOk result (IsShort (most + 1)) }
{
    let works = before.busy || before.array_busy;
    Ok(LunFacts {
        latch: given.latch_after(before.selected, works, before.latch),
        selected: effect.selected_after(before.selected),
        overlapped: effect.overlapped_after(works, before.overlapped),
        busy: effect.busy_after(before.busy),
        closer: effect.closer_after(before.closer),
        array_busy: effect.array_busy_after(before.busy, before.closer, before.array_busy),
        array_page: effect.array_page_after(before.array_page),
        register: effect.register_after(
            before.array_page,
            before.queue.as_slice(),
            before.held.as_slice(),
            before.register,
        ),
        column: effect.read_column_after(before.column),
        queue: queue_after(alloc, effect, before.queue.as_slice())?,
        held: held_after(effect, before)?,
    })
}

fn is_only(numbers: &[u8], number: u8) -> bool
    ensures { result ≡ is_only numbers.now number }
{
    match numbers {
        [] => false,
        [first, rest @ ..] => rest.is_empty() && *first == number,
    }
}

/// What a LUN shows if it is the one driver of its target, and else `Off`.
fn given_alone(numbers: &[u8], number: u8, latch: Latch) -> Latch
    ensures { result ≡ given_alone numbers.now number latch }
{
    if is_only(numbers, number) {
        latch
    } else {
        Latch::Off
    }
}

/// What an item leaves of a LUN of a target whose tail is this, and of which these LUNs drive the bus.
fn stepped(
    alloc: Global,
    geometry: &Geometry,
    tail: TailFacts,
    item: Item,
    lun: Lun,
    numbers: &[u8],
    before: &LunFacts<Vec<Queued>>,
    most: usize,
) -> Result<LunFacts<Vec<Queued>>, AllocError>
    requires short { IsShort most before.now }
    requires few { most + 1 < 2 ^ 63 }
    ensures value { IfOk result (λ v. v ≡ stepped geometry.now tail item lun numbers.now before.now) }
    ensures short { IfOk result (IsShort (most + 1)) }
{
    let given = item_effect(geometry, &tail, before.latch, item, lun);
    let alone = given_alone(numbers, lun.lun, before.latch);
    let effect = item_effect(geometry, &tail, alone, item, lun);
    facts_after(alloc, given, effect, before, most)
}

/// The same of the LUNs of a target, from this number on.
fn stepped_from(
    alloc: Global,
    geometry: &Geometry,
    tail: TailFacts,
    item: Item,
    first: Lun,
    numbers: &[u8],
    before: &[LunFacts<Vec<Queued>>],
    most: usize,
) -> Result<Vec<LunFacts<Vec<Queued>>>, AllocError>
    requires short { AreShort most before.now }
    requires few { most + 1 < 2 ^ 63 }
    requires numbers { first.lun + length before.now < 256 }
    ensures value { IfOk result (λ v. v.items ≡ stepped_from geometry.now tail item first.ce numbers.now first.lun before.now) }
    ensures short { IfOk result (λ v. AreShort (most + 1) v.items) }
{
    match before {
        [] => Ok(Vec::new(alloc)),
        [lun, others @ ..] => {
            let next = Lun {
                ce: first.ce,
                lun: first.lun + 1,
            };
            let mut rest = stepped_from(alloc, geometry, tail, item, next, numbers, others, most)?;
            let here = stepped(alloc, geometry, tail, item, first, numbers, lun, most)?;
            rest.insert(0, here)?;
            Ok(rest)
        }
    }
}

/// Of the LUNs of a target, from this number on, those that drive the bus.
fn numbers_from(
    alloc: Global,
    number: u8,
    luns: &[LunFacts<Vec<Queued>>],
) -> Result<Vec<u8>, AllocError>
    requires { number + length luns.now < 256 }
    ensures { IfOk result (λ v. v.items ≡ numbers_from number luns.now) }
{
    match luns {
        [] => Ok(Vec::new(alloc)),
        [lun, others @ ..] => {
            let mut rest = numbers_from(alloc, number + 1, others)?;
            if !lun.latch.is_off() {
                rest.insert(0, number)?;
            }
            Ok(rest)
        }
    }
}

/// What the rules see of the LUNs of a target, in order.
pub fn luns_of(
    alloc: Global,
    geometry: &Geometry,
    past: &[Item],
    ce: u8,
) -> Result<Vec<LunFacts<Vec<Queued>>>, AllocError>
    ensures value { IfOk result (λ v. v.items ≡ luns_of geometry.now past.now ce) }
    ensures short { IfOk result (λ v. AreShort (length past.now) v.items) }
{
    let luns = geometry.parts().luns;
    match past {
        [] => firsts_from(alloc, luns, 0),
        [item, rest @ ..] => {
            let before = luns_of(alloc, geometry, rest, ce)?;
            let numbers = numbers_from(alloc, 0, &before)?;
            let tail = tail_facts(rest, ce);
            let first = Lun { ce, lun: 0 };
            stepped_from(
                alloc,
                geometry,
                tail,
                *item,
                first,
                &numbers,
                &before,
                rest.len(),
            )
        }
    }
}

/// The LUNs of a target that drive the bus when it is read.
pub fn drivers(
    alloc: Global,
    geometry: &Geometry,
    past: &[Item],
    ce: u8,
) -> Result<Vec<u8>, AllocError>
    ensures { IfOk result (λ v. v.items ≡ drivers geometry.now past.now ce) }
{
    let _parts = geometry.parts();
    let luns = luns_of(alloc, geometry, past, ce)?;
    numbers_from(alloc, 0, &luns)
}

/// What the rules see of a LUN.
pub fn lun_facts(
    alloc: Global,
    geometry: &Geometry,
    past: &[Item],
    lun: Lun,
) -> Result<LunFacts<Vec<Queued>>, AllocError>
    ensures value { IfOk result (λ v. v ≡ lun_view geometry.now past.now lun) }
    ensures short { IfOk result (IsShort (length past.now)) }
{
    match past {
        [] => Ok(first_facts(alloc, lun.lun)),
        [item, rest @ ..] => {
            let before = lun_facts(alloc, geometry, rest, lun)?;
            let numbers = drivers(alloc, geometry, rest, lun.ce)?;
            let tail = tail_facts(rest, lun.ce);
            stepped(
                alloc,
                geometry,
                tail,
                *item,
                lun,
                &numbers,
                &before,
                rest.len(),
            )
        }
    }
}

/// What a LUN shows when it is read.
pub fn latch(
    alloc: Global,
    geometry: &Geometry,
    past: &[Item],
    lun: Lun,
) -> Result<Latch, AllocError>
    ensures { IfOk result (λ a. a ≡ latch geometry.now past.now lun) }
{
    Ok(lun_facts(alloc, geometry, past, lun)?.latch)
}

/// What a LUN shows if it is the one driver of its target, and else `Off`.
pub fn latch_alone(
    alloc: Global,
    geometry: &Geometry,
    past: &[Item],
    lun: Lun,
) -> Result<Latch, AllocError>
    ensures { IfOk result (λ a. a ≡ latch_alone geometry.now past.now lun) }
{
    let numbers = drivers(alloc, geometry, past, lun.ce)?;
    let latch = latch(alloc, geometry, past, lun)?;
    Ok(given_alone(&numbers, lun.lun, latch))
}

/// What an item does to a LUN after this past.
#[tactic(auto, unfolding(onfi_cycle::specs::Lun::effect_among))]
pub fn effect_on(
    alloc: Global,
    geometry: &Geometry,
    past: &[Item],
    item: Item,
    lun: Lun,
) -> Result<Effect, AllocError>
    ensures value { IfOk result (λ a. a ≡ effect_on geometry.now past.now item lun) }
    ensures small { IfOk result IsSmallEffect }
{
    let latch = latch_alone(alloc, geometry, past, lun)?;
    let tail = tail_facts(past, lun.ce);
    Ok(item_effect(geometry, &tail, latch, item, lun))
}

/// Work was started on the LUN, and no ready of it came since.
pub fn is_busy(
    alloc: Global,
    geometry: &Geometry,
    past: &[Item],
    lun: Lun,
) -> Result<bool, AllocError>
    ensures { IfOk result (λ a. a ≡ is_busy geometry.now past.now lun) }
{
    Ok(lun_facts(alloc, geometry, past, lun)?.busy)
}

/// The last closer of the LUN.
pub fn closer(
    alloc: Global,
    geometry: &Geometry,
    past: &[Item],
    lun: Lun,
) -> Result<Option<Command>, AllocError>
    ensures { IfOk result (λ a. a ≡ closer geometry.now past.now lun) }
{
    Ok(lun_facts(alloc, geometry, past, lun)?.closer)
}

/// A cache read goes on.
pub fn is_caching(
    alloc: Global,
    geometry: &Geometry,
    past: &[Item],
    lun: Lun,
) -> Result<bool, AllocError>
    ensures { IfOk result (λ a. a ≡ is_caching geometry.now past.now lun) }
{
    let last = closer(alloc, geometry, past, lun)?;
    Ok(is_cache_read(last))
}

/// The last Read Cache Sequential or Page Cache Program of the LUN has had its ready, and its array has had none since.
pub fn is_array_busy(
    alloc: Global,
    geometry: &Geometry,
    past: &[Item],
    lun: Lun,
) -> Result<bool, AllocError>
    ensures { IfOk result (λ a. a ≡ is_array_busy geometry.now past.now lun) }
{
    Ok(lun_facts(alloc, geometry, past, lun)?.array_busy)
}

/// The read column: what was last given, the data outputs since, and whether it is lost.
pub fn read_column(
    alloc: Global,
    geometry: &Geometry,
    past: &[Item],
    lun: Lun,
) -> Result<ReadColumn, AllocError>
    ensures value { IfOk result (λ a. a ≡ read_column geometry.now past.now lun) }
    ensures small { IfOk result (λ a. a.outputs ≤ length past.now) }
{
    Ok(lun_facts(alloc, geometry, past, lun)?.column)
}

/// The rows of the LUN that wait in its queue, the newest first.
pub fn queue(
    alloc: Global,
    geometry: &Geometry,
    past: &[Item],
    lun: Lun,
) -> Result<Vec<Queued>, AllocError>
    ensures { IfOk result (λ v. v.items ≡ queue geometry.now past.now lun) }
{
    Ok(lun_facts(alloc, geometry, past, lun)?.queue)
}

/// The page that the array was last told to read.
pub fn array_page(
    alloc: Global,
    geometry: &Geometry,
    past: &[Item],
    lun: Lun,
) -> Result<PageAddress, AllocError>
    ensures value { IfOk result (λ a. a ≡ array_page geometry.now past.now lun) }
    ensures small { IfOk result (λ a. a.page ≤ 2 ^ 32 + length past.now) }
{
    Ok(lun_facts(alloc, geometry, past, lun)?.array_page)
}

/// What the register holds, by the last closer.
pub fn register(
    alloc: Global,
    geometry: &Geometry,
    past: &[Item],
    lun: Lun,
) -> Result<Register, AllocError>
    ensures { IfOk result (λ a. a ≡ register geometry.now past.now lun) }
{
    Ok(lun_facts(alloc, geometry, past, lun)?.register)
}
