//! Putting a trace on modelled dies, and comparing its outputs with them.
ghost use Rattle.std.specs.Prelude.{◌≡◌, ◌<◌, ◌≤◌, ◌*◌, ℕ, List, [], ◌∷◌, ◌++◌, Option, Some, None, IfOk, IfErr, OnOk, length, slice_get, slice_set, replicate, false};
ghost use Rattle.std.specs.List.{cons_option};
ghost use Rattle.nand_geometry.specs.declared.parts.Parts.{Parts};
ghost use Rattle.onfi_cycle.specs.declared.item.Item.{Item as ItemOf};
ghost use Rattle.onfi_cycle.specs.declared.item.Item.TheVariants.{Cyc};
ghost use Rattle.onfi_cycle.specs.declared.item.Kind.TheVariants.{Din, Dout};
ghost use Rattle.onfi_cycle.specs.Lun.{effect_on};
ghost use Rattle.onfi_cycle.specs.Channel.{cycle, is_cycle};
ghost use Rattle.onfi_cycle.specs.Permitted.{broken};
ghost use Rattle.onfi_cycle.specs.State.{Follows};
ghost use Rattle.target_bus.specs.Bus.{channel_of, numbered, is_output, Refuses};
ghost use Rattle.trace_data.specs.Data.{Works, no_works, works_after, AreWorks, Stands, told_of, compared, origin_in, difference, HasCome, TellsItem, TellsItems, IsJudged};

use crate::data_judged::DataJudged;
use crate::difference::Difference;
use crate::lun_works::LunWorks;
use crate::origin::Origin;
use crate::page_shown::{PageShown, page_shown};
use onfi_cycle::{BusState, Cycle, Effect, Forbidden, Item, Kind, Lun, PageAddress};
use std::alloc::{AllocError, Global};
use target_bus::{Bus, BusRefusal};
use trace_faults::BrokenRule;

// What an item does to the LUN of a number.
fn effect_at(state: &BusState, place: usize, item: Item) -> Effect
    requires { place < 16 }
    ensures { (g : Parts) (n : ℕ) (past : List ItemOf) → Follows g n state.now past → place < n * g.luns
        → result ≡ effect_on g past item (numbered g place) }
{
    state.effect(item, Lun::at(place, state.geometry().parts().luns))
}

// The works of a number go on by an effect.
fn go_on_in(
    works: &mut [LunWorks],
    place: usize,
    effect: Effect,
    number: usize,
) -> Result<(), AllocError>
    requires { place < length works.old }
    ensures { OnOk result ((old : Works) × (slice_get works.old place ≡ Some old) × (works.new ≡ slice_set works.old place (works_after effect number old))) }
{
    works[place].go_on(effect, number)
}

// The works of each LUN go on by an item of this number.
fn go_on_all(
    state: &BusState,
    works: &mut [LunWorks],
    item: Item,
    number: usize,
) -> Result<(), AllocError>
    requires { length works.old ≤ 16 }
    ensures count { OnOk result (length works.new ≡ length works.old) }
    ensures works { OnOk result ((g : Parts) (n : ℕ) (past : List ItemOf) → Follows g n state.now past → length works.old ≡ n * g.luns
        → number ≡ length past → AreWorks g past works.old → AreWorks g (item ∷ past) works.new) }
{
    for place in 0..works.len() {
        go_on_in(works, place, effect_at(state, place, item), number)?;
    }
    Ok(())
}

// No work has begun on so many LUNs.
#[tactic(auto, using(crate::proofs::Steps::one_new_more))]
fn new_works(alloc: Global, count: usize) -> Result<Vec<LunWorks>, AllocError>
    ensures { IfOk result (λ works. works.items ≡ replicate count no_works) }
{
    let mut works = Vec::new(alloc);
    for _ in 0..count {
        works.push(LunWorks::new(alloc))?;
    }
    Ok(works)
}

// Where a page of a LUN has its bytes from.
fn origin_in(works: &[LunWorks], known: &[bool], luns: u8, lun: Lun, page: PageAddress) -> Origin
    ensures { (g : Parts) → g.luns ≡ luns → result ≡ origin_in g works.now known.now lun page }
{
    let place = lun.place(luns);
    let beginning = Origin::at_beginning(known.get(place).copied().unwrap_or(false));
    match works.get(place) {
        None => beginning,
        Some(works) => works.origin(page, beginning),
    }
}

// An output of a page gave another byte than its die: it is told, unless the page isn't known.
fn told_of(difference: Difference) -> Option<Difference>
    ensures { result ≡ told_of difference }
{
    match difference.origin {
        Origin::Unknown => None,
        Origin::Beginning | Origin::Erased { .. } | Origin::Programmed { .. } => Some(difference),
    }
}

// How an output of this number differs from its die, if it does and its page is known.
fn compare(
    works: &[LunWorks],
    known: &[bool],
    luns: u8,
    item: usize,
    shown: Option<PageShown>,
    seen: u8,
    expected: u8,
) -> Option<Difference>
    ensures { (g : Parts) → g.luns ≡ luns → result ≡ compared (origin_in g works.now known.now) item shown seen expected }
{
    match shown {
        Some(shown) if seen != expected => told_of(Difference {
            item,
            shown,
            seen,
            expected,
            origin: origin_in(works, known, luns, shown.lun, shown.page),
        }),
        Some(_) | None => None,
    }
}

// An output comes that gave this byte: how it differs from its die.
fn take_output(
    bus: &mut Bus,
    works: &[LunWorks],
    known: &[bool],
    ce: u8,
    seen: u8,
) -> Result<Option<Difference>, BusRefusal>
    requires { Stands bus.old works.now }
    ensures come { IfOk result (λ _. HasCome bus.old bus.new (cycle ce Dout seen)) }
    ensures difference { IfOk result (λ d. d ≡ difference (channel_of bus.old) known.now bus.old.past (cycle ce Dout seen)) }
    ensures works { IfOk result (λ _. Stands bus.new works.now) }
    ensures err { IfErr result (λ e. Refuses e (broken bus.old.geometry bus.old.targets bus.old.past (cycle ce Dout seen)) × (bus.new ≡ bus.old)) }
{
    let number = bus.trace().len();
    let luns = bus.geometry().parts().luns;
    let shown = page_shown(bus, ce);
    match bus.take(ce) {
        Ok(expected) => Ok(compare(works, known, luns, number, shown, seen, expected)),
        Err(refusal) => Err(refusal),
    }
}

// An input comes, which begins and ends no work on a page.
#[tactic(auto, using(crate::proofs::Walks::input_stands))]
fn take_input(bus: &mut Bus, works: &[LunWorks], ce: u8, byte: u8) -> Result<(), BusRefusal>
    requires { Stands bus.old works.now }
    ensures come { OnOk result (HasCome bus.old bus.new (cycle ce Din byte)) }
    ensures works { OnOk result (Stands bus.new works.now) }
    ensures err { IfErr result (λ e. Refuses e (broken bus.old.geometry bus.old.targets bus.old.past (cycle ce Din byte)) × (bus.new ≡ bus.old)) }
{
    let _ = works;
    let kind = Kind::Din;
    match bus.put(Cycle { ce, kind, byte }) {
        Ok(()) => Ok(()),
        Err(refusal) => Err(refusal),
    }
}

// A cycle comes that is no output.
fn take_other(bus: &mut Bus, works: &mut [LunWorks], cycle: Cycle) -> Result<(), BusRefusal>
    requires stands { Stands bus.old works.old }
    requires kind { is_output cycle.kind ≡ false }
    ensures come { OnOk result (HasCome bus.old bus.new (Cyc cycle)) }
    ensures works { OnOk result (Stands bus.new works.new) }
    ensures err { IfErr result (λ e. Refuses e (broken bus.old.geometry bus.old.targets bus.old.past (Cyc cycle)) × (bus.new ≡ bus.old)) }
{
    if let Some(rule) = bus.state().judge(Item::Cyc(cycle)) {
        return Err(BusRefusal::Forbidden(rule));
    }
    let number = bus.trace().len();
    go_on_all(bus.state(), works, Item::Cyc(cycle), number)?;
    bus.put(cycle)
}

// A cycle comes.
fn take_cycle(
    bus: &mut Bus,
    works: &mut [LunWorks],
    known: &[bool],
    cycle: Cycle,
) -> Result<Option<Difference>, BusRefusal>
    requires { Stands bus.old works.old }
    ensures come { IfOk result (λ _. HasCome bus.old bus.new (Cyc cycle)) }
    ensures difference { IfOk result (λ d. d ≡ difference (channel_of bus.old) known.now bus.old.past (Cyc cycle)) }
    ensures works { IfOk result (λ _. Stands bus.new works.new) }
    ensures err { IfErr result (λ e. Refuses e (broken bus.old.geometry bus.old.targets bus.old.past (Cyc cycle)) × (bus.new ≡ bus.old)) }
{
    match cycle.kind {
        Kind::Dout => take_output(bus, works, known, cycle.ce, cycle.byte),
        Kind::Din => match take_input(bus, works, cycle.ce, cycle.byte) {
            Ok(()) => Ok(None),
            Err(refusal) => Err(refusal),
        },
        Kind::Cmd | Kind::Adr => match take_other(bus, works, cycle) {
            Ok(()) => Ok(None),
            Err(refusal) => Err(refusal),
        },
    }
}

// A permitted ready comes.
fn come_ready(bus: &mut Bus, ready: Item)
    requires ready { is_cycle ready ≡ false }
    requires permitted { broken bus.old.geometry bus.old.targets bus.old.past ready ≡ None }
    ensures { HasCome bus.old bus.new ready }
{
    let _ = match ready {
        Item::Cyc(_) => unreachable!(),
        Item::Rdy { ce, lun, fail } => bus.ready(Lun { ce, lun }, fail),
        Item::Ard { ce, lun, fail } => bus.array_ready(Lun { ce, lun }, fail),
    };
}

// A ready comes.
fn take_ready(bus: &mut Bus, works: &mut [LunWorks], ready: Item) -> Result<(), BusRefusal>
    requires stands { Stands bus.old works.old }
    requires ready { is_cycle ready ≡ false }
    ensures come { OnOk result (HasCome bus.old bus.new ready) }
    ensures works { OnOk result (Stands bus.new works.new) }
    ensures err { IfErr result (λ e. Refuses e (broken bus.old.geometry bus.old.targets bus.old.past ready) × (bus.new ≡ bus.old)) }
{
    if let Some(rule) = bus.state().judge(ready) {
        return Err(BusRefusal::Forbidden(rule));
    }
    let number = bus.trace().len();
    go_on_all(bus.state(), works, ready, number)?;
    come_ready(bus, ready);
    Ok(())
}

// An item comes: how it differs from what the dies give.
fn take_item(
    bus: &mut Bus,
    works: &mut [LunWorks],
    known: &[bool],
    item: Item,
) -> Result<Option<Difference>, BusRefusal>
    requires { Stands bus.old works.old }
    ensures come { IfOk result (λ _. HasCome bus.old bus.new item) }
    ensures difference { IfOk result (λ d. d ≡ difference (channel_of bus.old) known.now bus.old.past item) }
    ensures works { IfOk result (λ _. Stands bus.new works.new) }
    ensures err { IfErr result (λ e. Refuses e (broken bus.old.geometry bus.old.targets bus.old.past item) × (bus.new ≡ bus.old)) }
{
    match item {
        Item::Cyc(cycle) => take_cycle(bus, works, known, cycle),
        Item::Rdy { .. } | Item::Ard { .. } => match take_ready(bus, works, item) {
            Ok(()) => Ok(None),
            Err(refusal) => Err(refusal),
        },
    }
}

// Adds a difference, if there is one.
fn push_some(told: &mut Vec<Difference>, difference: Option<Difference>) -> Result<(), AllocError>
    ensures { OnOk result (told.new.items ≡ told.old.items ++ cons_option difference []) }
{
    if let Some(difference) = difference {
        told.push(difference)?;
    }
    Ok(())
}

// An item comes, and it is told how it differs; or it isn't permitted by a rule.
fn tell_item(
    bus: &mut Bus,
    works: &mut [LunWorks],
    known: &[bool],
    told: &mut Vec<Difference>,
    item: Item,
) -> Result<Option<Forbidden>, AllocError>
    requires { Stands bus.old works.old }
    ensures { IfOk result (λ rule. TellsItem known.now bus.old bus.new told.old.items told.new.items item works.new rule) }
{
    match take_item(bus, works, known, item) {
        Ok(difference) => {
            push_some(told, difference)?;
            Ok(None)
        }
        Err(BusRefusal::Forbidden(rule)) => Ok(Some(rule)),
        Err(BusRefusal::OutOfMemory) => Err(AllocError),
    }
}

// Items come up to the first that isn't permitted, and it is told how they differ.
fn tell_items(
    bus: &mut Bus,
    works: &mut [LunWorks],
    known: &[bool],
    told: &mut Vec<Difference>,
    items: &[Item],
) -> Result<Option<BrokenRule>, AllocError>
    requires { Stands bus.old works.old }
    ensures { IfOk result (λ stopped. TellsItems known.now bus.old bus.new told.old.items told.new.items items.now stopped) }
{
    let mut rest = items;
    'rest: while let Some((first, later)) = rest.split_first() {
        if let Some(rule) = tell_item(bus, works, known, told, *first)? {
            let item = bus.trace().len();
            return Ok(Some(BrokenRule { item, rule }));
        }
        rest = later;
    }
    Ok(None)
}

// The works of the LUNs of a channel to which nothing has happened.
fn works_of(alloc: Global, bus: &Bus) -> Result<Vec<LunWorks>, AllocError>
    requires { bus.now.past ≡ [] }
    ensures { IfOk result (λ works. Stands bus.now works.items) }
{
    let luns = bus.geometry().parts().luns;
    new_works(alloc, usize::from(bus.targets()) * usize::from(luns))
}

/// Puts the items of a trace on the bus of modelled dies to which nothing has happened, up to the first that isn't permitted, and tells each output of a page that
/// differs from what its die gives. `known` says of each LUN, target by target, whether what its die holds is what the LUN held at the beginning; a page of
/// another LUN is known once its block was erased. A page is no longer known after a program or an erase of it that failed or that a reset broke off.
/// Status, identifiers and parameter pages aren't judged.
pub fn judge_data(
    alloc: Global,
    bus: Bus,
    known: &[bool],
    items: &[Item],
) -> Result<DataJudged, AllocError>
    requires { bus.past ≡ [] }
    ensures { IfOk result (λ judged. IsJudged (channel_of bus) known.now items.now judged.differences.items judged.stopped judged.dies.items) }
{
    let mut bus = bus;
    let mut works = works_of(alloc, &bus)?;
    let mut differences = Vec::new(alloc);
    let stopped = tell_items(
        &mut bus,
        works.as_mut_slice(),
        known,
        &mut differences,
        items,
    )?;
    Ok(DataJudged {
        differences,
        stopped,
        dies: bus.into_dies(),
    })
}
