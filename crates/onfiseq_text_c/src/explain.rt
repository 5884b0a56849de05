//! Why an item isn't permitted, in words.
ghost use Rattle.std.specs.Prelude.{◌≡◌, ◌≤◌, []};
ghost use Rattle.onfi_cycle.specs.Sequence.{target_of as target_of_item};
ghost use Rattle.bus_record.specs.Bus.{FitsAt};
ghost use Rattle.onfiseq_text_c.specs.Explained.{IsWritten, asked};

use crate::words::{Words, shown, spelt, words_alone, words_of_record};
use bus_record::{
    OnfiseqBus, OnfiseqItem, OnfiseqLun, OnfiseqTarget, ask, is_bus_at, is_wide, look_at_lun,
};
use nand_geometry::Geometry;
use onfi_cycle::{Command, Cycle, Forbidden, Item, LunState, Register};
use placed_bytes::place_text;
use target_record::{closer_of, is_set, latch_of, register_of, tail_of};
use trace_causes::{
    BrokenInWords, CauseInLine, CommandAt, FaultyCycle, MOST_LUNS, TargetLook, TargetPast,
    Undriven, opener_of,
};

// A command of which nobody knows where it came.
fn somewhere(byte: u8) -> CommandAt {
    CommandAt { byte, item: None }
}

// The LUN of this number, if the target has it.
fn lun_of(bus: &OnfiseqBus, ce: u8, number: u8) -> Option<LunState>
    requires { FitsAt bus.now ce }
{
    let look = look_at_lun(bus, ce, number);
    let column = u32::try_from(look.column).ok();
    look.is_there.then_some(LunState {
        busy: look.busy,
        latch: latch_of(look.latch),
        register: register_of(look.register, look.block, look.page),
        column: if look.has_column { column } else { None },
        queued: look.queued,
        caching: look.caching,
        programming: look.programming,
        array_busy: look.array_busy,
    })
}

// The command with which a LUN began the work that it does, if it does some.
fn work_of(lun: &OnfiseqLun) -> Option<CommandAt> {
    (is_set(lun.busy) && is_set(lun.has_closer)).then_some(somewhere(lun.closer))
}

// Since when none of these LUNs drives the bus, as far as their last work tells.
fn undriven_of(luns: &[OnfiseqLun]) -> Undriven {
    let mut is_fresh = true;
    for lun in luns {
        let closer = closer_of(is_set(lun.has_closer), lun.closer);
        if closer == Some(Command::Reset) {
            return Undriven::Reset(somewhere(lun.closer));
        }
        let register = register_of(lun.register, lun.register_block, lun.register_page);
        is_fresh = is_fresh && closer.is_none() && register == Register::Empty;
    }
    if is_fresh {
        Undriven::NothingRead
    } else {
        Undriven::Unknown
    }
}

// The LUN of the row of a target's program holds a page, which the program copies: the row of a Page Program would have cleared it.
fn copies_page(kept: &OnfiseqTarget, geometry: &Geometry) -> bool {
    let place = geometry.parts_of(tail_of(kept).named_row()).lun as usize;
    place < MOST_LUNS && kept.luns[place].holds != 0
}

// What the record of a target tells of its past.
fn past_of(kept: &OnfiseqTarget, geometry: &Geometry) -> TargetPast {
    let [first, second, third, fourth] = &kept.luns;
    TargetPast::told_by(
        opener_of(tail_of(kept), copies_page(kept, geometry)).map(somewhere),
        undriven_of(&kept.luns[..kept.count.min(MOST_LUNS)]),
        [
            work_of(first),
            work_of(second),
            work_of(third),
            work_of(fourth),
        ],
    )
}

// Why a cycle breaks a rule, where that has one cause that can be named.
fn cause_of(bus: &OnfiseqBus, cycle: Cycle, rule: Forbidden) -> Option<CauseInLine>
    requires { FitsAt bus.now cycle.ce }
{
    let geometry = Geometry::of(bus.geometry.parts()).ok()?;
    let ce = cycle.ce;
    let place = usize::from(ce);
    if bus.count <= place || 4 <= place {
        return None;
    }
    let kept = &bus.targets[place];
    let faulty = FaultyCycle {
        geometry,
        target: TargetLook {
            tail: tail_of(kept),
            luns: [
                lun_of(bus, ce, 0),
                lun_of(bus, ce, 1),
                lun_of(bus, ce, 2),
                lun_of(bus, ce, 3),
            ],
        },
        past: past_of(kept, &geometry),
        cycle,
    };
    let cause = faulty.cause_of(rule)?;
    Some(CauseInLine { cause, line: None })
}

// The rule that an item breaks, in words.
fn words_of_rule(bus: &OnfiseqBus, item: Item, rule: Forbidden) -> Words
    requires { FitsAt bus.now (target_of_item item) }
{
    let cause = match item {
        Item::Cyc(cycle) => cause_of(bus, cycle, rule),
        Item::Rdy { .. } | Item::Ard { .. } => None,
    };
    shown(Some(BrokenInWords { rule, cause }))
}

// What is said of numbers as an item; nothing where it is permitted.
fn explain(bus: &OnfiseqBus, numbers: &OnfiseqItem) -> Words
    ensures { asked bus.now numbers.now ≡ 0 → result.bytes ≡ [] }
{
    if !is_bus_at(bus, numbers.ce) {
        return spelt(words_of_record(0));
    }
    let Some(item) = numbers.item(is_wide(bus)) else {
        return spelt(words_alone(b'I'));
    };
    match ask(bus, item) {
        0 => Words::new(),
        code => match Forbidden::of_number(code % 256) {
            Some(rule) => words_of_rule(bus, item, rule),
            None => Words::new(),
        },
    }
}

/// Why an item isn't permitted on a channel, in English: the one cause, with the LUN, or with the sequence that is open and what it wants next, and the code in
/// parentheses. The words are those of `onfiseq check`, without the lines of a trace. They are written into the text, as many of their bytes as fit with a 0
/// behind them. The answer counts the bytes of all the words, as `snprintf` does; it is 0 where the item is permitted.
#[unsafe(no_mangle)]
pub extern "C" fn onfiseq_explain(bus: &OnfiseqBus, item: &OnfiseqItem, text: &mut [u8]) -> usize
    ensures permitted { asked bus.now item.now ≡ 0 → result ≡ 0 }
    ensures written { IsWritten result text.old text.new }
    ensures small { result ≤ 256 }
{
    let words = explain(bus, item);
    place_text(words.as_bytes(), text);
    words.len()
}
