// Each refusal of a made text has its cause. The run up to the refused word is played here, and its facts come from the functions that look
// back over the whole trace.
use crate::programs::made;
use micro_claims::Reason;
use micro_verify::{TextRefused, VerifyRefusal, verify};
use micro_word::{Text, Word};
use nand_geometry::{Geometry, Parts, SMALL_CHIP};
use onfi_cycle::{
    Command, Cycle, DataPhase, Failures, Forbidden, Item, Kind, Lun, Opening, TailFacts,
};
use oracle_onfi::broken;
use oracle_onfi::past::{array_page, is_busy, is_caching, queue, tail_facts};
use std::alloc::{AllocError, Global};
use std::test::Fail;
use trace_text::check;

// One LUN of 8 blocks of 4 pages of 512 + 16 bytes, in one plane.
const ONE_PLANE: Parts = SMALL_CHIP;

// The same in two planes, with a cache read.
const TWO_PLANES: Parts = Parts {
    plane_bits: 1,
    multi_plane: true,
    cache: true,
    ..ONE_PLANE
};

const THE_LUN: Lun = Lun { ce: 0, lun: 0 };

const ROWS: u16 = 4;

const BUFFER: u32 = 8;

const BUDGET: u32 = 90;

// What the words before have put onto the bus, and what they have set.
#[derive(Drop)]
struct Run {
    items: Vec<Item>,
    column: u16,
    plane: u8,
    index: u32,
    place: u32,
    cost: u32,
}

// A run with its items the newest first, and the facts of its tail.
#[derive(Drop)]
struct Seen {
    past: Vec<Item>,
    tail: TailFacts,
}

fn look(alloc: Global, run: &Run) -> Result<Seen, AllocError> {
    let mut past = run.items.to_vec(alloc)?;
    past.reverse();
    let tail = tail_facts(past.as_slice(), 0);
    Ok(Seen { past, tail })
}

// The five address bytes; those of a row that isn't wanted, or isn't there, are 0.
fn five_bytes(geometry: &Geometry, run: &Run) -> [u8; 5] {
    let row = geometry
        .row_bytes(0, run.index, run.plane)
        .unwrap_or([0; 3]);
    let [low, high] = run.column.to_le_bytes();
    let [r1, r2, r3] = row;
    [low, high, r1, r2, r3]
}

// The kind and the byte of each cycle of a word; a poll is the command 70h and an output.
fn cycles_of(
    alloc: Global,
    geometry: &Geometry,
    run: &Run,
    word: Word,
) -> Result<Vec<(Kind, u8)>, AllocError> {
    let mut cycles = Vec::new(alloc);
    match word {
        Word::Command { byte } => cycles.push((Kind::Cmd, byte))?,
        Word::Address { from, count } => {
            let five = five_bytes(geometry, run);
            for byte in five.iter().skip(usize::from(from)).take(usize::from(count)) {
                cycles.push((Kind::Adr, *byte))?;
            }
        }
        Word::Get { len } => cycles.resize(len as usize, (Kind::Dout, 0))?,
        Word::Put { len } => cycles.resize(len as usize, (Kind::Din, 0))?,
        Word::Wait | Word::ReadStatus => {
            cycles.push((Kind::Cmd, 0x70))?;
            cycles.push((Kind::Dout, 0))?;
        }
        _ => {}
    }
    Ok(cycles)
}

fn cycle(kind: Kind, byte: u8) -> Item {
    Item::Cyc(Cycle { ce: 0, kind, byte })
}

// How many cycles a word is counted with.
fn cost_of(word: Word) -> u32 {
    match word {
        Word::Command { .. } => 1,
        Word::Address { count, .. } => u32::from(count),
        Word::Get { len } | Word::Put { len } => len,
        Word::ReadStatus => 2,
        _ => 0,
    }
}

// What a word sets.
fn set(run: &mut Run, word: Word) {
    match word {
        Word::Column { column } => run.column = column,
        Word::Plane { plane } => run.plane = plane,
        Word::Row { row } => run.index = u32::from(row),
        Word::RowAdd { rows } => run.index = run.index.saturating_add(u32::from(rows)),
        Word::Seek { place } => run.place = place,
        Word::Get { len } | Word::Put { len } => run.place = run.place.saturating_add(len),
        _ => {}
    }
    run.cost = run.cost.saturating_add(cost_of(word));
}

// A LUN that is busy becomes ready at a `wait`, after its poll has said so.
fn wait(alloc: Global, geometry: &Geometry, run: &mut Run, word: Word) -> Result<(), AllocError> {
    if word == Word::Wait && is_busy(alloc, geometry, look(alloc, run)?.past.as_slice(), THE_LUN)? {
        run.items.push(Item::Rdy {
            ce: 0,
            lun: 0,
            fail: Failures::default(),
        })?;
    }
    Ok(())
}

// Plays a word.
fn play(alloc: Global, geometry: &Geometry, run: &mut Run, word: Word) -> Result<(), AllocError> {
    wait(alloc, geometry, run, word)?;
    for (kind, byte) in cycles_of(alloc, geometry, run, word)? {
        run.items.push(cycle(kind, byte))?;
    }
    set(run, word);
    Ok(())
}

// The rule that the first forbidden cycle of a word breaks.
fn stop_of(
    alloc: Global,
    geometry: &Geometry,
    run: &mut Run,
    word: Word,
) -> Result<Option<Forbidden>, AllocError> {
    wait(alloc, geometry, run, word)?;
    for (kind, byte) in cycles_of(alloc, geometry, run, word)? {
        let item = cycle(kind, byte);
        let rule = broken(alloc, geometry, 1, run.items.as_slice(), item)?;
        if rule.is_some() {
            return Ok(rule);
        }
        run.items.push(item)?;
    }
    Ok(None)
}

// Which of the five address bytes is wanted next, if one is.
fn place_wanted(tail: TailFacts) -> Option<usize> {
    if let Some(Opening { opener, addresses }) = tail.opening {
        if addresses < opener.address_cycles() {
            let first = match opener {
                Command::BlockErase => 2,
                _ => 0,
            };
            return Some(addresses.saturating_add(first));
        }
    }
    match tail.phase {
        DataPhase::FirstColumn => Some(0),
        DataPhase::SecondColumn => Some(1),
        _ => None,
    }
}

// The one address of 90h or ECh is wanted, which may begin at any of the five bytes.
fn wants_identity(tail: TailFacts) -> bool {
    match tail.opening {
        Some(Opening { opener, addresses }) => opener.reads_identity() && addresses == 0,
        None => false,
    }
}

// An address has begun and hasn't ended.
fn is_amid(tail: TailFacts) -> bool {
    let amid = match tail.opening {
        Some(Opening { opener, addresses }) => 0 < addresses && addresses < opener.address_cycles(),
        None => false,
    };
    amid || tail.phase == DataPhase::SecondColumn
}

fn is_unaligned(tail: TailFacts, word: Word) -> bool {
    match word {
        Word::Address { from, .. } => {
            !wants_identity(tail)
                && place_wanted(tail).is_some_and(|place| place != usize::from(from))
        }
        Word::Column { .. } | Word::RowAdd { .. } | Word::Row { .. } | Word::Plane { .. } => {
            is_amid(tail)
        }
        _ => false,
    }
}

// A row or a plane is outside, or the next page that a cache read gives is.
fn is_outside(
    alloc: Global,
    geometry: &Geometry,
    run: &Run,
    word: Word,
) -> Result<bool, AllocError> {
    match word {
        Word::Address { from, count } => {
            let wants_row = from.saturating_add(count) > 2;
            Ok(
                wants_row
                    && (run.index >= u32::from(ROWS) || u32::from(run.plane) >= geometry.planes()),
            )
        }
        Word::Command { byte: 0x31 } => {
            let seen = look(alloc, run)?;
            let at = array_page(alloc, geometry, seen.past.as_slice(), THE_LUN)?;
            let block = u64::from(at.block) >> geometry.parts().plane_bits.min(2);
            let index = block
                .saturating_mul(u64::from(geometry.parts().pages))
                .saturating_add(at.page);
            Ok(index.saturating_add(1) >= u64::from(ROWS))
        }
        _ => Ok(false),
    }
}

// The program ends while its LUN isn't at rest.
fn ends_unready(
    alloc: Global,
    geometry: &Geometry,
    run: &Run,
    word: Word,
) -> Result<bool, AllocError> {
    let Word::End { .. } = word else {
        return Ok(false);
    };
    let seen = look(alloc, run)?;
    let past = seen.past.as_slice();
    Ok(
        is_busy(alloc, geometry, past, THE_LUN)?
            || seen.tail.is_open()
            || !queue(alloc, geometry, past, THE_LUN)?.is_empty()
            || is_caching(alloc, geometry, past, THE_LUN)?,
    )
}

// The command isn't for programs of one LUN on this die.
fn is_not_allowed(alloc: Global, geometry: &Geometry, word: Word) -> Result<bool, AllocError> {
    let Word::Command { byte } = word else {
        return Ok(false);
    };
    let command = Command::of(byte);
    let asks = matches!(command, Command::ReadStatus | Command::ReadStatusEnhanced);
    let rule = broken(alloc, geometry, 1, &[], cycle(Kind::Cmd, byte))?;
    Ok(asks || rule == Some(Forbidden::CommandUnknown))
}

// What the law leaves out: the bytes of the word may not be there.
fn lacks_bytes(
    alloc: Global,
    geometry: &Geometry,
    run: &Run,
    tail: TailFacts,
    word: Word,
) -> Result<bool, AllocError> {
    match word {
        Word::Address { from, .. } => Ok(
            is_unaligned(tail, word)
                || is_outside(alloc, geometry, run, word)?
                || (wants_identity(tail) && from > 1),
        ),
        Word::Put { len } => Ok(run.place.saturating_add(len) > BUFFER),
        _ => Ok(false),
    }
}

// The rules of V7.
fn is_of_word(rule: Option<Forbidden>) -> bool {
    !matches!(
        rule,
        None | Some(
            Forbidden::NotThere
                | Forbidden::CommandUnknown
                | Forbidden::SeveralLuns
                | Forbidden::RowOutside
                | Forbidden::ColumnOutside
        )
    )
}

// Whether the reason against a word after a run has its cause.
fn has_cause(
    alloc: Global,
    geometry: &Geometry,
    run: &mut Run,
    word: Word,
    reason: Reason,
) -> Result<bool, AllocError> {
    let tail = look(alloc, run)?.tail;
    match reason {
        Reason::CycleForbidden => Ok(
            lacks_bytes(alloc, geometry, run, tail, word)?
                || is_of_word(stop_of(alloc, geometry, run, word)?),
        ),
        Reason::AddressUnaligned => Ok(is_unaligned(tail, word)),
        Reason::HandoverInSequence => {
            Ok((word == Word::Wait || word == Word::Yield) && tail.is_open())
        }
        Reason::BufferPassed => {
            let takes = matches!(word, Word::Get { .. } | Word::Put { .. });
            Ok(takes && run.place.saturating_add(cost_of(word)) > BUFFER)
        }
        Reason::RowOrPlaneOutside => is_outside(alloc, geometry, run, word),
        Reason::ColumnTooLarge => {
            Ok(stop_of(alloc, geometry, run, word)? == Some(Forbidden::ColumnOutside))
        }
        Reason::EndsTooSoon => ends_unready(alloc, geometry, run, word),
        Reason::OverBudget => {
            Ok(cost_of(word) > 0 && run.cost.saturating_add(cost_of(word)) > BUDGET)
        }
        Reason::CommandNotAllowed => is_not_allowed(alloc, geometry, word),
        _ => Ok(false),
    }
}

// Whether a refusal of words has its cause: no `end` stands before the word, the run up to it is legal, and then the cause stands.
fn is_caused(
    alloc: Global,
    geometry: &Geometry,
    words: &[Word],
    at: usize,
    reason: Reason,
) -> Result<bool, AllocError> {
    let mut run = Run {
        items: Vec::new(alloc),
        column: 0,
        plane: 0,
        index: 0,
        place: 0,
        cost: 0,
    };
    for word in words.iter().take(at) {
        if matches!(word, Word::End { .. }) {
            return Ok(false);
        }
        play(alloc, geometry, &mut run, *word)?;
    }
    let Some(word) = words.get(at) else {
        return Ok(false);
    };
    Ok(
        check(geometry, 1, run.items.as_slice()).is_ok()
            && has_cause(alloc, geometry, &mut run, *word, reason)?,
    )
}

// The word of a refusal and its reason, with the words again; None for words that are accepted.
fn refusal_of(words: Vec<Word>, geometry: Geometry) -> Result<Option<(usize, Reason, Text)>, Fail> {
    let Ok(text) = Text::of(ROWS, BUFFER, BUDGET, words) else {
        return Err(Fail::from("the words are no text"));
    };
    match verify(text, geometry) {
        Ok(_) => Ok(None),
        Err(TextRefused { refusal, text }) => match refusal {
            VerifyRefusal::Refusal { word, reason, .. } => Ok(Some((word, reason, text))),
            VerifyRefusal::OutOfMemory => Err(Fail::from("out of memory")),
        },
    }
}

// How many of so many made texts are refused, each with its cause.
fn count_caused(alloc: Global, parts: Parts, seed: u32, texts: u32) -> Result<u32, Fail> {
    let geometry = Geometry::of(parts)?;
    let mut seed = seed;
    let mut caused = 0u32;
    for _ in 0..texts {
        if let Some((word, reason, text)) = refusal_of(made(alloc, &mut seed)?, geometry)? {
            if !is_caused(alloc, &geometry, text.words(), word, reason)? {
                return Err(Fail::from("a refusal has no cause"));
            }
            caused = caused.saturating_add(1);
        }
    }
    Ok(caused)
}

// Two thousand texts for each of the two dies, some of which are refused.
fn have_causes(alloc: Global, seed: u32) -> Result<bool, Fail> {
    Ok(
        count_caused(alloc, ONE_PLANE, seed, 2_000)? >= 200
            && count_caused(alloc, TWO_PLANES, seed, 2_000)? >= 200,
    )
}

// Five tests, since one has a minute alone.
#[test]
fn refusals_have_causes_1(rt: HostRuntime) -> Result<(), Fail> {
    assert!(rt; have_causes(rt.alloc(), 20_261_123)?);
    Ok(())
}

#[test]
fn refusals_have_causes_2(rt: HostRuntime) -> Result<(), Fail> {
    assert!(rt; have_causes(rt.alloc(), 1)?);
    Ok(())
}

#[test]
fn refusals_have_causes_3(rt: HostRuntime) -> Result<(), Fail> {
    assert!(rt; have_causes(rt.alloc(), 314_159_265)?);
    Ok(())
}

#[test]
fn refusals_have_causes_4(rt: HostRuntime) -> Result<(), Fail> {
    assert!(rt; have_causes(rt.alloc(), 271_828_182)?);
    Ok(())
}

#[test]
fn refusals_have_causes_5(rt: HostRuntime) -> Result<(), Fail> {
    assert!(rt; have_causes(rt.alloc(), 3_141_592_653)?);
    Ok(())
}
