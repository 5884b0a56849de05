use crate::table::{CACHES, COPIES, GROUP_CACHES, PLANE_READS, TWO_LUNS, TWO_PLANES};
use micro_asm::assemble;
use micro_claims::{Fault, Reason};
use micro_explain::explain;
use micro_verify::{Counter, TextRefused, VerifyRefusal, verify};
use micro_word::{Text, Word};
use nand_geometry::{Geometry, Parts};
use onfi_cycle::{Forbidden, Item};
use std::alloc::Global;
use std::test::Fail;
use trace_text::{CheckRefusal, check};

// Programs for one LUN with two planes and a cache read, which the verifier takes. From each of them words are left out.
const PROGRAMS: &[&str] = &[
    // An erase of each of two planes at once, and one alone.
    "cmd 60\naddr 2 3\ncmd d1\nwait\nplane 1\ncmd 60\naddr 2 3\ncmd d0\nwait\ncmd 60\naddr 2 3\ncmd d0\nwait\nend 0",
    // A program of each of two planes at once.
    "cmd 80\naddr 0 5\nput 4\ncmd 11\nwait\nplane 1\ncmd 80\naddr 0 5\nput 4\ncmd 10\nwait\nend 0",
    // A program in two places of a page, and an erase.
    "cmd 80\naddr 0 5\nput 4\ncol 40\ncmd 85\naddr 0 2\nput 4\ncmd 10\nwait\ncmd 60\naddr 2 3\ncmd d0\nwait\nend 0",
    // A read in two places of a page, with a status between.
    "cmd 00\naddr 0 5\ncmd 30\nwait\ncmd 00\nget 4\nstat\ncmd 00\ncol 40\ncmd 05\naddr 0 2\ncmd e0\nget 4\nend 0",
    // A read of two pages from the cache.
    "cmd 00\naddr 0 5\ncmd 30\nwait\ncmd 31\nwait\ncmd 00\nget 4\ncmd 3f\nwait\ncmd 00\nget 4\nend 0",
    // The identifier, twice, and the parameter page.
    "col 32\ncmd 90\naddr 0 1\nget 4\ncmd 90\naddr 0 1\ncol 0\ncmd ec\naddr 0 1\nwait\ncmd 00\nget 4\nend 0",
    // A reset, and then a program and a read.
    "cmd ff\nwait\ncmd 80\naddr 0 5\nput 4\ncmd 10\nwait\ncmd 00\naddr 0 5\ncmd 30\nwait\ncmd 00\nget 4\nend 0",
    // A cache read between an erase and the identifier.
    "cmd 60\naddr 2 3\ncmd d0\nwait\ncmd 00\naddr 0 5\ncmd 30\nwait\ncmd 31\nwait\ncmd 3f\nwait\ncol 32\ncmd 90\naddr 0 1\nget 4\nend 0",
    // Addresses in parts, and queued programs between reads.
    "cmd 00\naddr 0 2\naddr 2 3\ncmd 30\nwait\ncmd 80\naddr 0 5\nput 1\ncmd 11\nwait\nplane 1\ncmd 80\naddr 0 5\nput 1\ncmd 10\nwait\ncmd 00\naddr 0 5\ncmd 30\nwait\nend 0",
];

// Programs for a LUN whose planes are read at once, which the verifier takes.
const PLANE_PROGRAMS: &[&str] = &[
    // A read of two planes at once, and both pages.
    "cmd 00\naddr 0 5\ncmd 32\nwait\nplane 1\ncmd 00\naddr 0 5\ncmd 30\nwait\nplane 0\ncmd 06\naddr 0 5\ncmd e0\nget 4\nplane 1\ncmd 06\naddr 0 5\ncmd e0\nget 4\nend 0",
    // A page selected amid a cache read, and behind it.
    "cmd 00\naddr 0 5\ncmd 30\nwait\ncmd 31\nwait\ncmd 06\naddr 0 5\ncmd e0\nget 1\ncmd 3f\nwait\ncmd 06\naddr 0 5\ncmd e0\nget 1\nend 0",
    // A read of two planes between erases.
    "cmd 60\naddr 2 3\ncmd d0\nwait\ncmd 00\naddr 0 5\ncmd 32\nwait\nplane 1\ncmd 00\naddr 0 5\ncmd 30\nwait\ncmd 06\naddr 0 5\ncmd e0\nget 2\ncmd 60\naddr 2 3\ncmd d0\nwait\nend 0",
];

// Programs for a LUN whose pages are copied, which the verifier takes.
const COPY_PROGRAMS: &[&str] = &[
    // A page copied two rows on, with a byte of its own.
    "cmd 00\naddr 0 5\ncmd 35\nwait\nrowadd 1\nrowadd 1\ncmd 85\naddr 0 5\nput 1\ncmd 10\nwait\nend 0",
    // A page of each of two planes, read one by one, and copied in one group.
    "cmd 00\naddr 0 5\ncmd 35\nwait\nplane 1\ncmd 00\naddr 0 5\ncmd 35\nwait\nrow 2\ncmd 85\naddr 0 5\ncmd 11\nwait\nplane 0\ncmd 85\naddr 0 5\ncmd 10\nwait\nend 0",
    // A program between two reads, and a copy behind them.
    "cmd 00\naddr 0 5\ncmd 35\nwait\ncmd 80\naddr 0 5\nput 1\ncmd 10\nwait\ncmd 00\naddr 0 5\ncmd 32\nwait\nplane 1\ncmd 00\naddr 0 5\ncmd 35\nwait\ncmd 85\naddr 0 5\ncmd 10\nwait\nend 0",
];

// Programs for a LUN whose array programs while the next page comes, which the verifier takes.
const CACHE_PROGRAMS: &[&str] = &[
    // A read, two pages, of which the first is programmed while the second comes, and an erase.
    "cmd 00\naddr 0 5\ncmd 30\nwait\ncmd 80\naddr 0 5\nput 1\ncmd 15\nwait\nrow 1\ncmd 80\naddr 0 5\nput 1\ncmd 10\nwait\ncmd 60\naddr 2 3\ncmd d0\nwait\nend 0",
    // A page, and one of each plane behind it.
    "cmd 80\naddr 0 5\nput 1\ncmd 15\nwait\nrow 1\ncmd 80\naddr 0 5\nput 1\ncmd 11\nwait\nplane 1\ncmd 80\naddr 0 5\nput 1\ncmd 10\nwait\ncmd 90\naddr 0 1\nend 0",
    // A copy, and two pages.
    "cmd 00\naddr 0 5\ncmd 35\nwait\nrow 2\ncmd 85\naddr 0 5\ncmd 10\nwait\ncmd 80\naddr 0 5\nput 1\ncmd 15\nwait\ncmd 80\naddr 0 5\nput 1\ncmd 10\nwait\nend 0",
];

// The same of a LUN whose array programs pages of both planes so.
const GROUP_PROGRAMS: &[&str] = &[
    // A page of each plane, and one behind them.
    "cmd 80\naddr 0 5\nput 1\ncmd 11\nwait\nplane 1\ncmd 80\naddr 0 5\nput 1\ncmd 15\nwait\nrow 1\ncmd 80\naddr 0 5\nput 1\ncmd 10\nwait\nend 0",
];

// How many programs were refused by V7, and of how many the rule was compared.
#[derive(Clone, Copy, Debug, PartialEq, Eq)]
struct Counted {
    refused: u32,
    compared: u32,
}

// The words of a program in assembly text.
fn words_of(alloc: Global, program: &str) -> Result<Vec<Word>, Fail> {
    let written = format!(in alloc; "rows 4\nbuffer 64\nbudget 500\n{program}\n")?;
    Ok(assemble(alloc, written.as_str())?.into_words())
}

// Words without those at two places.
fn without(alloc: Global, words: &[Word], one: usize, other: usize) -> Result<Vec<Word>, Fail> {
    let mut left = Vec::new(alloc);
    for (place, word) in words.iter().enumerate() {
        if place != one && place != other {
            left.push(*word)?;
        }
    }
    Ok(left)
}

// The rule that the last of a run's cycles breaks.
fn broken(counter: Counter, geometry: &Geometry) -> Result<Forbidden, Fail> {
    let Counter {
        mut items,
        cycle,
        ..
    } = counter;
    let last = items.len();
    items.push(Item::Cyc(cycle))?;
    match check(geometry, 1, items.as_slice()) {
        Err(CheckRefusal::At(at, rule)) if at == last => Ok(rule),
        _ => Err(Fail::from("the run doesn't end wrong")),
    }
}

// The rule that is told of a program refused by V7.
fn told(text: &Text, geometry: &Geometry, fault: Fault) -> Result<Forbidden, Fail> {
    let Some(cause) = explain(text, geometry, fault) else {
        return Err(Fail::from("no cause"));
    };
    Ok(cause.rule().ok_or("no rule")?)
}

// Compares what is told of words with the run of their refusal.
fn compare(
    alloc: Global,
    parts: Parts,
    words: Vec<Word>,
    counted: &mut Counted,
) -> Result<(), Fail> {
    let geometry = Geometry::of(parts)?;
    let Ok(text) = Text::of(4, 64, 500, words) else {
        return Err(Fail::from("the words are no text"));
    };
    let Err(TextRefused { refusal, text }) = verify(text, geometry) else {
        return Ok(());
    };
    let VerifyRefusal::Refusal {
        word,
        reason: Reason::CycleForbidden,
        counter,
    } = refusal
    else {
        return Ok(());
    };
    let rule = told(
        &text,
        &geometry,
        Fault {
            word,
            reason: Reason::CycleForbidden,
        },
    )?;
    counted.refused = counted.refused.saturating_add(1);
    let Some(counter) = counter else {
        return Ok(());
    };
    counted.compared = counted.compared.saturating_add(1);
    let broken = broken(counter, &geometry)?;
    if broken == rule {
        Ok(())
    } else {
        let (right, wrong) = (broken.code(), rule.code());
        Err(Fail::from(format!(in alloc; "word {word} breaks {right}, not {wrong}")?))
    }
}

// Words but the last, in a loop of three turns.
fn looped(alloc: Global, words: &[Word]) -> Result<Vec<Word>, Fail> {
    let mut all = Vec::new(alloc);
    all.push(Word::Loop { turns: 3 })?;
    for (place, word) in words.iter().enumerate() {
        if place.saturating_add(1) < words.len() {
            all.push(*word)?;
        }
    }
    all.push(Word::Next)?;
    all.push(Word::End { code: 0 })?;
    Ok(all)
}

// Compares a program without any one of its words, for two LUNs and in a loop.
fn compare_elsewhere(alloc: Global, program: &str, counted: &mut Counted) -> Result<(), Fail> {
    let words = words_of(alloc, program)?;
    for one in 0..words.len() {
        let left = without(alloc, words.as_slice(), one, one)?;
        compare(alloc, TWO_PLANES, looped(alloc, left.as_slice())?, counted)?;
        compare(alloc, TWO_LUNS, looped(alloc, left.as_slice())?, counted)?;
        compare(alloc, TWO_LUNS, left, counted)?;
    }
    Ok(())
}

// Compares a program without any one and any two of its words.
fn compare_all(
    alloc: Global,
    parts: Parts,
    program: &str,
    counted: &mut Counted,
) -> Result<(), Fail> {
    let words = words_of(alloc, program)?;
    for one in 0..words.len() {
        for other in one..words.len() {
            let left = without(alloc, words.as_slice(), one, other)?;
            compare(alloc, parts, left, counted)?;
        }
    }
    Ok(())
}

#[test]
fn rules_are_those_of_the_model(rt: HostRuntime) -> Result<(), Fail> {
    let mut counted = Counted {
        refused: 0,
        compared: 0,
    };
    for program in PROGRAMS {
        compare_all(rt.alloc(), TWO_PLANES, program, &mut counted)?;
    }
    assert!(rt; counted.compared >= 400);
    Ok(())
}

#[test]
fn rules_of_plane_reads_are_those_of_the_model(rt: HostRuntime) -> Result<(), Fail> {
    let mut counted = Counted {
        refused: 0,
        compared: 0,
    };
    for program in PLANE_PROGRAMS {
        compare_all(rt.alloc(), PLANE_READS, program, &mut counted)?;
    }
    assert!(rt; counted.compared >= 100);
    Ok(())
}

#[test]
fn rules_of_copies_are_those_of_the_model(rt: HostRuntime) -> Result<(), Fail> {
    let mut counted = Counted {
        refused: 0,
        compared: 0,
    };
    for program in COPY_PROGRAMS {
        compare_all(rt.alloc(), COPIES, program, &mut counted)?;
    }
    assert!(rt; counted.compared >= 100);
    Ok(())
}

#[test]
fn rules_of_cache_programs_are_those_of_the_model(rt: HostRuntime) -> Result<(), Fail> {
    let mut counted = Counted {
        refused: 0,
        compared: 0,
    };
    for program in CACHE_PROGRAMS {
        compare_all(rt.alloc(), CACHES, program, &mut counted)?;
    }
    for program in GROUP_PROGRAMS {
        compare_all(rt.alloc(), CACHES, program, &mut counted)?;
        compare_all(rt.alloc(), GROUP_CACHES, program, &mut counted)?;
    }
    assert!(rt; counted.compared >= 100);
    Ok(())
}

#[test]
fn rules_are_told_without_a_run(rt: HostRuntime) -> Result<(), Fail> {
    let mut counted = Counted {
        refused: 0,
        compared: 0,
    };
    for program in PROGRAMS {
        compare_elsewhere(rt.alloc(), program, &mut counted)?;
    }
    assert!(rt; counted.refused >= 200);
    Ok(())
}
