use crate::notes::table::{TWO_PLANES, least_text, told_of, words_of};
use micro_word::Word;
use nand_geometry::Geometry;
use std::alloc::Global;
use std::test::Fail;

/// Programs for one LUN with two planes and a cache read, which the verifier takes.
pub(crate) const WORKED: &[&str] = &[
    // An erase of each of two planes at once, and one alone.
    "cmd 60\naddr 2 3\ncmd d1\nwait\nplane 1\ncmd 60\naddr 2 3\ncmd d0\nwait\ncmd 60\naddr 2 3\ncmd d0\nwait\nend 0",
    // A program of each of two planes at once.
    "cmd 80\naddr 0 5\nput 4\ncmd 11\nwait\nplane 1\ncmd 80\naddr 0 5\nput 4\ncmd 10\nwait\nend 0",
    // A program in two places of a page, and an erase.
    "cmd 80\naddr 0 5\nput 4\ncol 40\ncmd 85\naddr 0 2\nput 4\ncmd 10\nwait\ncmd 60\naddr 2 3\ncmd d0\nwait\nend 0",
    // A read in two places of a page, with a status between.
    "cmd 00\naddr 0 5\ncmd 30\nwait\ncmd 00\nget 4\nstat\ncmd 00\ncol 40\ncmd 05\naddr 0 2\ncmd e0\nget 4\nend 0",
    // A read of two pages from the cache.
    "cmd 00\naddr 0 5\ncmd 30\nwait\ncmd 31\nwait\ncmd 00\nget 4\ncmd 3f\nwait\ncmd 00\nget 4\nend 0",
    // The identifier, twice, and the parameter page.
    "col 32\ncmd 90\naddr 0 1\nget 4\ncmd 90\naddr 0 1\ncol 0\ncmd ec\naddr 0 1\nwait\ncmd 00\nget 4\nend 0",
    // A reset, and then a program and a read.
    "cmd ff\nwait\ncmd 80\naddr 0 5\nput 4\ncmd 10\nwait\ncmd 00\naddr 0 5\ncmd 30\nwait\ncmd 00\nget 4\nend 0",
    // Addresses in parts, and queued programs between reads.
    "cmd 00\naddr 0 2\naddr 2 3\ncmd 30\nwait\ncmd 80\naddr 0 5\nput 1\ncmd 11\nwait\nplane 1\ncmd 80\naddr 0 5\nput 1\ncmd 10\nwait\ncmd 00\naddr 0 5\ncmd 30\nwait\nend 0",
    // An erase of four blocks, each with its branch.
    "loop 4\ncmd 60\naddr 2 3\ncmd d0\nwait\nbrs 01 a\nseek 2\na:\nrowadd 4\nnext\nend 0",
    // Four pages of three blocks, each erased first.
    "loop 3\ncmd 60\naddr 2 3\ncmd d0\nwait\nloop 4\ncmd 80\naddr 0 5\nput 16\ncmd 10\nwait\nrowadd 1\nnext\nnext\nend 0",
    // A read of a row or of the next, by the status.
    "stat\nbrs 80 a\nrowadd 1\nyield\na:\ncmd 00\naddr 0 5\ncmd 30\nwait\nbrs 01 b\ncmd 00\nget 8\nend 0\nb:\nend 1",
    // An erase where the last one has not failed, with words that could be left out.
    "row 1\nrow 2\nplane 1\nseek 3\ncol 7\nyield\nstat\nbrs 81 a\nwait\nget 1\na:\ncmd 60\naddr 2 3\ncmd d0\nwait\nbrs 01 b\nend 0\nb:\nend 1",
    // An identifier and reads in a loop of loops.
    "col 32\nloop 2\ncmd 90\naddr 0 1\nget 2\nloop 3\nwait\nnext\nnext\ncol 0\ncmd 00\naddr 0 5\ncmd 30\nwait\ncmd 00\nget 4\nend 0",
];

// How many programs the verifier took, and how many lines their notes have.
#[derive(Clone, Copy)]
struct Counted {
    accepted: usize,
    lines: usize,
}

// Words without those at two places.
fn without(alloc: Global, words: &[Word], one: usize, other: usize) -> Result<Vec<Word>, Fail> {
    let mut left = Vec::new(alloc);
    for (place, word) in words.iter().enumerate() {
        if place != one && place != other {
            left.push(*word)?;
        }
    }
    Ok(left)
}

// Goes through the notes of words, where the verifier takes them.
fn try_words(alloc: Global, words: Vec<Word>, counted: &mut Counted) -> Result<(), Fail> {
    let geometry = Geometry::of(TWO_PLANES)?;
    if let Some(text) = least_text(alloc, &geometry, words)? {
        let told = told_of(alloc, &geometry, &text)?;
        counted.accepted = counted.accepted.saturating_add(1);
        counted.lines = counted.lines.saturating_add(told.as_str().lines().count());
    }
    Ok(())
}

// Tries a program without any one and any two of its words.
fn try_all(alloc: Global, program: &str, counted: &mut Counted) -> Result<(), Fail> {
    let words = words_of(alloc, program)?;
    for one in 0..words.len() {
        for other in one..words.len() {
            try_words(
                alloc,
                without(alloc, words.as_slice(), one, other)?,
                counted,
            )?;
        }
    }
    Ok(())
}

#[test]
fn programs_without_words(rt: HostRuntime) -> Result<(), Fail> {
    let mut counted = Counted {
        accepted: 0,
        lines: 0,
    };
    for program in WORKED {
        try_all(rt.alloc(), program, &mut counted)?;
    }
    assert!(rt; counted.accepted >= 100 && counted.lines >= 100);
    Ok(())
}
