use linked_list_allocator::LocalHeap;
use micro_claims::Reason;
use micro_verify::{TextRefused, VerifyRefusal, verify};
use micro_walk::{Claims, certify};
use micro_word::{Text, Word};
use nand_geometry::{Geometry, Parts, SMALL_CHIP};
use std::alloc::{AllocError, Allocator, Global};
use std::test::Fail;

// One LUN of 8 blocks of 4 pages of 512 + 16 bytes, in one plane.
const ONE_LUN: Parts = SMALL_CHIP;

// Two such LUNs, each in two planes.
const TWO_LUNS: Parts = Parts {
    luns: 2,
    plane_bits: 1,
    enhanced: true,
    multi_plane: true,
    ..ONE_LUN
};

const ERASE: Word = Word::Command { byte: 0x60 };

const START_ERASE: Word = Word::Command { byte: 0xd0 };

// The address bytes of the row.
const ROW: Word = Word::Address { from: 2, count: 3 };

const WAIT: Word = Word::Wait;

const STAT: Word = Word::ReadStatus;

const END: Word = Word::End { code: 0 };

// A text for a die.
#[derive(Clone, Copy)]
struct Try<'a> {
    parts: Parts,
    rows: u16,
    buffer: u32,
    budget: u32,
    words: &'a [Word],
}

// A text of one row and no buffer on one LUN.
const PLAIN: Try<'static> = Try {
    parts: ONE_LUN,
    rows: 1,
    buffer: 0,
    budget: 20,
    words: &[],
};

fn text_of(alloc: Global, it: Try<'_>) -> Result<Text, Fail> {
    let words = it.words.to_vec(alloc)?;
    match Text::of(it.rows, it.buffer, it.budget, words) {
        Ok(text) => Ok(text),
        Err(_) => Err(Fail::from("the words are no text")),
    }
}

const ERASE_BLOCK: [Word; 5] = [ERASE, ROW, START_ERASE, WAIT, END];

const NEXT: Word = Word::Next;

const ERASE_CHECKED: [Word; 7] = [
    ERASE,
    ROW,
    START_ERASE,
    WAIT,
    Word::BranchOnStatus { mask: 1, target: 6 },
    END,
    Word::End { code: 1 },
];

const ERASE_ALL: [Word; 8] = [
    Word::Loop { turns: 8 },
    ERASE,
    ROW,
    START_ERASE,
    WAIT,
    Word::RowAdd { rows: 4 },
    NEXT,
    END,
];

const ASK_OFTEN: [Word; 6] = [
    Word::Loop { turns: 4096 },
    Word::Loop { turns: 16 },
    STAT,
    NEXT,
    NEXT,
    END,
];

const FOUR_DEEP: [Word; 10] = [
    Word::Loop { turns: 2 },
    Word::Loop { turns: 2 },
    Word::Loop { turns: 2 },
    Word::Loop { turns: 2 },
    STAT,
    NEXT,
    NEXT,
    NEXT,
    NEXT,
    END,
];

const EIGHT_BLOCKS: Try<'static> = Try {
    words: &ERASE_ALL,
    rows: 29,
    budget: 40,
    ..PLAIN
};

// The erase that tells its failure, two loops and four.
const CHECKED: Try<'static> = Try {
    words: &ERASE_CHECKED,
    budget: 5,
    ..PLAIN
};

const TWO_LOOPS: Try<'static> = Try {
    words: &ASK_OFTEN,
    budget: 131_072,
    ..PLAIN
};

const FOUR_LOOPS: Try<'static> = Try {
    words: &FOUR_DEEP,
    budget: 32,
    ..PLAIN
};

// The erase of all blocks with a row too few in its header, and the one that tells its failure with a budget one short: both are refused.
const ROW_TOO_FEW: Try<'static> = Try {
    rows: 28,
    ..EIGHT_BLOCKS
};

const BUDGET_TOO_SMALL: Try<'static> = Try {
    budget: 4,
    ..CHECKED
};

// How many words are walked for a text that is accepted.
fn walked(alloc: Global, it: Try<'_>) -> Result<u64, Fail> {
    let geometry = Geometry::of(it.parts)?;
    match verify(text_of(alloc, it)?, geometry) {
        Ok(verified) => Ok(verified.walked()),
        Err(_) => Err(Fail::from("the text is refused")),
    }
}

// Each loop is walked at most 16 times for one entry, however many turns it has.
#[test]
fn few_words_are_walked(rt: HostRuntime) -> Result<(), Fail> {
    let blocks = walked(rt.alloc(), EIGHT_BLOCKS)?;
    let two_loops = walked(rt.alloc(), TWO_LOOPS)?;
    let four_loops = walked(rt.alloc(), FOUR_LOOPS)?;
    let branch = walked(rt.alloc(), CHECKED)?;
    assert!(rt; blocks <= 16 * 8 && two_loops <= 256 * 6);
    assert!(rt; four_loops <= 65_536 * 10 && branch == 7);
    Ok(())
}

// Whether the claims that are found of a text are a certificate of it.
fn is_certified(alloc: Global, it: Try<'_>) -> Result<bool, Fail> {
    let geometry = Geometry::of(it.parts)?;
    let text = text_of(alloc, it)?;
    let claims = Claims::find(&text, &geometry);
    Ok(certify(text, geometry, &claims).is_ok())
}

// The claims that are found are a certificate of a text that is accepted, and of no other.
#[test]
fn certificates(rt: HostRuntime) -> Result<(), Fail> {
    let blocks = is_certified(rt.alloc(), EIGHT_BLOCKS)?;
    let row = is_certified(rt.alloc(), ROW_TOO_FEW)?;
    let branch = is_certified(rt.alloc(), CHECKED)?;
    let budget = is_certified(rt.alloc(), BUDGET_TOO_SMALL)?;
    assert!(rt; blocks && !row && branch && !budget);
    Ok(())
}

// 1,023 branches, each to the word after the next one, and the last one to the `end`.
fn branches_alone(alloc: Global) -> Result<Vec<Word>, AllocError> {
    let mut words = Vec::with_capacity(alloc, 1024)?;
    words.push(STAT)?;
    for target in 3_u16..1024 {
        words.push(Word::BranchOnStatus { mask: 1, target })?;
    }
    words.push(Word::BranchOnStatus {
        mask: 1,
        target: 1023,
    })?;
    words.push(END)?;
    Ok(words)
}

#[test]
fn a_text_full_of_branches(rt: HostRuntime) -> Result<(), Fail> {
    let words = branches_alone(rt.alloc())?;
    let count = words.len();
    let it = Try {
        budget: 2,
        words: words.as_slice(),
        ..PLAIN
    };
    let walked = walked(rt.alloc(), it)?;
    assert!(rt; count == 1024 && walked == 1024);
    Ok(())
}

// What the verifier says of words with the memory of an allocator; None where there is too little for the words. `Ok(true)` is accepted,
// `Ok(false)` out of memory with the text handed back.
fn answer_in<A: Allocator + Copy>(
    alloc: A,
    words: &[Word],
) -> Result<Option<Result<bool, (usize, Reason)>>, Fail> {
    let Ok(copy) = words.to_vec(alloc) else {
        return Ok(None);
    };
    let Ok(text) = Text::of(1, 0, 5, copy) else {
        return Err(Fail::from("the words are no text"));
    };
    let Err(TextRefused { refusal, text }) = verify(text, Geometry::of(ONE_LUN)?) else {
        return Ok(Some(Ok(true)));
    };
    if text.words() != words {
        return Err(Fail::from("another text came back"));
    }
    match refusal {
        VerifyRefusal::OutOfMemory => Ok(Some(Ok(false))),
        VerifyRefusal::Refusal { word, reason, .. } => Ok(Some(Err((word, reason)))),
    }
}

// An erase that gives its status where it failed, and a word too early: the place in the buffer is past its end.
const GET_AFTER_BRANCH: [Word; 8] = [
    ERASE,
    ROW,
    START_ERASE,
    WAIT,
    Word::BranchOnStatus { mask: 1, target: 6 },
    END,
    Word::Get { len: 1 },
    END,
];

// The same in a loop that turns twice.
const GET_IN_LOOP: [Word; 8] = [
    Word::Loop { turns: 2 },
    ERASE,
    ROW,
    START_ERASE,
    WAIT,
    Word::Get { len: 1 },
    Word::Next,
    END,
];

// The bus is let go after an opener.
const YIELD_AFTER_OPENER: [Word; 4] = [STAT, ERASE, Word::Yield, END];

type Answered = (&'static [Word], Result<bool, (usize, Reason)>);

const ANSWERED: &[Answered] = &[
    (&ERASE_BLOCK, Ok(true)),
    (&ERASE_CHECKED, Ok(true)),
    (&GET_AFTER_BRANCH, Err((6, Reason::BufferPassed))),
    (&GET_IN_LOOP, Err((5, Reason::BufferPassed))),
    (&YIELD_AFTER_OPENER, Err((2, Reason::HandoverInSequence))),
];

// Whether each answer on a heap of so many bytes is what it is without want; None where there is too little for the words of one.
fn are_answered(alloc: Global, size: usize) -> Result<Option<bool>, Fail> {
    let heap = LocalHeap::new(alloc, size)?;
    let mut is_answered = true;
    for (words, answer) in ANSWERED {
        match answer_in(&heap, words)? {
            None => is_answered = false,
            Some(it) => if it != *answer {
                return Ok(Some(false));
            },
        }
    }
    Ok(if is_answered { Some(true) } else { None })
}

// Texts with branches and loops take no memory: each answer is what it is without want, however little there is.
#[test]
fn memory_is_wanted_for_counters_alone(rt: HostRuntime) -> Result<(), Fail> {
    let mut answered = false;
    for size in 1..64usize {
        match are_answered(rt.alloc(), 16 * size)? {
            None => {}
            Some(true) => answered = true,
            Some(false) => return Err(Fail::from("another answer for want of memory")),
        }
    }
    assert!(rt; answered);
    Ok(())
}

// The erase as a text of one row and no buffer.
fn erase_text(alloc: Global, budget: u32) -> Result<Text, Fail> {
    let words = ERASE_BLOCK.to_vec(alloc)?;
    match Text::of(1, 0, budget, words) {
        Ok(text) => Ok(text),
        Err(_) => Err(Fail::from("the words are no text")),
    }
}

// A text of the erase with this budget.
fn is_erase(text: &Text, budget: u32) -> bool {
    text.words() == ERASE_BLOCK.as_slice() && text.budget() == budget
}

#[test]
fn what_is_accepted_is_shown(rt: HostRuntime) -> Result<(), Fail> {
    let geometry = Geometry::of(TWO_LUNS)?;
    let text = erase_text(rt.alloc(), 7)?;
    let Ok(verified) = verify(text, geometry) else {
        return Err(Fail::from("the erase is refused"));
    };
    assert!(rt; is_erase(verified.text(), 7) && verified.geometry().parts() == TWO_LUNS);
    Ok(())
}

// The budget is one short at the start of the erase.
fn is_over_budget(refusal: &VerifyRefusal) -> bool {
    matches!(
        refusal,
        VerifyRefusal::Refusal {
            word: 2,
            reason: Reason::OverBudget,
            counter: None
        }
    )
}

#[test]
fn what_is_refused_is_handed_back(rt: HostRuntime) -> Result<(), Fail> {
    let geometry = Geometry::of(ONE_LUN)?;
    let text = erase_text(rt.alloc(), 4)?;
    let Err(TextRefused { refusal, text }) = verify(text, geometry) else {
        return Err(Fail::from("the budget is one short"));
    };
    assert!(rt; is_over_budget(&refusal) && is_erase(&text, 4));
    Ok(())
}

#[test]
fn refusals_are_told(rt: HostRuntime) -> Result<(), Fail> {
    let refusal: VerifyRefusal = VerifyRefusal::Refusal {
        word: 2,
        reason: Reason::OverBudget,
        counter: None,
    };
    let told = format!(in rt.alloc(); "{refusal}")?;
    assert_eq!(rt;
        told.as_str(),
        "V15 at word 2: the bus cycles up to here are more than the budget in the header"
    );
    Ok(())
}
