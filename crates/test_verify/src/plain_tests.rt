use linked_list_allocator::LocalHeap;
use micro_verify::{PlainFault, PlainOp, PlainRefusal, plain, verify};
use micro_word::{Text, Word};
use nand_geometry::{Geometry, Parts, SMALL_CHIP};
use std::alloc::{AllocError, Global};
use std::test::Fail;

// One LUN of 8 blocks of 4 pages of 512 + 16 bytes, in one plane.
const ONE_LUN: Parts = SMALL_CHIP;

// Two such LUNs, each in two planes.
const TWO_LUNS: Parts = Parts {
    luns: 2,
    plane_bits: 1,
    enhanced: true,
    multi_plane: true,
    ..ONE_LUN
};

// One LUN of 8,192 pages.
const LARGE: Parts = Parts {
    pages: 64,
    blocks: 128,
    ..ONE_LUN
};

// The header of a text and the number of its words.
#[derive(Clone, Copy, Debug, PartialEq, Eq)]
struct Header {
    rows: u16,
    buffer: u32,
    budget: u32,
    words: usize,
}

// Operations, and what becomes of them.
#[derive(Clone, Copy)]
struct Try<'a> {
    parts: Parts,
    ops: &'a [PlainOp],
    becomes: Result<Header, PlainFault>,
}

// Whether the verifier accepts a text.
fn is_accepted(
    alloc: Global,
    header: Header,
    words: &[Word],
    geometry: Geometry,
) -> Result<bool, Fail> {
    let words = words.to_vec(alloc)?;
    match Text::of(header.rows, header.buffer, header.budget, words) {
        Ok(text) => Ok(verify(text, geometry).is_ok()),
        Err(_) => Err(Fail::from("the words are no text")),
    }
}

// What becomes of operations. A text that is made is made without a walk, and the verifier accepts it too.
fn becomes(alloc: Global, it: Try<'_>) -> Result<Result<Header, PlainFault>, Fail> {
    let geometry = Geometry::of(it.parts)?;
    let verified = match plain(alloc, it.ops, geometry) {
        Ok(verified) => verified,
        Err(PlainRefusal::Fault(fault)) => return Ok(Err(fault)),
        Err(PlainRefusal::OutOfMemory) => return Err(Fail::from("out of memory")),
    };
    if verified.walked() != 0 || verified.geometry().parts() != it.parts {
        return Err(Fail::from("another geometry, or words were walked"));
    }
    let text = verified.text();
    let words = text.words();
    let header = Header {
        rows: text.rows(),
        buffer: text.buffer(),
        budget: text.budget(),
        words: words.len(),
    };
    if is_accepted(alloc, header, words, geometry)? {
        Ok(Ok(header))
    } else {
        Err(Fail::from("the verifier refuses the text"))
    }
}

// The place of the first operations of which something else becomes.
fn first_other(alloc: Global, tries: &[Try<'_>]) -> Result<Option<usize>, Fail> {
    for (place, it) in tries.iter().enumerate() {
        if becomes(alloc, *it)? != it.becomes {
            return Ok(Some(place));
        }
    }
    Ok(None)
}

const PROGRAM_THEN_READ: [PlainOp; 2] = [
    PlainOp::Program {
        row: 0,
        plane: 0,
        column: 0,
        place: 0,
        len: 2,
    },
    PlainOp::Read {
        row: 0,
        plane: 0,
        column: 0,
        place: 2,
        len: 2,
    },
];

// Failures lead to the last word.
const PROGRAM_THEN_READ_WORDS: [Word; 22] = [
    Word::Row { row: 0 },
    Word::Plane { plane: 0 },
    Word::Column { column: 0 },
    Word::Seek { place: 0 },
    Word::Command { byte: 0x80 },
    Word::Address { from: 0, count: 5 },
    Word::Put { len: 2 },
    Word::Command { byte: 0x10 },
    Word::Wait,
    Word::BranchOnStatus {
        mask: 0x01,
        target: 21,
    },
    Word::Row { row: 0 },
    Word::Plane { plane: 0 },
    Word::Column { column: 0 },
    Word::Seek { place: 2 },
    Word::Command { byte: 0x00 },
    Word::Address { from: 0, count: 5 },
    Word::Command { byte: 0x30 },
    Word::Wait,
    Word::Command { byte: 0x00 },
    Word::Get { len: 2 },
    Word::End { code: 0 },
    Word::End { code: 1 },
];

const ERASE: [PlainOp; 1] = [PlainOp::Erase { row: 4, plane: 1 }];

const ERASE_WORDS: [Word; 9] = [
    Word::Row { row: 4 },
    Word::Plane { plane: 1 },
    Word::Command { byte: 0x60 },
    Word::Address { from: 2, count: 3 },
    Word::Command { byte: 0xd0 },
    Word::Wait,
    Word::BranchOnStatus {
        mask: 0x01,
        target: 8,
    },
    Word::End { code: 0 },
    Word::End { code: 1 },
];

// The words of operations.
fn words_made(alloc: Global, parts: Parts, ops: &[PlainOp]) -> Result<Vec<Word>, Fail> {
    let verified = plain(alloc, ops, Geometry::of(parts)?)?;
    Ok(verified.text().words().to_vec(alloc)?)
}

#[test]
fn words(rt: HostRuntime) -> Result<(), Fail> {
    let both = words_made(rt.alloc(), ONE_LUN, &PROGRAM_THEN_READ)?;
    assert_eq!(rt; both.as_slice(), PROGRAM_THEN_READ_WORDS.as_slice());
    let erase = words_made(rt.alloc(), TWO_LUNS, &ERASE)?;
    assert_eq!(rt; erase.as_slice(), ERASE_WORDS.as_slice());
    Ok(())
}

const READ_BYTE: PlainOp = PlainOp::Read {
    row: 0,
    plane: 0,
    column: 0,
    place: 0,
    len: 1,
};

const MOST_READS: [PlainOp; 102] = [READ_BYTE; 102];

const MORE_READS: [PlainOp; 103] = [READ_BYTE; 103];

const FIRST_BLOCK: PlainOp = PlainOp::Erase { row: 0, plane: 0 };

const MOST_ERASES: [PlainOp; 146] = [FIRST_BLOCK; 146];

const MORE_ERASES: [PlainOp; 147] = [FIRST_BLOCK; 147];

// Too many, and each on a plane that isn't there.
const ELSEWHERE: [PlainOp; 147] = [PlainOp::Erase { row: 0, plane: 9 }; 147];

// How many there may be.
const COUNTS: &[Try<'static>] = &[
    Try {
        parts: ONE_LUN,
        ops: &[],
        becomes: Err(PlainFault::NoOperations),
    },
    Try {
        parts: ONE_LUN,
        ops: &PROGRAM_THEN_READ,
        becomes: Ok(Header {
            rows: 1,
            buffer: 4,
            budget: 19,
            words: 22,
        }),
    },
    Try {
        parts: ONE_LUN,
        ops: &MOST_READS,
        becomes: Ok(Header {
            rows: 1,
            buffer: 1,
            budget: 918,
            words: 1022,
        }),
    },
    Try {
        parts: ONE_LUN,
        ops: &MORE_READS,
        becomes: Err(PlainFault::TooManyWords),
    },
    Try {
        parts: ONE_LUN,
        ops: &MOST_ERASES,
        becomes: Ok(Header {
            rows: 1,
            buffer: 0,
            budget: 730,
            words: 1024,
        }),
    },
    Try {
        parts: ONE_LUN,
        ops: &MORE_ERASES,
        becomes: Err(PlainFault::TooManyWords),
    },
    Try {
        parts: ONE_LUN,
        ops: &ELSEWHERE,
        becomes: Err(PlainFault::TooManyWords),
    },
];

#[test]
fn counts(rt: HostRuntime) -> Result<(), Fail> {
    assert_eq!(rt; first_other(rt.alloc(), COUNTS)?, None);
    Ok(())
}

// A read of the whole page of the last row, of the last plane, to the end of the greatest buffer.
const LAST: PlainOp = PlainOp::Read {
    row: 15,
    plane: 1,
    column: 0,
    place: 16_776_687,
    len: 528,
};

const READ_28: PlainOp = PlainOp::Read {
    row: 0,
    plane: 0,
    column: 500,
    place: 0,
    len: 28,
};

const READ_29: PlainOp = PlainOp::Read {
    row: 0,
    plane: 0,
    column: 500,
    place: 0,
    len: 29,
};

const PROGRAM_29: PlainOp = PlainOp::Program {
    row: 0,
    plane: 0,
    column: 500,
    place: 0,
    len: 29,
};

const NO_BYTES: PlainOp = PlainOp::Program {
    row: 0,
    plane: 0,
    column: 0,
    place: 0,
    len: 0,
};

const PAST_THE_BUFFER: PlainOp = PlainOp::Program {
    row: 0,
    plane: 0,
    column: 0,
    place: 16_777_214,
    len: 2,
};

const GREATEST: PlainOp = PlainOp::Program {
    row: 0,
    plane: 0,
    column: 65_535,
    place: 4_294_967_295,
    len: 4_294_967_295,
};

const ROW_31: PlainOp = PlainOp::Erase { row: 31, plane: 0 };

const ROW_32: PlainOp = PlainOp::Erase { row: 32, plane: 0 };

const ROW_16: PlainOp = PlainOp::Erase { row: 16, plane: 0 };

const ROW_4095: PlainOp = PlainOp::Erase {
    row: 4_095,
    plane: 0,
};

const ROW_4096: PlainOp = PlainOp::Erase {
    row: 4_096,
    plane: 0,
};

const PLANE_1: PlainOp = PlainOp::Erase { row: 0, plane: 1 };

const PLANE_2: PlainOp = PlainOp::Erase { row: 0, plane: 2 };

// One operation of one LUN that is outside.
const OUTSIDE: Try<'static> = Try {
    parts: ONE_LUN,
    ops: &[],
    becomes: Err(PlainFault::OperandOutside { operation: 0 }),
};

// The last operands that are inside, and the first ones that aren't.
const OPERANDS: &[Try<'static>] = &[
    Try {
        parts: TWO_LUNS,
        ops: &[LAST],
        becomes: Ok(Header {
            rows: 16,
            buffer: 16_777_215,
            budget: 536,
            words: 12,
        }),
    },
    Try {
        ops: &[READ_28],
        becomes: Ok(Header {
            rows: 1,
            buffer: 28,
            budget: 36,
            words: 12,
        }),
        ..OUTSIDE
    },
    Try {
        ops: &[READ_29],
        ..OUTSIDE
    },
    Try {
        ops: &[PROGRAM_29],
        ..OUTSIDE
    },
    Try {
        ops: &[NO_BYTES],
        ..OUTSIDE
    },
    Try {
        ops: &[PAST_THE_BUFFER],
        ..OUTSIDE
    },
    Try {
        ops: &[GREATEST],
        ..OUTSIDE
    },
    Try {
        ops: &[ROW_31],
        becomes: Ok(Header {
            rows: 32,
            buffer: 0,
            budget: 5,
            words: 9,
        }),
        ..OUTSIDE
    },
    Try {
        ops: &[ROW_32],
        ..OUTSIDE
    },
    Try {
        parts: TWO_LUNS,
        ops: &[ROW_16],
        ..OUTSIDE
    },
    Try {
        parts: LARGE,
        ops: &[ROW_4095],
        becomes: Ok(Header {
            rows: 4_096,
            buffer: 0,
            budget: 5,
            words: 9,
        }),
    },
    Try {
        parts: LARGE,
        ops: &[ROW_4096],
        ..OUTSIDE
    },
    Try {
        ops: &[PLANE_1],
        ..OUTSIDE
    },
    Try {
        parts: TWO_LUNS,
        ops: &[PLANE_1],
        becomes: Ok(Header {
            rows: 1,
            buffer: 0,
            budget: 5,
            words: 9,
        }),
    },
    // The first of them that is outside is told.
    Try {
        parts: TWO_LUNS,
        ops: &[PLANE_1, READ_28, PLANE_2, READ_29],
        becomes: Err(PlainFault::OperandOutside { operation: 2 }),
    },
];

#[test]
fn operands(rt: HostRuntime) -> Result<(), Fail> {
    assert_eq!(rt; first_other(rt.alloc(), OPERANDS)?, None);
    Ok(())
}

const CODES: &[(PlainFault, &str)] = &[
    (PlainFault::NoOperations, "L1"),
    (PlainFault::TooManyWords, "L2"),
    (PlainFault::OperandOutside { operation: 7 }, "L3"),
];

const MESSAGES: &[(PlainRefusal, &str)] = &[
    (
        PlainRefusal::Fault(PlainFault::OperandOutside { operation: 7 }),
        "operation 7 reaches outside the page, the LUN or the greatest buffer",
    ),
    (PlainRefusal::OutOfMemory, "out of memory"),
];

// The first code that is another one.
fn first_other_code() -> Option<&'static str> {
    for (fault, code) in CODES {
        if fault.code() != *code {
            return Some(code);
        }
    }
    None
}

// Whether a refusal has this message.
fn has_message(alloc: Global, refusal: PlainRefusal, message: &str) -> Result<bool, AllocError> {
    let told = refusal.to_string(alloc)?;
    Ok(told.as_str() == message)
}

// The place of the first message that is another one.
fn first_other_message(alloc: Global) -> Result<Option<usize>, AllocError> {
    for (place, (refusal, message)) in MESSAGES.iter().enumerate() {
        if !has_message(alloc, *refusal, message)? {
            return Ok(Some(place));
        }
    }
    Ok(None)
}

#[test]
fn told(rt: HostRuntime) -> Result<(), Fail> {
    assert_eq!(rt; first_other_code(), None);
    assert_eq!(rt; first_other_message(rt.alloc())?, None);
    Ok(())
}

// The budget of the text on a heap.
fn budget_on(heap: &LocalHeap, ops: &[PlainOp]) -> Result<Result<u32, PlainRefusal>, Fail> {
    match plain(heap, ops, Geometry::of(ONE_LUN)?) {
        Ok(verified) => Ok(Ok(verified.text().budget())),
        Err(refusal) => Ok(Err(refusal)),
    }
}

// Whether memory is refused on a heap of so many bytes; otherwise the budget is told. Every fault comes before want of memory.
fn is_refused(alloc: Global, size: usize) -> Result<bool, Fail> {
    let heap = LocalHeap::new(alloc, size)?;
    let fault = budget_on(&heap, &MORE_READS)?;
    let budget = budget_on(&heap, &PROGRAM_THEN_READ)?;
    if fault != Err(PlainRefusal::Fault(PlainFault::TooManyWords)) {
        return Err(Fail::from("another fault"));
    }
    match budget {
        Ok(19) => Ok(false),
        Err(PlainRefusal::OutOfMemory) => Ok(true),
        Ok(_) | Err(_) => Err(Fail::from("another budget, or a refusal")),
    }
}

#[test]
fn refused_memory(rt: HostRuntime) -> Result<(), Fail> {
    let mut refused_at: usize = 0;
    for size in 0..40usize {
        if is_refused(rt.alloc(), 16 * size)? {
            refused_at = size + 1;
        }
    }
    // The call was refused at first, and went on in the end.
    assert!(rt; refused_at > 0 && refused_at < 40);
    Ok(())
}

// The budget of a text of operations in a loop of so many turns: whether the verifier accepts it with the cost of all turns, and with one cycle less.
fn accepts_in_a_loop(alloc: Global, ops: &[PlainOp], turns: u16) -> Result<(bool, bool), Fail> {
    let geometry = Geometry::of(ONE_LUN)?;
    let verified = plain(alloc, ops, geometry)?;
    let text = verified.text();
    let straight = text.words();
    let (body, _ends) = straight.split_at(straight.len().saturating_sub(2));
    let mut words = vec![in alloc; Word::Loop { turns }]?;
    words.extend_from_slice(body)?;
    words.extend_from_slice(&[Word::Next, Word::End { code: 0 }])?;
    let all = Header {
        rows: text.rows(),
        buffer: text.buffer(),
        budget: text.budget().saturating_mul(u32::from(turns)),
        words: words.len(),
    };
    let less = Header {
        budget: all.budget.saturating_sub(1),
        ..all
    };
    Ok((
        is_accepted(alloc, all, words.as_slice(), geometry)?,
        is_accepted(alloc, less, words.as_slice(), geometry)?,
    ))
}

const TURNS: &[u16] = &[1, 2, 4096];

// The first number of turns whose budget isn't exactly what the verifier asks for.
fn first_wrong(alloc: Global, ops: &[PlainOp]) -> Result<Option<u16>, Fail> {
    for turns in TURNS {
        if accepts_in_a_loop(alloc, ops, *turns)? != (true, false) {
            return Ok(Some(*turns));
        }
    }
    Ok(None)
}

#[test]
fn in_a_loop(rt: HostRuntime) -> Result<(), Fail> {
    let wrong = first_wrong(rt.alloc(), &PROGRAM_THEN_READ)?;
    assert_eq!(rt; wrong, None);
    Ok(())
}
