use linked_list_allocator::LocalHeap;
use micro_asm::{AsmFault, AsmRefusal, assemble, disassemble};
use micro_word::{Text, Word};
use std::alloc::Global;
use std::process::Abort;
use std::test::Fail;

// The erase of a block that ends with another code where it failed.
const ERASE: &str =
    "rows 1\nbuffer 0\nbudget 5\ncmd 60\naddr 2 3\ncmd d0\nwait\nbrs 01 L6\nend 0\nL6:\nend 1\n";

// Texts that are refused, each with its fault and the line of that fault.
type Table<'a> = &'a [(&'static str, AsmFault, usize)];

// The erase with one of its lines changed or left out, and nothing at all.
const ERASES: Table<'static> = &[
    (
        "rows 1\nbuffer 0\nbudget 5\ncmd 6g\naddr 2 3\ncmd d0\nwait\nbrs 01 L6\nend 0\nL6:\nend 1\n",
        AsmFault::BadOperand,
        4,
    ),
    (
        "rows 1\nbuffer 0\nbudget 5\ncmd 60\naddr 3 3\ncmd d0\nwait\nbrs 01 L6\nend 0\nL6:\nend 1\n",
        AsmFault::OperandOutOfRange,
        5,
    ),
    (
        "rows 1\nbuffer 0\nbudget 5\ncmd 60\naddr 2 3\ncmd d0\nwait\nbrs 01 L7\nend 0\nL6:\nend 1\n",
        AsmFault::NoSuchLabel,
        8,
    ),
    (
        "rows 1\nbuffer 0\nbudget 5\ncmd 60\naddr 2 3\ncmd d0\nwait\nbrs 01 L6\nL6:\nL6:\nend 1\n",
        AsmFault::LabelTwice,
        10,
    ),
    (
        "rows 1\nbuffer 0\nbudget 5\ncmd 60\naddr 2 3\ncmd d0\nwait\nbrs 01 L6\nend 0\nL6:\n",
        AsmFault::LabelAfterLastWord,
        10,
    ),
    (
        "rows 1\nbuffer 0\ncmd 60\naddr 2 3\ncmd d0\nwait\nbrs 01 L6\nend 0\nL6:\nend 1\n",
        AsmFault::HeaderOutOfOrder,
        3,
    ),
    ("", AsmFault::HeaderOutOfOrder, 1),
];

// Faults that go by the place of a line.
const PLACES: Table<'static> = &[
    ("wait\n", AsmFault::HeaderOutOfOrder, 1),
    ("x:\n", AsmFault::HeaderOutOfOrder, 1),
    ("rows 1\nbudget 0\n", AsmFault::HeaderOutOfOrder, 2),
    ("rows 1\nrows 0\n", AsmFault::OperandOutOfRange, 2),
    ("rows 1\nfoo\n", AsmFault::UnknownWord, 2),
    ("rows 1\nbuffer 0\n", AsmFault::HeaderOutOfOrder, 3),
    (
        "; no more\n\nrows 1\nbuffer 0",
        AsmFault::HeaderOutOfOrder,
        5,
    ),
    (
        "rows 1\nbuffer 0\nbudget 0\nx:\nfoo\n",
        AsmFault::LabelAfterLastWord,
        4,
    ),
    (
        "rows 1\nbuffer 0\nbudget 0\nx:\ncmd 6g\n",
        AsmFault::BadOperand,
        5,
    ),
    (
        "rows 1\nbuffer 0\nbudget 0\njmp y\nx:\n",
        AsmFault::LabelAfterLastWord,
        5,
    ),
    (
        "rows 1\nbuffer 0\nbudget 0\njmp y\njmp z\nend 0\n",
        AsmFault::NoSuchLabel,
        4,
    ),
    (
        "rows 1\nbuffer 0\nbudget 0\nx:\nend 0\nx:\n",
        AsmFault::LabelTwice,
        6,
    ),
    (
        "rows 1\nbuffer 0\nbudget 0\nx:\ny:\n",
        AsmFault::LabelAfterLastWord,
        4,
    ),
];

// Texts whose last line alone has a fault; most have a label and words in front, which want memory.
const LAST_LINES: Table<'static> = &[
    (
        "rows 1\nbuffer 0\nbudget 5\nL6:\nwait\nbrs 01 L6\nend 0\nfoo\n",
        AsmFault::UnknownWord,
        8,
    ),
    (
        "rows 1\nbuffer 0\nbudget 5\nL6:\nwait\nbrs 01 L6\nend 0\ncmd 6g\n",
        AsmFault::BadOperand,
        8,
    ),
    (
        "rows 1\nbuffer 0\nbudget 5\nL6:\nwait\nbrs 01 L6\nend 0\nend 256\n",
        AsmFault::OperandOutOfRange,
        8,
    ),
    (
        "rows 1\nbuffer 0\nbudget 5\nL6:\nwait\nbrs 01 L6\nend 0\njmp L7\n",
        AsmFault::NoSuchLabel,
        8,
    ),
    (
        "rows 1\nbuffer 0\nbudget 5\nL6:\nwait\nbrs 01 L6\nend 0\nL6:\n",
        AsmFault::LabelTwice,
        8,
    ),
    (
        "rows 1\nbuffer 0\nbudget 5\nL6:\nwait\nbrs 01 L6\nend 0\nL7:\n",
        AsmFault::LabelAfterLastWord,
        8,
    ),
    ("rows 1\nbuffer 0\nwait\n", AsmFault::HeaderOutOfOrder, 3),
    ("rows 1\nbuffer 0\n", AsmFault::HeaderOutOfOrder, 3),
];

// A text of so many words.
fn waits(alloc: Global, count: usize) -> Result<String, Fail> {
    let mut text = String::from_str(alloc, "rows 1\nbuffer 0\nbudget 0\n")?;
    for _ in 0..count {
        text.push_str("wait\n")?;
    }
    Ok(text)
}

// The next of a fixed run of numbers.
fn next(state: u64) -> u64 {
    state
        .wrapping_mul(6_364_136_223_846_793_005)
        .wrapping_add(1_442_695_040_888_963_407)
}

// A word of a number, in a text of so many words.
fn word_of(number: u64, words: u16) -> Word {
    let small = (number >> 40) % 4;
    let byte = ((number >> 32) % 255 + 1) as u8;
    let row = ((number >> 24) % 4095 + 1) as u16;
    let target = ((number >> 16) % u64::from(words.max(1))) as u16;
    match (number >> 50) % 17 {
        0 => Word::End { code: byte },
        1 => Word::Command { byte },
        2 => Word::Address {
            from: small as u8,
            count: (small % 2 + 1) as u8,
        },
        3 => Word::Get {
            len: u32::from(row) * 4097,
        },
        4 => Word::Put {
            len: u32::from(row),
        },
        5 => Word::Seek {
            place: u32::from(row) * 4097,
        },
        6 => Word::Column { column: row },
        7 => Word::RowAdd { rows: row },
        8 => Word::Row { row },
        9 => Word::Plane { plane: small as u8 },
        10 => Word::Wait,
        11 => Word::Yield,
        12 => Word::ReadStatus,
        13 => Word::BranchOnStatus { mask: byte, target },
        14 => Word::Loop { turns: row },
        15 => Word::Next,
        _ => Word::Jump { target },
    }
}

// A text of up to 40 words.
fn generated(alloc: Global, seed: u64) -> Result<Text, Fail> {
    let count = ((seed >> 33) % 40 + 1) as u16;
    let mut words = Vec::new(alloc);
    let mut state = seed;
    for _ in 0..count {
        state = next(state);
        words.push(word_of(state, count))?;
    }
    let rows = ((seed >> 20) % 4096 + 1) as u16;
    let text = Text::of(
        rows,
        ((seed >> 8) % 16_777_216) as u32,
        (seed >> 32) as u32,
        words,
    );
    Ok(text.ok().ok_or("the words are no text")?)
}

// Whether a text is the same once it is written and read, and is written alike again.
fn is_kept(alloc: Global, text: &Text) -> Result<bool, Fail> {
    let lines = disassemble(alloc, text)?;
    let again = assemble(alloc, lines.as_str())?;
    let header = again.rows() == text.rows()
        && again.buffer() == text.buffer()
        && again.budget() == text.budget();
    let lines_again = disassemble(alloc, &again)?;
    Ok(header && again.words() == text.words() && lines_again.as_str() == lines.as_str())
}

#[test]
fn what_is_written_is_read_again(rt: HostRuntime) -> Result<(), Fail> {
    let mut seed = 20;
    for _ in 0..10_000 {
        seed = next(seed);
        let text = generated(rt.alloc(), seed)?;
        assert!(rt; is_kept(rt.alloc(), &text)?, "{seed}");
    }
    Ok(())
}

// Whether the erase is assembled on a heap that has so many bytes left, None where they don't suffice.
fn assembled_with(alloc: Global, size: usize) -> Result<Option<bool>, Fail> {
    let heap = LocalHeap::new(alloc, 8192)?;
    let taken: Result<Vec<u8, &LocalHeap>, _> = Vec::with_capacity(
        &heap,
        8000_usize.saturating_sub(size),
    );
    let read = assemble(&heap, ERASE);
    drop(taken);
    match read {
        Ok(text) => Ok(Some(text.words().len() == 7)),
        Err(AsmRefusal::OutOfMemory) => Ok(None),
        Err(_) => Ok(Some(false)),
    }
}

#[test]
fn memory_refused_to_the_assembler(rt: HostRuntime) -> Result<(), Fail> {
    let mut refused = false;
    let mut sufficed = false;
    for size in 0..120usize {
        match assembled_with(rt.alloc(), 32 * size)? {
            None => refused = true,
            Some(is_right) => {
                assert!(rt; is_right);
                sufficed = true;
            }
        }
    }
    assert!(rt; refused && sufficed);
    Ok(())
}

// Each of these texts is refused as its row says, however little memory this heap has.
fn all_refused_on(rt: &impl Abort, heap: &LocalHeap, table: Table<'_>) {
    for (text, code, line) in table {
        let wanted = Some(AsmRefusal::Fault {
            fault: *code,
            line: *line,
        });
        assert_eq!(rt; assemble(heap, text).err(), wanted, "{text}");
    }
}

#[test]
fn faults_come_before_want_of_memory(rt: HostRuntime) -> Result<(), Fail> {
    for size in 0..120usize {
        let heap = LocalHeap::new(rt.alloc(), 16 * size)?;
        all_refused_on(&rt, &heap, LAST_LINES);
        all_refused_on(&rt, &heap, ERASES);
        all_refused_on(&rt, &heap, PLACES);
    }
    Ok(())
}

// A text of so many labels, each in front of a jump to it.
fn loops(alloc: Global, count: usize) -> Result<String, Fail> {
    let mut text = String::from_str(alloc, "rows 1\nbuffer 0\nbudget 0\n")?;
    for at in 0..count {
        text.push_str(format!(in alloc; "x{at}:\njmp x{at}\n")?.as_str())?;
    }
    Ok(text)
}

// Why a text is refused on a heap of so many bytes.
fn refusal_on(alloc: Global, size: usize, text: &str) -> Result<Option<AsmRefusal>, Fail> {
    let heap = LocalHeap::new(alloc, size)?;
    Ok(assemble(&heap, text).err())
}

#[test]
fn long_texts_without_memory(rt: HostRuntime) -> Result<(), Fail> {
    let mut text = loops(rt.alloc(), 128)?;
    let found = refusal_on(rt.alloc(), 4096, text.as_str())?;
    assert_eq!(rt; found, Some(AsmRefusal::OutOfMemory));
    text.push_str("x127:\n")?;
    let twice = Some(AsmRefusal::Fault {
        fault: AsmFault::LabelTwice,
        line: 260,
    });
    assert_eq!(rt; refusal_on(rt.alloc(), 4096, text.as_str())?, twice);
    let waits = waits(rt.alloc(), 1025)?;
    let many = Some(AsmRefusal::Fault {
        fault: AsmFault::TooManyWords,
        line: 1028,
    });
    assert_eq!(rt; refusal_on(rt.alloc(), 4096, waits.as_str())?, many);
    Ok(())
}
