use linked_list_allocator::LocalHeap;
use micro_word::{Text, Word, WordFault, WordRefusal, read, write};
use std::alloc::{AllocError, Global};
use std::test::Fail;

// The erase of one block, in format 1: cmd 60, addr 2 3, cmd d0, wait, end 0; rows 1, budget 5.
const ERASE: [u8; 36] = [
    0x4e, 0x4d, 0x50, 0x31, 0x05, 0x00, 0x01, 0x00, 0x00, 0x00, 0x00, 0x00, 0x05, 0x00, 0x00, 0x00,
    0x01, 0x60, 0x00, 0x00, 0x02, 0x02, 0x03, 0x00, 0x01, 0xd0, 0x00, 0x00, 0x0a, 0x00, 0x00, 0x00,
    0x00, 0x00, 0x00, 0x00,
];

fn fault(fault: WordFault, word: usize) -> Option<WordRefusal> {
    Some(WordRefusal::Fault { fault, word })
}

fn refusal(alloc: Global, bytes: &[u8]) -> Option<WordRefusal> {
    read(alloc, bytes).err()
}

// The file of `end 0` and a word of these bytes.
fn second_word(format: u8, [code, a, low, high]: [u8; 4]) -> [u8; 24] {
    [
        0x4e, 0x4d, 0x50, format, 2, 0, 1, 0, 0, 0, 0, 0, 0, 0, 0, 0, 0, 0, 0, 0, code, a, low,
        high,
    ]
}

const ERASE_WORDS: &[Word] = &[
    Word::Command { byte: 0x60 },
    Word::Address { from: 2, count: 3 },
    Word::Command { byte: 0xd0 },
    Word::Wait,
    Word::End { code: 0 },
];

// The erase with another byte.
fn changed(place: u8, value: u8) -> [u8; 36] {
    let mut bytes = ERASE;
    bytes[usize::from(place % 36)] = value;
    bytes
}

// Rows, buffer and words that are no text, why, and at which word.
const NO_TEXTS: &[(u16, u32, &[Word], WordFault, usize)] = &[
    (0, 0, &[Word::Next; 1025], WordFault::TooManyWords, 0),
    (0, 0, &[], WordFault::OutOfRange, 0),
    (4097, 0, &[], WordFault::OutOfRange, 0),
    (1, 16_777_216, &[], WordFault::OutOfRange, 0),
    (
        1,
        0,
        &[Word::Wait, Word::Jump { target: 2 }],
        WordFault::OutOfRange,
        1,
    ),
];

// Why these words are no text, and whether they come back.
fn refused_with(
    alloc: Global,
    rows: u16,
    buffer: u32,
    words: &[Word],
) -> Result<(Option<WordRefusal>, bool), Fail> {
    match Text::of(rows, buffer, 0, words.to_vec(alloc)?) {
        Ok(_) => Ok((None, false)),
        Err(refused) => Ok((Some(refused.refusal), refused.words.as_slice() == words)),
    }
}

#[test]
fn texts_that_are_refused(rt: HostRuntime) -> Result<(), Fail> {
    for (rows, buffer, words, code, word) in NO_TEXTS {
        let refused = refused_with(rt.alloc(), *rows, *buffer, words)?;
        assert_eq!(rt; refused, (fault(*code, *word), true));
    }
    Ok(())
}

const MESSAGES: &[(WordRefusal, &str)] = &[
    (
        WordRefusal::Fault {
            fault: WordFault::UnusedFieldSet,
            word: 3,
        },
        "M5 at word 3: a byte that this word doesn't use isn't 0",
    ),
    (WordRefusal::OutOfMemory, "out of memory"),
];

#[test]
fn messages(rt: HostRuntime) -> Result<(), Fail> {
    for (refusal, message) in MESSAGES {
        assert_eq!(rt; refusal.to_string(rt.alloc())?.as_str(), *message);
    }
    Ok(())
}

// The next number of a fixed generator.
fn next(state: &mut u32) -> u8 {
    *state = state.wrapping_mul(1_664_525).wrapping_add(1_013_904_223);
    (*state >> 24) as u8
}

// A file of two words, mostly with small fields.
fn made(state: &mut u32) -> [u8; 24] {
    let mut bytes = second_word(0x31 + next(state) % 2, [0; 4]);
    for word in 0..2usize {
        bytes[16 + 4 * word] = next(state) % 18;
        bytes[17 + 4 * word] = next(state) % 6 / 4;
        bytes[18 + 4 * word] = next(state) % 3;
    }
    if next(state) < 64 {
        let place = next(state) % 24;
        bytes[usize::from(place)] = next(state);
    }
    bytes
}

// Whether what is read of a file is written as the same file in format 2; None where it is refused.
fn is_kept(alloc: Global, file: &[u8; 24]) -> Result<Option<bool>, Fail> {
    match read(alloc, file) {
        Ok(text) => {
            let mut upgraded = *file;
            upgraded[3] = 0x32;
            Ok(Some(write(alloc, &text)?.as_slice() == upgraded.as_slice()))
        }
        Err(WordRefusal::Fault { .. }) => Ok(None),
        Err(WordRefusal::OutOfMemory) => Err(Fail::from("out of memory")),
    }
}

#[test]
fn ten_thousand_made_files(rt: HostRuntime) -> Result<(), Fail> {
    let mut state = 1;
    let mut accepted: u32 = 0;
    let mut refused: u32 = 0;
    for _ in 0..10_000 {
        match is_kept(rt.alloc(), &made(&mut state))? {
            Some(is_same) => {
                assert!(rt; is_same);
                accepted = accepted.saturating_add(1);
            }
            None => refused = refused.saturating_add(1),
        }
    }
    assert!(rt;
        accepted > 100 && refused > 100,
        "{accepted} accepted, {refused} refused"
    );
    Ok(())
}

// How long the file of a text is on a heap, None where that has too little memory.
fn written_on(heap: &LocalHeap, text: &Text) -> Option<usize> {
    match write(heap, text) {
        Ok(bytes) => Some(bytes.len()),
        Err(AllocError) => None,
    }
}

// Whether a file is read on a heap as the words of the erase.
fn read_on(heap: &LocalHeap, bytes: &[u8]) -> Result<bool, WordRefusal> {
    match read(heap, bytes) {
        Ok(text) => Ok(text.words() == ERASE_WORDS),
        Err(refusal) => Err(refusal),
    }
}

#[test]
fn refused_memory(rt: HostRuntime) -> Result<(), Fail> {
    let text = read(rt.alloc(), &ERASE)?;
    let stray = changed(29, 0x01);
    let mut refused = (false, false);
    let mut sufficed = (false, false);
    for size in 0..40usize {
        let heap = LocalHeap::new(rt.alloc(), 16 * size)?;
        match read_on(&heap, &ERASE) {
            Ok(true) => sufficed.0 = true,
            told => {
                assert_eq!(rt; told, Err(WordRefusal::OutOfMemory));
                refused.0 = true;
            }
        }
        // Every fault comes before want of memory.
        let faults = (
            read_on(&heap, &stray).err(),
            read_on(&heap, &ERASE[..35]).err(),
        );
        let wanted = (
            fault(WordFault::UnusedFieldSet, 3),
            fault(WordFault::TooManyWords, 0),
        );
        assert_eq!(rt; faults, wanted);
        match written_on(&heap, &text) {
            Some(len) => {
                assert_eq!(rt; len, 36);
                sufficed.1 = true;
            }
            None => refused.1 = true,
        }
    }
    assert_eq!(rt; (refused, sufficed), ((true, true), (true, true)));
    Ok(())
}
