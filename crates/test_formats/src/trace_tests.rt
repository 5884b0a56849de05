use linked_list_allocator::LocalHeap;
use nand_geometry::Profile;
use onfi_cycle::{Cycle, Failures, Item, Kind};
use std::alloc::{AllocError, Global};
use std::process::Abort;
use std::test::Fail;
use trace_text::{TraceFault, TraceRefusal, is_printable, parse, parse_in, print};

// What a ready tells.
const FINE: Failures = Failures {
    last: false,
    before: false,
};

const FAILED: Failures = Failures {
    last: true,
    before: false,
};

// The erase of a block, asked for its status until it is ready.
const ERASE: &str =
    "0 C 60\n0 A 00\n0 A 00\n0 A 00\n0 C d0\n0 C 70\n0 O 80\n0 R 0 0\n0 C 70\n0 O e0\n";

// The same without its last line feed, and what stands after its first line.
const UNENDED: &str =
    "0 C 60\n0 A 00\n0 A 00\n0 A 00\n0 C d0\n0 C 70\n0 O 80\n0 R 0 0\n0 C 70\n0 O e0";

const REST: &str = "\n0 A 00\n0 A 00\n0 A 00\n0 C d0\n0 C 70\n0 O 80\n0 R 0 0\n0 C 70\n0 O e0\n";

// Cycles.
const CE_0_COMMAND: Item = Item::Cyc(Cycle {
    ce: 0,
    kind: Kind::Cmd,
    byte: 0x80,
});

const CE_3_ADDRESS: Item = Item::Cyc(Cycle {
    ce: 3,
    kind: Kind::Adr,
    byte: 0x0a,
});

const CE_1_INPUT: Item = Item::Cyc(Cycle {
    ce: 1,
    kind: Kind::Din,
    byte: 0xff,
});

const CE_2_OUTPUT: Item = Item::Cyc(Cycle {
    ce: 2,
    kind: Kind::Dout,
    byte: 0x09,
});

const OPENS: Item = Item::Cyc(Cycle {
    ce: 0,
    kind: Kind::Cmd,
    byte: 0x60,
});

const ZEROS: Item = Item::Cyc(Cycle {
    ce: 0,
    kind: Kind::Adr,
    byte: 0x00,
});

const STARTS: Item = Item::Cyc(Cycle {
    ce: 0,
    kind: Kind::Cmd,
    byte: 0xd0,
});

const ASKS: Item = Item::Cyc(Cycle {
    ce: 0,
    kind: Kind::Cmd,
    byte: 0x70,
});

const IS_BUSY: Item = Item::Cyc(Cycle {
    ce: 0,
    kind: Kind::Dout,
    byte: 0x80,
});

const IS_READY: Item = Item::Cyc(Cycle {
    ce: 0,
    kind: Kind::Dout,
    byte: 0xe0,
});

fn fault(fault: TraceFault, line: usize) -> Option<TraceRefusal> {
    Some(TraceRefusal::Fault { fault, line })
}

fn refusal(alloc: Global, text: &str) -> Option<TraceRefusal> {
    parse(alloc, text).err()
}

// The text of these items, which can be printed.
fn printed(alloc: Global, items: &[Item]) -> Result<String, Fail> {
    if !is_printable(items) {
        return Err(Fail::from("a chip enable or a LUN above 3"));
    }
    Ok(print(alloc, items)?)
}

// Items, and the text that has them.
const WRITTEN: &[(&[Item], &str)] = &[
    (
        &[
            CE_0_COMMAND,
            CE_3_ADDRESS,
            CE_1_INPUT,
            Item::Rdy {
                ce: 2,
                lun: 3,
                fail: FAILED,
            },
            Item::Rdy {
                ce: 0,
                lun: 1,
                fail: FINE,
            },
            Item::Ard {
                ce: 3,
                lun: 2,
                fail: false,
            },
            CE_2_OUTPUT,
        ],
        "0 C 80\n3 A 0a\n1 I ff\n2 R 3 1\n0 R 1 0\n3 Y 2\n2 O 09\n",
    ),
    (
        &[
            OPENS,
            ZEROS,
            ZEROS,
            ZEROS,
            STARTS,
            ASKS,
            IS_BUSY,
            Item::Rdy {
                ce: 0,
                lun: 0,
                fail: FINE,
            },
            ASKS,
            IS_READY,
        ],
        ERASE,
    ),
    (&[], ""),
    (
        &[Item::Ard {
            ce: 0,
            lun: 1,
            fail: false,
        }],
        "0 Y 1\n",
    ),
];

fn is_written(rt: &impl Abort, alloc: Global, items: &[Item], text: &str) -> Result<(), Fail> {
    assert_eq!(rt; parse(alloc, text)?.as_slice(), items, "{text}");
    assert_eq!(rt; printed(alloc, items)?.as_str(), text);
    Ok(())
}

#[test]
fn items_are_read_and_written(rt: HostRuntime) -> Result<(), Fail> {
    for (items, text) in WRITTEN {
        is_written(&rt, rt.alloc(), items, text)?;
    }
    Ok(())
}

// Texts that the profile onfi alone reads, and how the base refuses them.
const TOLD_MORE: &[(Item, &str, TraceFault)] = &[
    (
        Item::Rdy {
            ce: 0,
            lun: 1,
            fail: Failures {
                last: false,
                before: true,
            },
        },
        "0 R 1 2\n",
        TraceFault::BadNumber,
    ),
    (
        Item::Rdy {
            ce: 3,
            lun: 0,
            fail: Failures {
                last: true,
                before: true,
            },
        },
        "3 R 0 3\n",
        TraceFault::BadNumber,
    ),
    (
        Item::Ard {
            ce: 0,
            lun: 1,
            fail: true,
        },
        "0 Y 1 1\n",
        TraceFault::BadShape,
    ),
];

#[test]
fn two_failures_are_read_in_the_profile_onfi(rt: HostRuntime) -> Result<(), Fail> {
    for (item, text, refused) in TOLD_MORE {
        let read = parse_in(rt.alloc(), text, Profile::Onfi)?;
        assert_eq!(rt; read.as_slice(), [*item].as_slice(), "{text}");
        assert_eq!(rt; printed(rt.alloc(), &[*item])?.as_str(), *text);
        assert!(rt; parse(rt.alloc(), text).err() == fault(*refused, 1));
    }
    Ok(())
}

const CE_3_COMMAND: Item = Item::Cyc(Cycle {
    ce: 3,
    kind: Kind::Cmd,
    byte: 0x60,
});

// Items with a chip enable or a LUN above 3.
const FAR: &[Item] = &[
    Item::Cyc(Cycle {
        ce: 4,
        kind: Kind::Cmd,
        byte: 0x60,
    }),
    Item::Rdy {
        ce: 4,
        lun: 0,
        fail: FINE,
    },
    Item::Rdy {
        ce: 0,
        lun: 4,
        fail: FINE,
    },
    Item::Ard {
        ce: 255,
        lun: 0,
        fail: false,
    },
    Item::Ard {
        ce: 0,
        lun: 4,
        fail: false,
    },
];

#[test]
fn what_can_be_printed(rt: HostRuntime) {
    for item in FAR {
        assert!(rt; !is_printable(&[CE_3_COMMAND, *item]));
    }
    assert!(rt;
        is_printable(&[Item::Ard {
            ce: 3,
            lun: 3,
            fail: false
        }])
    );
}

const MESSAGES: &[(TraceRefusal, &str)] = &[
    (
        TraceRefusal::Fault {
            fault: TraceFault::BadShape,
            line: 10,
        },
        "X1 at line 10: the line isn't ended by a line feed, has no letter of an item, or has another number of fields than its letter wants",
    ),
    (
        TraceRefusal::Fault {
            fault: TraceFault::BadNumber,
            line: 1,
        },
        "X2 at line 1: a field isn't a number of its form",
    ),
    (TraceRefusal::OutOfMemory, "out of memory"),
];

#[test]
fn messages(rt: HostRuntime) -> Result<(), Fail> {
    for (refusal, message) in MESSAGES {
        assert_eq!(rt; refusal.to_string(rt.alloc())?.as_str(), *message);
    }
    Ok(())
}

// The next number of a fixed generator.
fn next(state: &mut u32) -> u8 {
    *state = state.wrapping_mul(1_664_525).wrapping_add(1_013_904_223);
    (*state >> 24) as u8
}

// One of the characters of texts, mostly, or any ASCII character.
fn character(state: &mut u32) -> u8 {
    const COMMON: [u8; 16] = *b"0123 \nCAIORYadef";
    let place = next(state);
    if place < 240 {
        COMMON[usize::from(place % 16)]
    } else {
        next(state) % 128
    }
}

// The lines of one item of each kind, of which one to three characters are changed.
fn damaged(state: &mut u32) -> [u8; 35] {
    let mut bytes = *b"0 C 60\n3 A 0f\n1 R 2 1\n0 Y 1\n2 O e0\n";
    for _ in 0..1 + next(state) % 3 {
        let place = next(state) % 35;
        bytes[usize::from(place)] = character(state);
    }
    bytes
}

// Whether the items of a text are written as the same text, None where it is refused.
fn is_kept(alloc: Global, text: &str) -> Result<Option<bool>, Fail> {
    match parse(alloc, text) {
        Ok(items) => Ok(Some(print(alloc, &items)?.as_str() == text)),
        Err(TraceRefusal::Fault { .. }) => Ok(None),
        Err(TraceRefusal::OutOfMemory) => Err(Fail::from("out of memory")),
    }
}

#[test]
fn ten_thousand_damaged_texts(rt: HostRuntime) -> Result<(), Fail> {
    let mut state = 1;
    let mut accepted: u32 = 0;
    let mut refused: u32 = 0;
    for _ in 0..10_000 {
        let bytes = damaged(&mut state);
        match is_kept(rt.alloc(), str::from_utf8(&bytes)?)? {
            Some(is_same) => {
                assert!(rt; is_same);
                accepted = accepted.saturating_add(1);
            }
            None => refused = refused.saturating_add(1),
        }
    }
    assert!(rt;
        accepted > 100 && refused > 100,
        "{accepted} accepted, {refused} refused"
    );
    Ok(())
}

// Whether the erase is read on a heap as these items, and why a text isn't.
fn reads_on(heap: &LocalHeap, text: &str, items: &[Item]) -> Result<bool, TraceRefusal> {
    match parse(heap, text) {
        Ok(found) => Ok(found.as_slice() == items),
        Err(refusal) => Err(refusal),
    }
}

// Whether the text of these items on a heap is the erase, None where that has too little memory.
fn prints_on(heap: &LocalHeap, items: &[Item]) -> Option<bool> {
    if !is_printable(items) {
        return Some(false);
    }
    match print(heap, items) {
        Ok(text) => Some(text.as_str() == ERASE),
        Err(AllocError) => None,
    }
}

#[test]
fn refused_memory(rt: HostRuntime) -> Result<(), Fail> {
    let items = parse(rt.alloc(), ERASE)?;
    let mut parsed_at: usize = 0;
    let mut printed_at: usize = 0;
    for size in 0..80usize {
        let heap = LocalHeap::new(rt.alloc(), 16 * size)?;
        match reads_on(&heap, ERASE, &items) {
            Ok(is_same) => assert!(rt; is_same),
            told => {
                assert!(rt; told == Err(TraceRefusal::OutOfMemory));
                parsed_at = size + 1;
            }
        }
        // Every fault comes before want of memory.
        assert!(rt; reads_on(&heap, UNENDED, &items).err() == fault(TraceFault::BadShape, 10));
        assert!(rt; reads_on(&heap, REST, &items).err() == fault(TraceFault::BadShape, 1));
        match prints_on(&heap, &items) {
            Some(is_same) => assert!(rt; is_same),
            None => printed_at = size + 1,
        }
    }
    // Both calls were refused at first, and went on in the end.
    assert!(rt; parsed_at > 0 && parsed_at < 80 && printed_at > 0 && printed_at < 80);
    Ok(())
}
