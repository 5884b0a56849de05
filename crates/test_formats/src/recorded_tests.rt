use linked_list_allocator::LocalHeap;
use onfi_cycle::{Cycle, Failures, Item, Kind};
use std::alloc::{AllocError, Allocator};
use std::test::Fail;
use trace_text::{
    RecordedItem, TimedItem, TraceFault, TraceRefusal, find_item, is_recording_printable,
    parse_recorded, print_recorded,
};

const LOG: &str =
    "# an erase\r\n\n@5 0 C 60\r\n0 A 04 ; row\n\n @18446744073709551615 0 C d0\n0 X 00\n0 C 70\n";

fn cycle(ce: u8, kind: Kind, byte: u8) -> Item {
    Item::Cyc(Cycle { ce, kind, byte })
}

#[test]
fn items_by_their_numbers(rt: HostRuntime) {
    let found = [
        Some(RecordedItem {
            line: 3,
            time: Some(5),
            item: cycle(0, Kind::Cmd, 0x60),
        }),
        Some(RecordedItem {
            line: 4,
            time: None,
            item: cycle(0, Kind::Adr, 0x04),
        }),
        Some(RecordedItem {
            line: 6,
            time: Some(18_446_744_073_709_551_615),
            item: cycle(0, Kind::Cmd, 0xd0),
        }),
        // The next line has a fault.
        None,
        None,
    ];
    for (number, item) in found.iter().enumerate() {
        assert_eq!(rt; find_item(LOG, number), *item);
    }
    assert_eq!(rt; find_item("", 0), None);
}

fn timed(time: u64, item: Item) -> TimedItem {
    TimedItem { time, item }
}

// The recorded text of these items, which can be printed; None if they can't.
fn printed<A: Allocator + Drop>(
    alloc: A,
    items: &[TimedItem],
) -> Option<Result<String<A>, AllocError>> {
    if is_recording_printable(items) {
        Some(print_recorded(alloc, items))
    } else {
        None
    }
}

#[test]
fn items_with_times(rt: HostRuntime) -> Result<(), Fail> {
    let items = [
        timed(0, cycle(0, Kind::Cmd, 0x80)),
        timed(25, cycle(3, Kind::Din, 0x0a)),
        timed(
            1_200,
            Item::Rdy {
                ce: 2,
                lun: 3,
                fail: Failures {
                    last: true,
                    before: false,
                },
            },
        ),
        timed(
            18_446_744_073_709_551_615,
            Item::Ard {
                ce: 0,
                lun: 1,
                fail: false,
            },
        ),
    ];
    let text = printed(rt.alloc(), &items).ok_or("a chip enable or a LUN above 3")??;
    assert_eq!(rt;
        text.as_str(),
        "@0 0 C 80\n@25 3 I 0a\n@1200 2 R 3 1\n@18446744073709551615 0 Y 1\n"
    );
    let read = parse_recorded(rt.alloc(), &text)?;
    assert_eq!(rt; read.as_slice(), items.map(|timed| timed.item).as_slice());
    let empty = printed(rt.alloc(), &[]).ok_or("nothing to print")??;
    assert_eq!(rt; empty.as_str(), "");
    Ok(())
}

#[test]
fn what_can_be_printed(rt: HostRuntime) {
    assert!(rt;
        is_recording_printable(&[timed(
            9,
            Item::Ard {
                ce: 3,
                lun: 3,
                fail: false
            }
        )])
    );
    assert!(rt;
        !is_recording_printable(&[timed(
            9,
            Item::Ard {
                ce: 3,
                lun: 4,
                fail: false
            }
        )])
    );
    assert!(rt; !is_recording_printable(&[timed(9, cycle(4, Kind::Cmd, 0x60))]));
}

#[test]
fn refused_memory(rt: HostRuntime) -> Result<(), Fail> {
    const GOOD: &str = "@1 0 C 60\n@2 0 A 04\n@3 0 A 00\n@4 0 A 00\n@5 0 C d0\n@6 0 C 70\n# end\n";
    const BAD: &str = "@1 0 C 60\n@2 0 A 04\n@3 0 A 00\n@4 0 A 00\n@5 0 C d0\n@6 0 C 70\n0 Y 4\n";
    let fault = TraceRefusal::Fault {
        fault: TraceFault::BadNumber,
        line: 7,
    };
    let mut read_at: usize = 0;
    for size in 0..80usize {
        let heap = LocalHeap::new(rt.alloc(), 16 * size)?;
        match parse_recorded(&heap, GOOD) {
            Ok(found) => assert_eq!(rt; found.len(), 6),
            Err(refusal) => {
                assert_eq!(rt; refusal, TraceRefusal::OutOfMemory);
                read_at = size + 1;
            }
        }
        // Every fault comes before want of memory.
        assert_eq!(rt; parse_recorded(&heap, BAD).err(), Some(fault));
    }
    // The call was refused at first, and went on in the end.
    assert!(rt; read_at > 0 && read_at < 80);
    Ok(())
}

#[test]
fn refused_memory_of_a_text(rt: HostRuntime) -> Result<(), Fail> {
    let items = [timed(1, cycle(0, Kind::Cmd, 0x60))];
    let mut printed_at: usize = 0;
    for size in 0..80usize {
        let heap = LocalHeap::new(rt.alloc(), 16 * size)?;
        match printed(&heap, &items) {
            Some(Ok(text)) => assert_eq!(rt; text.as_str(), "@1 0 C 60\n"),
            Some(Err(AllocError)) => printed_at = size + 1,
            None => return Err(Fail::from("a chip enable or a LUN above 3")),
        }
    }
    assert!(rt; printed_at > 0 && printed_at < 80);
    Ok(())
}
