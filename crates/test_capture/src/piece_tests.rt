use crate::reading::{STATUS, STATUS_TRACE, items_of, with_changes, words_of};
use bus_capture::{CaptureForm, CaptureReader, CaptureRefusal, Setup, Stamped};
use linked_list_allocator::LocalHeap;
use nand_geometry::{Geometry, SMALL_CHIP};
use std::alloc::{Allocator, Global};
use std::process::Abort;
use std::test::Fail;
use trace_text::{is_printable, print};

// What a text shows that comes in pieces of this length.
fn read_in_pieces(
    alloc: Global,
    setup: &Setup<'_>,
    text: &[u8],
    length: usize,
) -> Result<Vec<Stamped>, CaptureRefusal> {
    if setup.targets > 4 {
        return Err(CaptureRefusal::OutOfMemory);
    }
    let mut reader = CaptureReader::new(alloc, setup)?;
    let mut stamped = Vec::new(alloc);
    for piece in text.chunks(length.max(1)) {
        reader.take(piece, &mut stamped)?;
    }
    let _ = reader.finish(&mut stamped)?;
    Ok(stamped)
}

// Its trace, or what is wrong with it.
fn shown(alloc: Global, form: CaptureForm, text: &str, length: usize) -> Result<String, Fail> {
    let setup = Setup {
        form,
        geometry: Geometry::of(SMALL_CHIP)?,
        targets: 1,
        mappings: &[],
        glitch: 0,
        late: None,
    };
    match read_in_pieces(alloc, &setup, text.as_bytes(), length) {
        Ok(stamped) => {
            let items = items_of(alloc, stamped.as_slice())?;
            if !is_printable(items.as_slice()) {
                return Err(Fail::from("an item that can't be printed"));
            }
            Ok(print(alloc, items.as_slice())?)
        }
        Err(CaptureRefusal::Fault(fault)) => words_of(alloc, fault),
        Err(CaptureRefusal::OutOfMemory) => Err(Fail::from("out of memory")),
    }
}

fn try_pieces(rt: &impl Abort, alloc: Global, text: &str, want: &str) -> Result<(), Fail> {
    for length in 1..=70 {
        let found = shown(alloc, CaptureForm::Dump, text, length)?;
        assert_eq!(rt; found.as_str(), want, "pieces of {length}");
    }
    let found = shown(alloc, CaptureForm::Dump, text, text.len())?;
    assert_eq!(rt; found.as_str(), want);
    Ok(())
}

// Words, vectors and their codes, and the header are cut anywhere.
#[test]
fn pieces_of_a_dump(rt: HostRuntime) -> Result<(), Fail> {
    try_pieces(&rt, rt.alloc(), STATUS, STATUS_TRACE)
}

// So are faults: of a header that goes on with a time, of a vector whose code is missing at the end, of a time that goes back.
#[test]
fn faults_in_pieces(rt: HostRuntime) -> Result<(), Fail> {
    for (changes, want) in [
        (
            [("$enddefinitions $end\n", ""), ("#60\n1c\n", "#60\n")].as_slice(),
            "G1 in line 11",
        ),
        ([("#60\n1c\n", "#60\nb1010")].as_slice(), "G4 in line 33"),
        ([("#60\n1c\n", "#50\n1c\n")].as_slice(), "G4 in line 32"),
    ] {
        let text = with_changes(rt.alloc(), STATUS, changes)?;
        try_pieces(&rt, rt.alloc(), text.as_str(), want)?;
    }
    Ok(())
}

// The header of the dump.
fn header_of(dump: &str) -> Result<&str, Fail> {
    match dump.split_once("#0") {
        Some((header, _)) => Ok(header),
        None => Err(Fail::from("a dump without a time")),
    }
}

// How many items a dump of so many commands shows, which is read by this memory: each item is forgotten once it is told.
fn count_commands<A: Allocator + Clone>(
    alloc: A,
    texts: Global,
    setup: &Setup<'_>,
    commands: u32,
) -> Result<usize, Fail> {
    if setup.targets > 4 {
        return Err(Fail::from("more than 4 targets"));
    }
    let mut reader = CaptureReader::new(alloc.clone()?, setup).map_err(refused)?;
    let mut stamped = Vec::new(alloc);
    let header = header_of(STATUS)?;
    reader
        .take(header.as_bytes(), &mut stamped)
        .map_err(refused)?;
    let mut count = 0usize;
    for number in 0..commands {
        let piece = format!(in texts;
            "#{number}00\n1w 1r 0c 1l 0a b1110000 d\n#{number}02\n0w\n#{number}10\n1w\n"
        )?;
        reader
            .take(piece.as_bytes(), &mut stamped)
            .map_err(refused)?;
        count = count.saturating_add(stamped.len());
        stamped.clear();
    }
    let _ = reader.finish(&mut stamped).map_err(refused)?;
    Ok(count.saturating_add(stamped.len()))
}

fn refused(_refusal: CaptureRefusal) -> Fail {
    Fail::from("the capture is refused")
}

// A dump of a quarter of a megabyte is read by 64 KB.
#[test]
fn memory_of_a_long_dump(rt: HostRuntime) -> Result<(), Fail> {
    let heap = LocalHeap::new(rt.alloc(), 65_536)?;
    let setup = Setup {
        form: CaptureForm::Dump,
        geometry: Geometry::of(SMALL_CHIP)?,
        targets: 1,
        mappings: &[],
        glitch: 0,
        late: None,
    };
    let count = count_commands(&heap, rt.alloc(), &setup, 5_000)?;
    assert_eq!(rt; count, 5_000);
    Ok(())
}

// How many items a CSV shows that has these names and so often these rows, and is read by this memory.
fn count_rows<A: Allocator + Clone>(
    alloc: A,
    setup: &Setup<'_>,
    names: &str,
    rows: &str,
    times: u32,
) -> Result<usize, Fail> {
    if setup.targets > 4 {
        return Err(Fail::from("more than 4 targets"));
    }
    let mut reader = CaptureReader::new(alloc.clone()?, setup).map_err(refused)?;
    let mut stamped = Vec::new(alloc);
    reader
        .take(names.as_bytes(), &mut stamped)
        .map_err(refused)?;
    let mut count = 0usize;
    for _ in 0..times {
        reader.take(rows.as_bytes(), &mut stamped).map_err(refused)?;
        count = count.saturating_add(stamped.len());
        stamped.clear();
    }
    let _ = reader.finish(&mut stamped).map_err(refused)?;
    Ok(count.saturating_add(stamped.len()))
}

// A CSV of a quarter of a megabyte is read by 64 KB: its rows are let go of once they are told.
#[test]
fn memory_of_a_long_table(rt: HostRuntime) -> Result<(), Fail> {
    let heap = LocalHeap::new(rt.alloc(), 65_536)?;
    let setup = Setup {
        form: CaptureForm::Table,
        geometry: Geometry::of(SMALL_CHIP)?,
        targets: 1,
        mappings: &[],
        glitch: 0,
        late: None,
    };
    let names = "CE#,CLE,ALE,WE#,RE#,DQ0,DQ1,DQ2,DQ3,DQ4,DQ5,DQ6,DQ7\n";
    let rows = "0,1,0,0,1,0,0,0,0,1,1,1,0\n0,1,0,1,1,0,0,0,0,1,1,1,0\n";
    let count = count_rows(&heap, &setup, names, rows, 5_000)?;
    assert_eq!(rt; count, 5_000);
    Ok(())
}

const TABLE: &str = "; a capture\r\n\r\n\
Time [s],CE#,CLE,ALE,WE#,RE#,DQ0,DQ1,DQ2,DQ3,DQ4,DQ5,DQ6,DQ7\r\n\
0.000000000,1,0,0,1,1,0,0,0,0,0,0,0,0\n\
; between\n\
0.000000010,0,1,0,0,1,0,0,0,0,1,1,1,0\n\
0.000000020,0,1,0,1,1,0,0,0,0,1,1,1,0\n";

fn try_table(rt: &impl Abort, alloc: Global, text: &str, want: &str) -> Result<(), Fail> {
    for length in 1..=40 {
        let found = shown(alloc, CaptureForm::Table, text, length)?;
        assert_eq!(rt; found.as_str(), want, "pieces of {length}");
    }
    let found = shown(alloc, CaptureForm::Table, text, text.len())?;
    assert_eq!(rt; found.as_str(), want);
    Ok(())
}

// Comments, names and rows are cut anywhere.
#[test]
fn pieces_of_a_table(rt: HostRuntime) -> Result<(), Fail> {
    try_table(&rt, rt.alloc(), TABLE, "0 C 70\n")
}

// So are faults: rows without names, a time that goes back, a row that ends too early, no row at all. The last row needs no line feed.
#[test]
fn faults_of_a_table_in_pieces(rt: HostRuntime) -> Result<(), Fail> {
    for (old, new, want) in [
        (
            "Time [s],CE#,CLE,ALE,WE#,RE#,DQ0,DQ1,DQ2,DQ3,DQ4,DQ5,DQ6,DQ7\r\n",
            "",
            "G9 in line 3",
        ),
        ("0.000000020,", "0.000000005,", "G9 in line 7"),
        (
            "0.000000020,0,1,0,1,1,0,0,0,0,1,1,1,0\n",
            "0.000000020,0",
            "G9 in line 7",
        ),
        (
            "0.000000020,0,1,0,1,1,0,0,0,0,1,1,1,0\n",
            "0.000000020,0,1,0,1,1,0,0,0,0,1,1,1,0",
            "0 C 70\n",
        ),
    ] {
        let text = with_changes(rt.alloc(), TABLE, &[(old, new)])?;
        try_table(&rt, rt.alloc(), text.as_str(), want)?;
    }
    try_table(&rt, rt.alloc(), "", "G9 in line 1")?;
    try_table(&rt, rt.alloc(), "; nothing\n\n", "G9 in line 1")
}
