use nand_geometry::{Geometry, Optional, Parts, RowParts, SMALL_CHIP};
use onfi_cycle::{Command, Forbidden};
use std::alloc::Global;
use std::test::Fail;
use trace_picture::{Broken, Failure, Label, Piece, Sequence, Shown, Span, Timeline, Worker};
use trace_text::parse;

// Two LUNs of 8 blocks of 4 pages, in two planes.
const TWO_LUNS: Parts = Parts {
    luns: 2,
    plane_bits: 1,
    enhanced: true,
    multi_plane: true,
    ..SMALL_CHIP
};

// One LUN in two planes, in the wider profile with Change Read Column Enhanced.
const SELECTING: Parts = Parts {
    plane_bits: 1,
    optional: Optional(0x8040),
    ..SMALL_CHIP
};

// A read of page 0 of block 0, and a byte of it behind a 06h, whose row names block 2 of the same plane.
const SELECTED: &str =
    "0 C 00\n0 A 00\n0 A 00\n0 A 00\n0 A 00\n0 A 00\n0 C 30\n0 R 0 0\n0 C 06\n0 A 05\n0 A 00\n0 A 08\n0 A 00\n0 A 00\n0 C e0\n0 O ff\n";

// An erase of block 1, polled before and after it is ready.
const ERASE: &str =
    "0 C 60\n0 A 04\n0 A 00\n0 A 00\n0 C d0\n0 C 70\n0 O 80\n0 R 0 0\n0 C 70\n0 O e0\n";

// A failed erase of block 0 of LUN 1 on target 1, whose sequence a command on target 0 interrupts.
const INTERRUPTED: &str = "1 C 60\n1 A 20\n0 C 60\n1 A 00\n1 A 00\n1 C d0\n1 R 1 1\n";

// A read of page 2 of block 1, four bytes of it from column 3 on, and an input, which breaks F11; two cycles after it.
const BROKEN: &str =
    "0 C 00\n0 A 03\n0 A 00\n0 A 06\n0 A 00\n0 A 00\n0 C 30\n0 R 0 0\n0 C 00\n0 O ff\n0 O ff\n0 O ff\n0 O ff\n0 I 00\n0 C ff\n0 C ff\n";

// The timeline of the trace of this text, on so many targets.
fn timeline_of(
    alloc: Global,
    parts: Parts,
    targets: u8,
    text: &str,
) -> Result<Timeline<Global>, Fail> {
    if targets > 4 {
        return Err(Fail::from("more than 4 targets"));
    }
    let geometry = Geometry::of(parts)?;
    let items = parse(alloc, text)?;
    Ok(Timeline::of(alloc, &geometry, targets, &items)?)
}

const fn piece(sequence: usize, first: usize, end: usize) -> Piece {
    Piece {
        sequence,
        first,
        end,
    }
}

const fn sequence(opener: Command, row: Option<RowParts>) -> Label {
    Label::Sequence {
        opener,
        row,
        column: None,
        inputs: 0,
    }
}

// A status box has what its last poll showed.
#[test]
fn the_boxes_of_an_erase(rt: HostRuntime) -> Result<(), Fail> {
    let timeline = timeline_of(rt.alloc(), SMALL_CHIP, 1, ERASE)?;
    let row = RowParts {
        lun: 0,
        block: 1,
        page: 0,
    };
    let labels = [
        sequence(Command::BlockErase, Some(row)),
        Label::Status {
            lun: None,
            shown: Some(Shown::Busy),
        },
        Label::Status {
            lun: None,
            shown: Some(Shown::Ready),
        },
    ];
    assert_eq!(rt; timeline.sequences.len(), 3);
    for (box_of, label) in timeline.sequences.iter().zip(labels) {
        assert_eq!(rt; *box_of, Sequence { ce: 0, label });
    }
    assert_eq!(rt;
        timeline.pieces.as_slice(),
        &[piece(0, 0, 5), piece(1, 5, 7), piece(2, 8, 10)][..]
    );
    Ok(())
}

// The LUN works from behind the item that started it to its ready.
#[test]
fn the_time_of_an_erase(rt: HostRuntime) -> Result<(), Fail> {
    let timeline = timeline_of(rt.alloc(), SMALL_CHIP, 1, ERASE)?;
    let busy = Span {
        ce: 0,
        lun: 0,
        worker: Worker::Lun,
        from: 4,
        end: Some(7),
    };
    assert_eq!(rt; timeline.spans.as_slice(), &[busy][..]);
    assert_eq!(rt; timeline.failures.len(), 0);
    assert_eq!(rt; timeline.broken.len(), 0);
    Ok(())
}

// The box of a 06h has its row in place of its column.
#[test]
fn a_column_of_a_plane(rt: HostRuntime) -> Result<(), Fail> {
    let timeline = timeline_of(rt.alloc(), SELECTING, 1, SELECTED)?;
    let row = RowParts {
        lun: 0,
        block: 2,
        page: 0,
    };
    assert_eq!(rt; timeline.broken.len(), 0);
    assert_eq!(rt; timeline.sequences.len(), 3);
    assert_eq!(rt;
        timeline.sequences[1].label,
        sequence(Command::ChangeReadColumnEnhanced, Some(row))
    );
    assert_eq!(rt;
        timeline.pieces.as_slice(),
        &[piece(0, 0, 7), piece(1, 8, 15), piece(2, 15, 16)][..]
    );
    Ok(())
}

// A sequence that another target interrupts is one box in two pieces.
#[test]
fn an_interrupted_sequence(rt: HostRuntime) -> Result<(), Fail> {
    let timeline = timeline_of(rt.alloc(), TWO_LUNS, 2, INTERRUPTED)?;
    assert_eq!(rt;
        timeline.pieces.as_slice(),
        &[piece(0, 0, 2), piece(1, 2, 3), piece(0, 3, 6)][..]
    );
    assert_eq!(rt;
        timeline.failures.as_slice(),
        &[Failure {
            ce: 1,
            lun: 1,
            item: 6
        }][..]
    );
    Ok(())
}

// Outputs have a box of their own, and so has what breaks a rule; the next opener begins another.
#[test]
fn outputs_and_a_broken_rule(rt: HostRuntime) -> Result<(), Fail> {
    let timeline = timeline_of(rt.alloc(), SMALL_CHIP, 1, BROKEN)?;
    let broken = Broken {
        ce: 0,
        item: 13,
        rule: Forbidden::InputMisplaced,
    };
    assert_eq!(rt; timeline.broken.as_slice(), &[broken][..]);
    assert_eq!(rt;
        timeline.pieces.as_slice(),
        &[
            piece(0, 0, 7),
            piece(1, 8, 9),
            piece(2, 9, 13),
            piece(3, 13, 14),
            piece(4, 14, 15),
            piece(5, 15, 16)
        ][..]
    );
    assert_eq!(rt;
        timeline.sequences.get(3),
        Some(&Sequence {
            ce: 0,
            label: Label::Unjudged
        })
    );
    Ok(())
}
