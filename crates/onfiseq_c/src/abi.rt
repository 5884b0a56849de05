//! What the library says of its own layout, so that a test can compare a header with it.
ghost use Rattle.std.specs.Prelude.{◌≡◌};

use crate::bus::VERSION;
use crate::check::OnfiseqAnswer;
use crate::geometry::OnfiseqPage;
use bus_record::{OnfiseqBus, OnfiseqGeometry, OnfiseqItem, OnfiseqLook, OnfiseqPart, OnfiseqSpot};
use std::mem::size_of;

/// The version of these calls and records, and the size of each record in bytes.
#[repr(C)]
#[derive(Clone, Copy)]
pub struct OnfiseqAbi {
    pub version: u32,
    pub geometry: usize,
    pub page: usize,
    pub item: usize,
    pub answer: usize,
    pub bus: usize,
    pub look: usize,
    pub part: usize,
    pub spot: usize,
    pub sample: usize,
}

/// One of each record, with a number of its own in each field.
#[repr(C)]
#[derive(Clone, Copy)]
pub struct OnfiseqSample {
    pub geometry: OnfiseqGeometry,
    pub item: OnfiseqItem,
    pub answer: OnfiseqAnswer,
    pub look: OnfiseqLook,
    pub part: OnfiseqPart,
    pub spot: OnfiseqSpot,
}

/// The version of these calls and records, which counts up where one changes, and their sizes.
#[unsafe(no_mangle)]
pub extern "C" fn onfiseq_sizes() -> OnfiseqAbi
    ensures { result.version ≡ 3 }
{
    OnfiseqAbi {
        version: VERSION,
        geometry: size_of::<OnfiseqGeometry>(),
        page: size_of::<OnfiseqPage>(),
        item: size_of::<OnfiseqItem>(),
        answer: size_of::<OnfiseqAnswer>(),
        bus: size_of::<OnfiseqBus>(),
        look: size_of::<OnfiseqLook>(),
        part: size_of::<OnfiseqPart>(),
        spot: size_of::<OnfiseqSpot>(),
        sample: size_of::<OnfiseqSample>(),
    }
}

// Whether this flag is set.
fn is_set(flags: u32, flag: u32) -> bool {
    flags & flag != 0
}

fn sample_geometry() -> OnfiseqGeometry {
    OnfiseqGeometry {
        page_bytes: 1,
        spare_bytes: 2,
        pages: 3,
        blocks: 4,
        luns: 5,
        plane_bits: 6,
        enhanced: 7,
        multi_plane: 8,
        cache: 9,
        optional: 9 + 256,
    }
}

fn sample_look(flags: u32) -> OnfiseqLook {
    OnfiseqLook {
        is_there: is_set(flags, 0x1),
        latch: 10,
        busy: is_set(flags, 0x2),
        array_busy: is_set(flags, 0x4),
        caching: is_set(flags, 0x8),
        register: 11,
        has_column: is_set(flags, 0x10),
        programming: is_set(flags, 0x20),
        block: 12,
        page: 13,
        column: 14,
        queued: 15,
    }
}

/// One of each record with a number of its own in each field, and each flag as a bit of `flags` tells, in the order of the records and their fields. It is no
/// state of a channel: it is for tests of a header.
#[unsafe(no_mangle)]
pub extern "C" fn onfiseq_make_sample(flags: u32) -> OnfiseqSample
    ensures { result.item.byte ≡ 18 }
{
    OnfiseqSample {
        geometry: sample_geometry(),
        item: OnfiseqItem {
            ce: 16,
            kind: 17,
            byte: 18,
            fail: 19,
        },
        answer: OnfiseqAnswer {
            letter: 20,
            number: 21,
            at: 22,
        },
        look: sample_look(flags),
        part: OnfiseqPart {
            count: 23,
            kind: 24,
            bytes: [25, 26, 27, 28, 29, 30, 31],
        },
        spot: OnfiseqSpot {
            part: 32,
            cycle: 33,
        },
    }
}
