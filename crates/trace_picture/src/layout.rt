//! Where lanes and strips stand.

use std::fmt;

/// How many points the names of the lanes take on the left.
pub(crate) const LEFT: u64 = 76;

// How wide a strip is without them, in tenths of a point.
const ROOM: u64 = 14_140;

// The height of the heading.
const TOP: u64 = 34;

// The height of a row of times, and of one with what is wrong.
const ROW: u64 = 14;

// The width of a character of the heading, in tenths of a point, and what is left free beside its text, in points.
const CHARACTER: u64 = 76;

const MARGIN: u64 = 20;

/// How wide the legend is, and how high its row, in points.
pub(crate) const LEGEND: u64 = 590;

const LEGEND_ROW: u64 = 20;

/// The height of a lane of a chip enable, in points, and that of a LUN.
pub(crate) const ENABLE_LANE: u64 = 30;

pub(crate) const LUN_LANE: u64 = 20;

/// A length in tenths of a point, which displays itself in points.
#[derive(Clone, Copy)]
pub(crate) struct Tenths(pub(crate) u64);

impl fmt::Display for Tenths {
    fn fmt<W: fmt::Write>(&self, f: &mut fmt::Formatter<W>) -> fmt::Result {
        let Tenths(length) = *self;
        write!(f, "{}.{}", length / 10, length % 10)
    }
}

/// What of a stretch lies in one strip: where it begins there, from the strip's left edge on, and how wide it is, in tenths of a point.
#[derive(Clone, Copy, Debug, PartialEq, Eq)]
pub(crate) struct Cut {
    pub(crate) strip: u64,
    pub(crate) x: u64,
    pub(crate) width: u64,
}

/// The strip in which a place lies.
pub(crate) fn strip_of(x: u64) -> u64 {
    x / ROOM
}

/// What of a stretch lies in this strip.
pub(crate) fn cut_at(from: u64, to: u64, strip: u64) -> Cut {
    let left = strip.saturating_mul(ROOM);
    let first = from.max(left);
    let last = to.min(left.saturating_add(ROOM));
    Cut {
        strip,
        x: first.saturating_sub(left),
        width: last.saturating_sub(first),
    }
}

/// A picture of so many targets and LUNs, and how long it is, in tenths of a point.
#[derive(Clone, Copy)]
pub(crate) struct Layout {
    pub(crate) targets: u8,
    pub(crate) luns: u8,
    pub(crate) length: u64,
    /// How many characters the heading has.
    pub(crate) heading: usize,
    /// Items have times, which stand in a row above the lanes.
    pub(crate) has_times: bool,
    /// A rule is broken: below the lanes of each target is a row for what is wrong.
    pub(crate) is_marked: bool,
}

// The height of a row that is there or isn't.
fn row_if(is_there: bool) -> u64 {
    if is_there { ROW } else { 0 }
}

impl Layout {
    /// How many strips it has.
    pub(crate) fn strips(self) -> u64 {
        strip_of(self.length.saturating_sub(1)).saturating_add(1)
    }

    // The height of the lanes of a target.
    fn target_height(self) -> u64 {
        (ENABLE_LANE + LUN_LANE * u64::from(self.luns)).saturating_add(row_if(self.is_marked))
    }

    /// How far the lanes stand below the upper edge of a strip, in points, but for a margin of 3.
    pub(crate) fn scale_height(self) -> u64 {
        row_if(self.has_times).saturating_add(13)
    }

    /// The height of a strip.
    pub(crate) fn strip_height(self) -> u64 {
        self.target_height()
            .saturating_mul(u64::from(self.targets))
            .saturating_add(self.scale_height().saturating_add(13))
    }

    /// The upper edge of a strip.
    pub(crate) fn strip_y(self, strip: u64) -> u64 {
        strip
            .saturating_mul(self.strip_height())
            .saturating_add(TOP)
    }

    /// The upper edge of the lane of a chip enable in a strip.
    pub(crate) fn enable_y(self, strip: u64, ce: u8) -> u64 {
        self.strip_y(strip)
            .saturating_add(self.scale_height().saturating_add(3))
            .saturating_add(self.target_height().saturating_mul(u64::from(ce)))
    }

    /// The upper edge of the lane of a LUN in a strip.
    pub(crate) fn lun_y(self, strip: u64, ce: u8, lun: u8) -> u64 {
        self.enable_y(strip, ce)
            .saturating_add(ENABLE_LANE + LUN_LANE * u64::from(lun))
    }

    /// How wide what stands in a strip is, in tenths of a point.
    pub(crate) fn used(self, strip: u64) -> u64 {
        cut_at(0, self.length, strip).width
    }

    /// The width of the whole picture, in points: the lanes, the heading and the legend have room.
    pub(crate) fn width(self) -> u64 {
        let heading = (self.heading as u64).saturating_mul(CHARACTER) / 10;
        (LEFT + self.length.min(ROOM) / 10 + 10)
            .max(heading.saturating_add(MARGIN))
            .max(LEGEND + MARGIN)
    }

    /// Where the legend stands.
    pub(crate) fn legend_y(self) -> u64 {
        self.strip_y(self.strips())
    }

    /// The height of the whole picture.
    pub(crate) fn height(self) -> u64 {
        self.legend_y().saturating_add(LEGEND_ROW)
    }
}
