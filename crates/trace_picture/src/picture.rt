//! The picture: lanes, boxes, spans and what stands in them, as SVG.
ghost use Rattle.std.specs.Prelude.{◌≤◌};

use crate::broken::Broken;
use crate::label::Label;
use crate::layout::{Cut, ENABLE_LANE, LEFT, LUN_LANE, Layout, Tenths, cut_at, strip_of};
use crate::piece::Piece;
use crate::places::{ITEM, places};
use crate::span::{Failure, Span, Worker};
use crate::timeline::Timeline;
use crate::word::{Word, digits};
use nand_geometry::Geometry;
use onfi_cycle::Item;
use std::alloc::{AllocError, Allocator};
use std::fmt;

// The width of a character in a box, and what is left free beside its text, in tenths of a point.
const CHARACTER: u64 = 56;

const MARGIN: u64 = 30;

// How far apart the numbers of items stand at least, in tenths of a point.
const TICK: u64 = 520;

// How many broken rules have a line, and the room that the words beside it want, in tenths of a point.
const MOST_BROKEN: usize = 100;

const BROKEN_WORDS: u64 = 1_300;

const STYLE: &str =
    "<style>.n{font-size:12px;font-weight:bold;text-anchor:end;fill:#222}.l{font-size:11px;text-anchor:end;fill:#444}\
.t{font-size:9px;fill:#666}.w{font-size:9.5px;fill:#fff}.g{stroke:#ddd}.k{stroke:#eee}.busy{fill:#c98a10}.array{fill:#f1dca8}\
.f{font-size:11px;font-weight:bold;fill:#b01010}.r{stroke:#b01010;stroke-width:2}.h{font-size:13px;fill:#222}\
.read{fill:#2f6fb0}.program{fill:#8a4a20}.erase{fill:#6a2a80}.status{fill:#6b7280}.other{fill:#2f6f4f}.lone{fill:#b4bac4}</style>\n";

// What the colours say, in a line.
const LEGEND: &str =
    "<rect x=\"0\" class=\"read\" width=\"10\" height=\"9\"/><text x=\"14\" y=\"8\">read</text>\
<rect x=\"48\" class=\"program\" width=\"10\" height=\"9\"/><text x=\"62\" y=\"8\">program</text>\
<rect x=\"116\" class=\"erase\" width=\"10\" height=\"9\"/><text x=\"130\" y=\"8\">erase</text>\
<rect x=\"170\" class=\"status\" width=\"10\" height=\"9\"/><text x=\"184\" y=\"8\">poll</text>\
<rect x=\"216\" class=\"other\" width=\"10\" height=\"9\"/><text x=\"230\" y=\"8\">other</text>\
<rect x=\"268\" class=\"lone\" width=\"10\" height=\"9\"/><text x=\"282\" y=\"8\">not judged</text>\
<rect x=\"346\" class=\"busy\" width=\"10\" height=\"9\"/><text x=\"360\" y=\"8\">LUN busy</text>\
<rect x=\"418\" class=\"array\" width=\"10\" height=\"9\"/><text x=\"432\" y=\"8\">array works</text>\
<line x1=\"502\" x2=\"502\" y1=\"0\" y2=\"9\" class=\"r\"/><text x=\"508\" y=\"8\">breaks a rule</text></g>\n";

// What is drawn. Items without a time have none in `times`, which may be shorter than the items.
#[derive(Drop)]
struct Picture<'a, A: Allocator> {
    layout: Layout,
    several: bool,
    items: usize,
    times: &'a [Option<u64>],
    heading: String<A>,
    places: Vec<u64, A>,
    timeline: Timeline<A>,
    // The widest cut of each box, in which its words stand.
    widest: Vec<Cut, A>,
}

// Where an item begins.
fn place_of(places: &[u64], item: usize) -> u64 {
    match places.get(item) {
        None => match places.last() {
            None => 0,
            Some(end) => *end,
        },
        Some(place) => *place,
    }
}

// The wider of two cuts, the first where they are as wide.
fn wider(one: Cut, other: Cut) -> Cut {
    if other.width > one.width { other } else { one }
}

// The widest cut of a stretch.
fn widest_of(from: u64, to: u64) -> Cut {
    let mut widest = cut_at(from, to, strip_of(from));
    for strip in strip_of(from)..strip_of(to).saturating_add(1) {
        widest = wider(widest, cut_at(from, to, strip));
    }
    widest
}

// The widest cut of each box.
fn widest_cuts<A: Allocator>(
    alloc: A,
    count: usize,
    pieces: &[Piece],
    places: &[u64],
) -> Result<Vec<Cut, A>, AllocError> {
    let none = Cut {
        strip: 0,
        x: 0,
        width: 0,
    };
    let mut widest = Vec::from_elem(alloc, none, count)?;
    for piece in pieces {
        if piece.sequence < widest.len() {
            let cut = widest_of(place_of(places, piece.first), place_of(places, piece.end));
            widest[piece.sequence] = wider(widest[piece.sequence], cut);
        }
    }
    Ok(widest)
}

// How many of the words have room in so much width, in tenths of a point.
fn fitting(words: [Option<Word>; 5], room: u64) -> usize {
    let mut used = 0u64;
    let mut fit = 0usize;
    for (number, word) in words.iter().enumerate() {
        if let Some(word) = word {
            used = used.saturating_add(
                (word.width() as u64)
                    .saturating_add(1)
                    .saturating_mul(CHARACTER),
            );
            if used <= room.saturating_add(CHARACTER) {
                fit = number.saturating_add(1);
            }
        }
    }
    fit
}

// The first of the words, with spaces between.
#[derive(Clone, Copy)]
struct Words {
    words: [Option<Word>; 5],
    count: usize,
}

impl fmt::Display for Words {
    fn fmt<W: fmt::Write>(&self, f: &mut fmt::Formatter<W>) -> fmt::Result {
        let mut is_first = true;
        for (number, word) in self.words.iter().enumerate() {
            if number < self.count
                && let Some(word) = word
            {
                if !is_first {
                    f.write_str(" ")?;
                }
                is_first = false;
                write!(f, "{word}")?;
            }
        }
        Ok(())
    }
}

// The words of a label, all of them.
fn all_words(label: Label, several: bool) -> Words {
    Words {
        words: label.words(several),
        count: 5,
    }
}

// The words of a label that have room in so much width: those of a poll are short where they haven't.
fn fitting_words(label: Label, several: bool, room: u64) -> Words {
    let words = label.words(several);
    let is_poll = matches!(label, Label::Status { .. });
    let words = if is_poll && fitting(words, room) < 2 {
        label.short_words(several)
    } else {
        words
    };
    Words {
        words,
        count: fitting(words, room),
    }
}

// What stands above the lanes: how many items there are, and what is wrong with them.
#[derive(Drop)]
struct Heading<'a> {
    items: usize,
    broken: &'a [Broken],
}

impl fmt::Display for Heading<'_> {
    fn fmt<W: fmt::Write>(&self, f: &mut fmt::Formatter<W>) -> fmt::Result {
        write!(f, "{} items, ", self.items)?;
        match self.broken {
            [] => f.write_str("legal"),
            [broken] => write!(f, "{broken}"),
            [broken, more @ ..] => write!(f, "{broken}, and {} more", more.len()),
        }
    }
}

// The time of an item, where it has one.
fn time_of(times: &[Option<u64>], item: usize) -> Option<u64> {
    match times.get(item) {
        None => None,
        Some(time) => *time,
    }
}

// How wide the number of an item and its time are, in tenths of a point.
fn tick_width(item: usize, time: Option<u64>) -> u64 {
    let number = digits(item as u64);
    let characters = match time {
        None => number,
        Some(time) => digits(time).saturating_add(1).max(number),
    };
    (characters as u64).saturating_mul(CHARACTER)
}

impl<A: Allocator> Picture<'_, A> {
    // The heading.
    fn write_heading<W: fmt::Write>(&self, f: &mut fmt::Formatter<W>) -> fmt::Result {
        let (width, height) = (self.layout.width(), self.layout.height());
        write!(
            f,
            "<svg xmlns=\"http://www.w3.org/2000/svg\" width=\"{width}\" height=\"{height}\" viewBox=\"0 0 {width} {height}\" font-family=\"sans-serif\">\n"
        )?;
        f.write_str(STYLE)?;
        write!(
            f,
            "<rect width=\"100%\" height=\"100%\" fill=\"#fff\"/>\n<text x=\"10\" y=\"18\" class=\"h\">{}</text>\n",
            self.heading.as_str()
        )
    }

    // What the numbers above a strip are.
    fn write_scale<W: fmt::Write>(&self, f: &mut fmt::Formatter<W>, strip: u64) -> fmt::Result {
        let y = self.layout.strip_y(strip).saturating_add(10);
        write!(
            f,
            "<text x=\"{}\" y=\"{y}\" class=\"t\" text-anchor=\"end\">item</text>\n",
            LEFT - 8
        )?;
        if self.layout.has_times {
            write!(
                f,
                "<text x=\"{}\" y=\"{}\" class=\"t\" text-anchor=\"end\">time</text>\n",
                LEFT - 8,
                y.saturating_add(11)
            )?;
        }
        Ok(())
    }

    // The name of a lane, and the line along it.
    fn write_lane<W: fmt::Write>(
        &self,
        f: &mut fmt::Formatter<W>,
        strip: u64,
        ce: u8,
    ) -> fmt::Result {
        let y = self.layout.enable_y(strip, ce);
        let end = Tenths(self.layout.used(strip).saturating_add(LEFT * 10));
        write!(
            f,
            "<text x=\"{}\" y=\"{}\" class=\"n\">CE{ce}</text>\n<line x1=\"{LEFT}\" x2=\"{end}\" y1=\"{}\" y2=\"{}\" class=\"g\"/>\n",
            LEFT - 8,
            y.saturating_add(19),
            y.saturating_add(15),
            y.saturating_add(15)
        )?;
        for lun in 0..self.layout.luns {
            let y = self.layout.lun_y(strip, ce, lun);
            write!(
                f,
                "<text x=\"{}\" y=\"{}\" class=\"l\">LUN {lun}</text>\n<line x1=\"{LEFT}\" x2=\"{end}\" y1=\"{}\" y2=\"{}\" class=\"g\"/>\n",
                LEFT - 8,
                y.saturating_add(11),
                y.saturating_add(7),
                y.saturating_add(7)
            )?;
        }
        Ok(())
    }

    // The lanes of all strips.
    fn write_lanes<W: fmt::Write>(&self, f: &mut fmt::Formatter<W>) -> fmt::Result {
        for strip in 0..self.layout.strips() {
            self.write_scale(f, strip)?;
            for ce in 0..self.layout.targets {
                self.write_lane(f, strip, ce)?;
            }
        }
        Ok(())
    }

    // The number of an item, its time, and the line below them.
    fn write_tick<W: fmt::Write>(
        &self,
        f: &mut fmt::Formatter<W>,
        item: usize,
        time: Option<u64>,
        x: u64,
    ) -> fmt::Result {
        let strip = strip_of(x);
        let left = Tenths(cut_at(x, x, strip).x.saturating_add(LEFT * 10));
        let y = self.layout.strip_y(strip);
        write!(
            f,
            "<text x=\"{left}\" y=\"{}\" class=\"t\">{item}</text>\n<line x1=\"{left}\" x2=\"{left}\" y1=\"{}\" y2=\"{}\" class=\"k\"/>\n",
            y.saturating_add(10),
            y.saturating_add(self.layout.scale_height()),
            y.saturating_add(self.layout.strip_height().saturating_sub(12))
        )?;
        if let Some(time) = time {
            write!(
                f,
                "<text x=\"{left}\" y=\"{}\" class=\"t\">@{time}</text>\n",
                y.saturating_add(21)
            )?;
        }
        Ok(())
    }

    // Words of this width that begin at a place have room in its strip.
    fn has_room(&self, x: u64, wide: u64) -> bool {
        let left = cut_at(x, x, strip_of(x)).x.saturating_add(LEFT * 10);
        left.saturating_add(wide) <= self.layout.width().saturating_mul(10)
    }

    // The numbers of items, so many that they don't stand in each other's way.
    fn write_ticks<W: fmt::Write>(&self, f: &mut fmt::Formatter<W>) -> fmt::Result {
        let mut next = 0u64;
        for (item, place) in self.places.iter().enumerate() {
            let time = time_of(self.times, item);
            let wide = tick_width(item, time);
            let is_told = item % 5 == 0 || item == self.items;
            if is_told && *place >= next && self.has_room(*place, wide) {
                self.write_tick(f, item, time, *place)?;
                next = place.saturating_add(wide.saturating_add(CHARACTER).max(TICK));
            }
        }
        Ok(())
    }

    // The time in which a LUN or its array works.
    fn write_span<W: fmt::Write>(&self, f: &mut fmt::Formatter<W>, span: &Span) -> fmt::Result {
        let Span {
            ce,
            lun,
            worker,
            from,
            end,
        } = *span;
        let from = place_of(&self.places, from.saturating_add(1));
        let to = match end {
            None => self.layout.length,
            Some(item) => place_of(&self.places, item),
        };
        let to = to.max(from.saturating_add(20));
        let class = match worker {
            Worker::Lun => "busy",
            Worker::Array => "array",
        };
        for strip in strip_of(from)..strip_of(to).saturating_add(1) {
            let cut = cut_at(from, to, strip);
            if cut.width > 0 {
                let (x, width) = (Tenths(cut.x.saturating_add(LEFT * 10)), Tenths(cut.width));
                let y = self.layout.lun_y(strip, ce, lun);
                write!(
                    f,
                    "<rect x=\"{x}\" y=\"{y}\" width=\"{width}\" height=\"14\" class=\"{class}\"/>\n"
                )?;
            }
        }
        Ok(())
    }

    // The time in which arrays work, and then that of LUNs.
    fn write_spans<W: fmt::Write>(&self, f: &mut fmt::Formatter<W>) -> fmt::Result {
        for worker in [Worker::Array, Worker::Lun] {
            for span in &self.timeline.spans {
                if span.worker == worker {
                    self.write_span(f, span)?;
                }
            }
        }
        Ok(())
    }

    // A failure.
    fn write_failure<W: fmt::Write>(
        &self,
        f: &mut fmt::Formatter<W>,
        failure: &Failure,
    ) -> fmt::Result {
        let x = place_of(&self.places, failure.item);
        let strip = strip_of(x);
        write!(
            f,
            "<text x=\"{}\" y=\"{}\" class=\"f\">fail</text>\n",
            Tenths(cut_at(x, x, strip).x.saturating_add(LEFT * 10 + 30)),
            self.layout
                .lun_y(strip, failure.ce, failure.lun)
                .saturating_add(11)
        )
    }

    // A piece of a box.
    fn write_piece<W: fmt::Write>(&self, f: &mut fmt::Formatter<W>, piece: &Piece) -> fmt::Result {
        let Some(sequence) = self.timeline.sequences.get(piece.sequence) else {
            return Ok(());
        };
        let (from, to) = (
            place_of(&self.places, piece.first),
            place_of(&self.places, piece.end),
        );
        let words = all_words(sequence.label, self.several);
        for strip in strip_of(from)..strip_of(to).saturating_add(1) {
            let cut = cut_at(from, to, strip);
            if cut.width > 0 {
                write!(
                    f,
                    "<rect x=\"{}\" y=\"{}\" width=\"{}\" height=\"22\" rx=\"2\" class=\"{}\"><title>items {} to {}: {words}</title></rect>\n",
                    Tenths(cut.x.saturating_add(LEFT * 10 + 5)),
                    self.layout.enable_y(strip, sequence.ce).saturating_add(4),
                    Tenths(cut.width.saturating_sub(10).max(10)),
                    sequence.label.class(),
                    piece.first,
                    piece.end.saturating_sub(1)
                )?;
            }
        }
        Ok(())
    }

    // The words of a box, as many as have room.
    fn write_words<W: fmt::Write>(
        &self,
        f: &mut fmt::Formatter<W>,
        number: usize,
        cut: &Cut,
    ) -> fmt::Result {
        let Some(sequence) = self.timeline.sequences.get(number) else {
            return Ok(());
        };
        let room = cut.width.saturating_sub(MARGIN);
        let words = fitting_words(sequence.label, self.several, room);
        if words.count == 0 {
            return Ok(());
        }
        write!(
            f,
            "<text x=\"{}\" y=\"{}\" class=\"w\">{words}</text>\n",
            Tenths(cut.x.saturating_add(LEFT * 10 + 30)),
            self.layout
                .enable_y(cut.strip, sequence.ce)
                .saturating_add(19)
        )
    }

    // Boxes and what stands in them.
    fn write_boxes<W: fmt::Write>(&self, f: &mut fmt::Formatter<W>) -> fmt::Result {
        for piece in &self.timeline.pieces {
            self.write_piece(f, piece)?;
        }
        for (number, cut) in self.widest.iter().enumerate() {
            self.write_words(f, number, cut)?;
        }
        Ok(())
    }

    // Where a rule is broken: a line along the lanes of its target.
    fn write_broken<W: fmt::Write>(
        &self,
        f: &mut fmt::Formatter<W>,
        broken: Broken,
    ) -> fmt::Result {
        let x = place_of(&self.places, broken.item);
        let strip = strip_of(x);
        let left = Tenths(cut_at(x, x, strip).x.saturating_add(LEFT * 10));
        let top = self.layout.enable_y(strip, self.lane_of(broken));
        write!(
            f,
            "<line x1=\"{left}\" x2=\"{left}\" y1=\"{}\" y2=\"{}\" class=\"r\"/>\n",
            top.saturating_sub(2),
            self.marks_y(strip, broken).saturating_sub(10)
        )
    }

    // The chip enable whose lanes show what is wrong: the last, where its own has none.
    fn lane_of(&self, broken: Broken) -> u8 {
        broken.ce.min(self.layout.targets.saturating_sub(1))
    }

    // Where the words for what is wrong stand in a strip: below the lanes of its target.
    fn marks_y(&self, strip: u64, broken: Broken) -> u64 {
        self.layout
            .enable_y(strip, self.lane_of(broken))
            .saturating_add(ENABLE_LANE + LUN_LANE * u64::from(self.layout.luns) + 8)
    }

    // Which rule is broken, and where: to the right of its line, or to the left where there is no room.
    fn write_rule<W: fmt::Write>(&self, f: &mut fmt::Formatter<W>, broken: Broken) -> fmt::Result {
        let x = place_of(&self.places, broken.item);
        let strip = strip_of(x);
        let left = cut_at(x, x, strip).x.saturating_add(LEFT * 10);
        let (place, anchor) = if self.has_room(x, BROKEN_WORDS) {
            (left.saturating_add(40), "start")
        } else {
            (left.saturating_sub(40), "end")
        };
        write!(
            f,
            "<text x=\"{}\" y=\"{}\" class=\"f\" text-anchor=\"{anchor}\">{} at item {}</text>\n",
            Tenths(place),
            self.marks_y(strip, broken),
            broken.rule.code(),
            broken.item
        )
    }

    // Where rules are broken, and which, so many that their words don't stand in each other's way.
    fn write_all_broken<W: fmt::Write>(&self, f: &mut fmt::Formatter<W>) -> fmt::Result {
        let mut next = [0u64; 4];
        for broken in self.timeline.broken.iter().take(MOST_BROKEN) {
            self.write_broken(f, *broken)?;
            let lane = usize::from(self.lane_of(*broken));
            let x = place_of(&self.places, broken.item);
            if lane < 4 && x >= next[lane] {
                self.write_rule(f, *broken)?;
                next[lane] = x.saturating_add(BROKEN_WORDS);
            }
        }
        Ok(())
    }
}

impl<A: Allocator> fmt::Display for Picture<'_, A> {
    fn fmt<W: fmt::Write>(&self, f: &mut fmt::Formatter<W>) -> fmt::Result {
        self.write_heading(f)?;
        self.write_lanes(f)?;
        self.write_ticks(f)?;
        self.write_spans(f)?;
        for failure in &self.timeline.failures {
            self.write_failure(f, failure)?;
        }
        self.write_boxes(f)?;
        self.write_all_broken(f)?;
        write!(
            f,
            "<g class=\"t\" transform=\"translate(10 {})\">{LEGEND}</svg>\n",
            self.layout.legend_y()
        )
    }
}

/// The picture of a trace on a channel of so many targets, 4 at most, of this geometry: an SVG of its own, with no script, and no font but the browser's.
/// An item that breaks a rule has a red line, up to the hundredth; it is grey, and so is what goes on with it up to the next opener of its target. `AllocError` is answered only where memory was refused.
pub fn draw<A: Allocator + Clone>(
    alloc: A,
    geometry: &Geometry,
    targets: u8,
    items: &[Item],
) -> Result<String<A>, AllocError>
    requires { targets ≤ 4 }
{
    draw_timed(alloc, geometry, targets, items, &[])
}

/// The picture of [`draw`] with the times of the items: the time of an item stands at its place in `times`, None where it has none. They may be fewer than the items.
pub fn draw_timed<A: Allocator + Clone>(
    alloc: A,
    geometry: &Geometry,
    targets: u8,
    items: &[Item],
    times: &[Option<u64>],
) -> Result<String<A>, AllocError>
    requires { targets ≤ 4 }
{
    let places = places(alloc.clone()?, items)?;
    let timeline = Timeline::of(alloc.clone()?, geometry, targets, items)?;
    let widest = widest_cuts(
        alloc.clone()?,
        timeline.sequences.len(),
        &timeline.pieces,
        &places,
    )?;
    let luns = geometry.parts().luns;
    let length = place_of(&places, items.len());
    let heading = String::format(
        alloc.clone()?,
        &Heading {
            items: items.len(),
            broken: timeline.broken.as_slice(),
        },
    )?;
    let is_marked = !timeline.broken.is_empty();
    let picture = Picture {
        layout: Layout {
            targets,
            luns,
            length: length.max(ITEM),
            heading: heading.len(),
            has_times: times.iter().any(|time| time.is_some()),
            is_marked,
        },
        several: luns > 1,
        items: items.len(),
        times,
        heading,
        places,
        timeline,
        widest,
    };
    String::format(alloc, &picture)
}
