//! What comes too soon or takes too long, in words.

use crate::nanoseconds::{Microseconds, Nanoseconds};
use crate::places::Places;
use onfi_cycle::{Item, Kind};
use std::fmt;
use trace_timing::{TimedItem, TimingFault, Timings, Violation};

/// What comes too soon or takes too long, with what is said of it: the item before it on its target, and how long its time is made up.
#[derive(Clone, Copy)]
pub struct LateItem {
    /// Which item comes too soon, or shows that work takes too long.
    pub violation: Violation,
    // The kind of the cycle before it on its target.
    before: Option<Kind>,
    // The item before it that has a time.
    timed_before: Option<usize>,
    // What is in what is wanted besides.
    besides: Option<Besides>,
}

// What a time is longer by, in femtoseconds: a pulse, or the time up to the beginning of work.
#[derive(Clone, Copy)]
struct Besides {
    name: &'static str,
    len: u64,
}

// The kind of a cycle of this target.
fn kind_on(item: Item, target: u8) -> Option<Kind> {
    match item {
        Item::Cyc(cycle) if cycle.ce == target => Some(cycle.kind),
        Item::Cyc(_) | Item::Rdy { .. } | Item::Ard { .. } => None,
    }
}

// The kind of the last cycle of a target among these items.
fn last_kind(items: &[TimedItem], target: u8) -> Option<Kind> {
    for timed in items.iter().rev() {
        if let Some(kind) = kind_on(timed.item, target) {
            return Some(kind);
        }
    }
    None
}

// The place of the last of these items that has a time.
fn last_timed(items: &[TimedItem]) -> Option<usize> {
    items.iter().rposition(|timed| timed.time.is_some())
}

// What is in what is wanted of an item of this kind.
fn besides_of(timings: Timings, fault: TimingFault, kind: Option<Kind>) -> Option<Besides> {
    let (name, len) = match (fault, kind) {
        (TimingFault::ToOutput | TimingFault::ReadyToOutput, _)
        | (TimingFault::ColumnChange, Some(Kind::Dout)) => ("tRP", timings.t_rp),
        (TimingFault::OutputToCommand, _) => ("tWP", timings.t_wp),
        (TimingFault::TooLong(_), _) => ("tWB", timings.t_wb),
        (
            TimingFault::NoTimes
            | TimingFault::WriteCycle
            | TimingFault::ReadCycle
            | TimingFault::AddressToInput
            | TimingFault::ColumnChange
            | TimingFault::ToBusy
            | TimingFault::Backwards,
            _,
        ) => return None,
    };
    Some(Besides { name, len })
}

impl LateItem {
    /// What is said of a violation of a trace, by these least times.
    pub(crate) fn of(violation: Violation, items: &[TimedItem], timings: Timings) -> LateItem {
        let (front, rest) = items.split_at(violation.item.min(items.len()));
        let (before, kind) = match rest.first() {
            None => (None, None),
            Some(timed) => {
                let target = timed.item.target();
                (last_kind(front, target), kind_on(timed.item, target))
            }
        };
        LateItem {
            violation,
            before,
            timed_before: last_timed(front),
            besides: besides_of(timings, violation.fault, kind),
        }
    }

    /// The same, where items have these places.
    pub(crate) fn at(self, places: Places<'_>) -> LateItem {
        let Violation { item, .. } = self.violation;
        LateItem {
            violation: Violation {
                item: places.of(item),
                ..self.violation
            },
            timed_before: match self.timed_before {
                Some(before) => Some(places.of(before)),
                None => None,
            },
            ..self
        }
    }

    /// The time that isn't kept, and how long it is, in femtoseconds: seen, and wanted. None of what is no distance.
    pub fn distance(self) -> Option<(&'static str, u64, u64)> {
        let Violation {
            fault,
            seen,
            wanted,
            ..
        } = self.violation;
        Some((fault.timing()?, seen, wanted))
    }

    // What comes before it.
    fn since(self) -> &'static str {
        match (self.violation.fault, self.before) {
            (TimingFault::AddressToInput, _) => "the last address",
            (TimingFault::ColumnChange, Some(Kind::Adr)) => "the last address of 85h",
            (TimingFault::ColumnChange, _) => "E0h",
            (TimingFault::OutputToCommand, _) => "the last output",
            (TimingFault::ReadyToOutput, _) => "the ready",
            (TimingFault::ToBusy, Some(Kind::Adr)) => "the address that begins work",
            (TimingFault::ToBusy, _) => "the command that begins work",
            (_, Some(Kind::Cmd)) => "the command before",
            (_, Some(Kind::Adr)) => "the address before",
            (_, Some(Kind::Din)) => "the input before",
            (_, Some(Kind::Dout)) => "the output before",
            (_, None) => "the cycle before",
        }
    }

    // How long a time is to be.
    fn write_wanted<W: fmt::Write>(
        self,
        f: &mut fmt::Formatter<W>,
        timing: &str,
        wanted: u64,
    ) -> fmt::Result {
        match self.besides {
            None => write!(f, "{timing} wants {}", Nanoseconds(wanted)),
            Some(Besides { name, len }) => write!(
                f,
                "{timing} and {name} want {} + {}",
                Nanoseconds(wanted.saturating_sub(len)),
                Nanoseconds(len)
            ),
        }
    }
}

impl LateItem {
    // How long a LUN was seen busy, and how long it may be.
    fn write_busy<W: fmt::Write>(
        self,
        f: &mut fmt::Formatter<W>,
        timing: &str,
        seen: u64,
        wanted: u64,
    ) -> fmt::Result {
        let len = match self.besides {
            None => 0,
            Some(besides) => besides.len,
        };
        write!(
            f,
            "busy for {} us, {timing} and tWB allow {} + {}",
            Microseconds(seen),
            Microseconds(wanted.saturating_sub(len)),
            Microseconds(len)
        )
    }

    // How long a distance is, and how long it is to be.
    fn write_distance<W: fmt::Write>(
        self,
        f: &mut fmt::Formatter<W>,
        timing: &str,
        seen: u64,
        wanted: u64,
    ) -> fmt::Result {
        if matches!(self.violation.fault, TimingFault::TooLong(_)) {
            return self.write_busy(f, timing, seen, wanted);
        }
        write!(f, "{} ns after {}, ", Nanoseconds(seen), self.since())?;
        self.write_wanted(f, timing, wanted)
    }
}

impl fmt::Display for LateItem {
    fn fmt<W: fmt::Write>(&self, f: &mut fmt::Formatter<W>) -> fmt::Result {
        let code = self.violation.fault.code();
        match (self.distance(), self.timed_before) {
            (Some((timing, seen, wanted)), _) => {
                self.write_distance(f, timing, seen, wanted)?;
            }
            (None, Some(before)) if self.violation.fault == TimingFault::Backwards => {
                write!(f, "the time is before that of item {before}")?;
            }
            (None, _) => f.write_str(
                "the trace has no two times to judge: `capture --times` writes them",
            )?,
        }
        write!(f, " ({code})")
    }
}
