//! How many operations there are, and how long they took.

use crate::busy::{Busy, End};
use crate::listed_trace::ListedTrace;
use onfi_cycle::Item;
use std::alloc::{AllocError, Global};
use trace_ops::{Operation, OperationName};

/// What there is of the operations of one name.
#[derive(Clone, Copy)]
pub(crate) struct KindSummary {
    name: OperationName,
    count: u64,
    failed: u64,
    not_shown: u64,
    abandoned: u64,
    works_on: u64,
    unended: u64,
    not_done: u64,
    inputs: u64,
    outputs: u64,
    // Of those with a busy time: how many, whether one is a range, and the longest readings.
    timed: u64,
    is_range: bool,
    least: u64,
    most: u64,
    sum: u128,
}

/// How many operations there are.
#[derive(Drop)]
pub(crate) struct Summary {
    count: u64,
    polls: u64,
    kinds: Vec<KindSummary>,
}

// One more.
fn count(number: &mut u64) {
    *number = number.saturating_add(1);
}

impl KindSummary {
    fn nothing(name: OperationName) -> KindSummary {
        KindSummary {
            name,
            count: 0,
            failed: 0,
            not_shown: 0,
            abandoned: 0,
            works_on: 0,
            unended: 0,
            not_done: 0,
            inputs: 0,
            outputs: 0,
            timed: 0,
            is_range: false,
            least: u64::MAX,
            most: 0,
            sum: 0,
        }
    }

    // Counts how one ended.
    fn count_end(&mut self, end: Option<End>) {
        match end {
            None | Some(End::Ready) => {}
            Some(End::Failed) => count(&mut self.failed),
            Some(End::NotShown) => count(&mut self.not_shown),
            Some(End::Abandoned(_)) => count(&mut self.abandoned),
            Some(End::WorksOn) => count(&mut self.works_on),
            Some(End::Unended) => count(&mut self.unended),
            Some(End::NotDone) => count(&mut self.not_done),
        }
    }

    // Counts how long one was busy.
    fn count_busy(&mut self, busy: Option<Busy>) {
        if let Some(Busy { least, most }) = busy {
            count(&mut self.timed);
            self.is_range = self.is_range || least != most;
            self.least = self.least.min(most);
            self.most = self.most.max(most);
            self.sum = self.sum.saturating_add(u128::from(most));
        }
    }

    fn take(&mut self, operation: Operation, busy: Option<Busy>) {
        count(&mut self.count);
        self.count_end(End::of(operation));
        self.inputs = self.inputs.saturating_add(operation.inputs);
        self.outputs = self.outputs.saturating_add(operation.outputs);
        self.count_busy(busy);
    }

    // Adds how long they were busy.
    fn push_busy(&self, text: &mut String) -> Result<(), AllocError> {
        if self.timed == 0 {
            return Ok(());
        }
        let words = if self.is_range {
            "busy at most,"
        } else {
            "busy"
        };
        write!(
            text,
            "; {words} least {}, mean {}, most {}",
            self.least,
            self.sum / u128::from(self.timed),
            self.most
        )
    }

    // Adds their line.
    fn push_line(&self, text: &mut String) -> Result<(), AllocError> {
        write!(text, "{} {}", self.name, self.count)?;
        let counts = [
            ("failed", self.failed),
            ("not shown", self.not_shown),
            ("abandoned", self.abandoned),
            ("works-on", self.works_on),
            ("unended", self.unended),
            ("not-done", self.not_done),
            ("in", self.inputs),
            ("out", self.outputs),
        ];
        for (name, number) in counts {
            if 0 < number {
                write!(text, "; {name} {number}")?;
            }
        }
        self.push_busy(text)?;
        text.push_str("\n")
    }
}

// So many of a thing.
fn push_counted(text: &mut String, number: u64, name: &str) -> Result<(), AllocError> {
    let plural = if number == 1 { "" } else { "s" };
    write!(text, "{number} {name}{plural}")
}

// How many cycles a trace has.
fn count_cycles(trace: &ListedTrace) -> u64 {
    let mut cycles: u64 = 0;
    for found in trace.timed().iter() {
        if let Item::Cyc(_) = found.item {
            count(&mut cycles);
        }
    }
    cycles
}

impl Summary {
    /// Nothing was counted yet.
    pub(crate) fn nothing(alloc: Global) -> Summary {
        Summary {
            count: 0,
            polls: 0,
            kinds: Vec::new(alloc),
        }
    }

    // The place of the operations of a name, which is made where it isn't there.
    fn place_of(&mut self, name: OperationName) -> Result<usize, AllocError> {
        for (place, kind) in self.kinds.iter().enumerate() {
            if kind.name == name {
                return Ok(place);
            }
        }
        self.kinds.push(KindSummary::nothing(name))?;
        Ok(self.kinds.len().saturating_sub(1))
    }

    /// Counts an operation that is printed.
    pub(crate) fn take(
        &mut self,
        operation: Operation,
        busy: Option<Busy>,
    ) -> Result<(), AllocError> {
        count(&mut self.count);
        self.polls = self.polls.saturating_add(operation.polls);
        let place = self.place_of(operation.name())?;
        if let Some(kind) = self.kinds.get_mut(place) {
            kind.take(operation, busy);
        }
        Ok(())
    }

    /// Adds its lines.
    pub(crate) fn push_lines(
        &self,
        text: &mut String,
        trace: &ListedTrace,
    ) -> Result<(), AllocError> {
        push_counted(text, self.count, "operation")?;
        text.push_str(", ")?;
        push_counted(text, count_cycles(trace), "cycle")?;
        text.push_str(", ")?;
        push_counted(text, self.polls, "poll")?;
        text.push_str(", ")?;
        push_counted(text, trace.faults.len() as u64, "fault")?;
        text.push_str("\n")?;
        for kind in self.kinds.iter() {
            kind.push_line(text)?;
        }
        Ok(())
    }
}
