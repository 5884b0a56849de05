//! What a run does, one after the other, and how long its jobs take.

use std::io::{self, ErrorKind};
use std::time::{Clock, Duration, Instant};
use trace_text::NoProgress;

/// What a run does.
#[derive(Clone, Copy, Debug, PartialEq, Eq)]
pub enum Phase {
    /// It reads and judges the run file and the files that it names.
    Reading,
    /// It runs so many jobs.
    Running { jobs: usize },
    /// It writes what came of them.
    Writing,
}

/// Is told what a run does.
pub trait RunProgress {
    /// This comes next.
    fn begin(&mut self, phase: Phase);
}

impl RunProgress for NoProgress {
    fn begin(&mut self, _phase: Phase) {}
}

/// A clock that tells no time.
#[derive(Clone, Copy, Debug)]
pub struct NoClock;

impl Clock for NoClock {
    fn monotonic(&self) -> io::Result<Duration> {
        Err(io::Error::from(ErrorKind::Unsupported))
    }

    fn since_1970(&self) -> io::Result<Duration> {
        Err(io::Error::from(ErrorKind::Unsupported))
    }
}

/// When the first job began and the last one ended.
#[derive(Drop)]
pub(crate) struct Times<'a, C: Clock> {
    clock: &'a C,
    first: Option<Instant>,
    last: Option<Instant>,
}

impl<'a, C: Clock> Times<'a, C> {
    /// No job has run.
    pub(crate) fn new(clock: &'a C) -> Times<'a, C> {
        Times {
            clock,
            first: None,
            last: None,
        }
    }

    /// The first job begins.
    pub(crate) fn begin(&mut self) {
        self.first = Instant::now(self.clock).ok();
    }

    /// The last job has ended.
    pub(crate) fn end(&mut self) {
        self.last = Instant::now(self.clock).ok();
    }

    /// How long the jobs took, if they have run and the clock tells it.
    pub(crate) fn between(&self) -> Option<Duration> {
        match (self.first, self.last) {
            (Some(first), Some(last)) => Some(last.duration_since(first)),
            (None, _) | (_, None) => None,
        }
    }
}
