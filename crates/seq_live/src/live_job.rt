//! A job of a run on pins, and how far it is.
ghost use Rattle.std.specs.Prelude.{◌≡◌};
ghost use Rattle.seq_live.specs.Jobs.{is_back, lun_of, place_on};

use onfi_cycle::Lun;
use seq_core::{Job, LoadRefused, UnloadedJob};
use std::alloc::{Allocator, Global};

/// Where a job runs, and how many polls of its `wait` have said busy one after another.
#[derive(Clone, Copy, Debug, PartialEq, Eq)]
pub struct OnLun {
    pub lun: Lun,
    pub busy_polls: u64,
}

/// A job of a run on pins, and how far it is. It is handed in as `Waiting`, and comes back as `Done`, `Abandoned` or `Refused`.
#[derive(Drop)]
pub enum LiveJob<A: Allocator = Global> {
    /// It waits for its LUN.
    Waiting(Job<A>),
    /// Its LUN runs it.
    Running(OnLun),
    /// It has ended with its code, and is back with its buffer.
    Done(UnloadedJob<A>),
    /// Its LUN said busy too often. The LUN keeps it and is out of service.
    Abandoned(OnLun),
    /// It isn't loaded, and is back as it was.
    Refused(LoadRefused<A>),
}

impl<A: Allocator> LiveJob<A> {
    /// Nothing more becomes of it.
    pub fn is_back(&self) -> bool
        ensures { result ≡ is_back self.now }
    {
        match self {
            LiveJob::Waiting(_) | LiveJob::Running(_) => false,
            LiveJob::Done(_) | LiveJob::Abandoned(_) | LiveJob::Refused(_) => true,
        }
    }

    /// The LUN that it waits for or runs on; None where nothing more becomes of it.
    pub fn lun(&self) -> Option<Lun>
        ensures { result ≡ lun_of self.now }
    {
        match self {
            LiveJob::Waiting(job) => Some(job.lun()),
            LiveJob::Running(on) => Some(on.lun),
            LiveJob::Done(_) | LiveJob::Abandoned(_) | LiveJob::Refused(_) => None,
        }
    }

    // Where it runs, if it does.
    pub(crate) fn place(&self) -> Option<OnLun>
        ensures { result ≡ place_on self.now }
    {
        match self {
            LiveJob::Running(on) => Some(*on),
            LiveJob::Waiting(_) | LiveJob::Done(_) | LiveJob::Abandoned(_) | LiveJob::Refused(_) =>
                None,
        }
    }
}
