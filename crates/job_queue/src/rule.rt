// The rule of the queue: for each host, what was taken and then what is queued are the jobs that it stored.
use crossbeam_queue::protocol::{Join, Lesson, Outcome, Protocol, Split};
use std::collections::LinkedList;

/// A job, with the host that stored it and its number among the jobs of that host.
#[derive(Drop)]
pub struct QueuedJob<J> {
    pub host: u32,
    pub number: u64,
    pub job: J,
}

/// What a pass knows. No value of it is made.
pub enum View<J> {
    /// A host: its number, and the jobs that it stored.
    Host(u32, LinkedList<J>),
    /// The taker: the jobs that it took, and how many hosts there are.
    Taker(LinkedList<QueuedJob<J>>, u32),
    /// The taker, with a host that it took in: the host's number, and what it stored.
    Closing(LinkedList<QueuedJob<J>>, u32, u32, LinkedList<J>),
    Spent,
}

pub struct QueueRule;

impl<J> Protocol<QueuedJob<J>, View<J>> for QueueRule {
    ghost use Rattle.job_queue.specs.Rule.{Delivers, opener};

    ghost holds = { λ items views. Delivers items views };

    ghost first = { opener };
}

/// A host stores a job.
pub struct Stores;

impl<J> Outcome<QueuedJob<J>, View<J>> for Stores {
    ghost use Rattle.job_queue.specs.Rule.{TellsStored};

    ghost then = { λ v x w. TellsStored v x w };
}

impl<J> Lesson<QueuedJob<J>, View<J>> for Stores {
    ghost fact = { λ v items. Unit {0} };
}

/// The taker takes a job.
pub struct Takes;

impl<J> Outcome<QueuedJob<J>, View<J>> for Takes {
    ghost use Rattle.job_queue.specs.Rule.{TellsTaken};

    ghost then = { λ v x w. TellsTaken v x w };
}

impl<J> Lesson<QueuedJob<J>, View<J>> for Takes {
    ghost fact = { λ v items. Unit {0} };
}

/// The taker makes the next host, and takes it in at the end.
pub struct Hosts;

impl<J> Split<View<J>> for Hosts {
    ghost use Rattle.job_queue.specs.Rule.{with_next_host, next_host};

    ghost left = { with_next_host };

    ghost right = { next_host };
}

impl<J> Join<View<J>> for Hosts {
    ghost use Rattle.job_queue.specs.Rule.{closing};
    ghost use Rattle.job_queue.specs.declared.rule.View.TheVariants.{Spent};

    ghost both = { closing };

    ghost spent = { Spent };
}

/// What the taker learns of a host that it took in.
pub struct Settles;

impl<J> Lesson<QueuedJob<J>, View<J>> for Settles {
    ghost use Rattle.job_queue.specs.Rule.{TellsHost};

    ghost fact = { λ v items. TellsHost v items };
}
