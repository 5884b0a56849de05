//! What finishing a job answers.

use lun_lease::{Idle, Lease, Loaded};

/// What finishing a job answers.
#[derive(Drop)]
pub enum Finished {
    Done(Lease<Idle>),
    /// The job hasn't ended, whether there is memory or not.
    NotEnded(Lease<Loaded>),
    /// The job has ended, and there is no memory to store that.
    OutOfMemory(Lease<Loaded>),
}
