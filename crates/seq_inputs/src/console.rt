//! Where a command writes.

use std::io::Write;

/// Where a command writes: standard output, standard error, and whoever is told how far it has come.
#[derive(Drop)]
pub struct Console<W: Write, E: Write, P> {
    pub output: W,
    pub errors: E,
    pub progress: P,
}
