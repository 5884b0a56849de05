//! Why nothing is shown.
ghost use Rattle.std.specs.Prelude.{◌≡◌};
ghost use Rattle.onfiseq_show_c.specs.Shown.{told_of};

use placed_bytes::{OnfiseqPlaced, refused};

/// Why nothing is shown.
#[derive(Clone, Copy)]
pub enum Failure {
    /// The targets aren't 1 to 4.
    Targets,
    /// The geometry has a fault.
    Geometry,
    /// The numbers at this place are no item.
    Item(usize),
    /// The word file can't be read.
    File,
    OutOfMemory,
}

impl Failure {
    // What is told of it.
    pub(crate) fn told(self) -> OnfiseqPlaced
        ensures { result ≡ told_of self }
    {
        match self {
            Failure::Targets => refused(b'T', 0, 0),
            Failure::Geometry => refused(b'P', 0, 0),
            Failure::Item(at) => refused(b'I', 0, at),
            Failure::File => refused(b'M', 0, 0),
            Failure::OutOfMemory => refused(b'O', 0, 0),
        }
    }
}
