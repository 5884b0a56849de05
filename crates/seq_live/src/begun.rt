//! How a step begins.

use seq_core::Stepped;

/// How a step begins.
#[derive(Clone, Copy, Debug, PartialEq, Eq)]
pub enum Begun {
    /// Nothing is to be done: the step is answered, and changes nothing.
    Answered(Stepped),
    /// Its bursts are to be done on the pins, and then it is to be finished.
    Going,
}
