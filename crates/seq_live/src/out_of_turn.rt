//! A call at the wrong time.
use thiserror::Error;

/// A call at the wrong time: it is refused, and changes nothing.
#[derive(Clone, Copy, Debug, PartialEq, Eq, Error)]
pub enum OutOfTurn {
    /// A step goes on on the pins, and another can't begin before it is finished.
    #[error("a step goes on: do its bursts and finish it")]
    StepGoesOn,
    /// No step goes on.
    #[error("no step goes on: begin one")]
    NoStep,
    /// All bursts of the step are done.
    #[error("all bursts of the step are done: finish it")]
    NoBurst,
    /// Bursts of the step aren't done yet.
    #[error("bursts of the step are left")]
    BurstsLeft,
    /// There is no room for the bytes that the next word takes.
    #[error("there is no room for the bytes that the next word takes")]
    NoRoom,
    /// The bytes that were taken aren't as many as the outputs of the step.
    #[error("the bytes taken aren't as many as the outputs of the step")]
    WrongCount,
}
