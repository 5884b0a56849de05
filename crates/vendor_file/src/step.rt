//! The steps of sequences.

/// A step of a sequence, or where one begins. A file is its sequences one after the other.
#[derive(Clone, Copy, Debug, PartialEq, Eq)]
pub enum Step {
    /// A sequence begins, with this command.
    Begin(u8),
    /// A command of this byte.
    Command(u8),
    /// An address of any byte.
    AnyAddress,
    /// An address of this byte.
    Address(u8),
    /// An input.
    Input,
    /// Any number of inputs.
    Inputs,
    /// An output.
    Output,
    /// Any number of outputs.
    Outputs,
    /// A ready of a LUN that doesn't work.
    Ready,
}
