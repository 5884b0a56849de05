//! What stands behind a refusal.

use crate::address_cause::AddressCause;
use crate::alignment_cause::AlignmentCause;
use crate::barred_cause::BarredCause;
use crate::column_cause::ColumnCause;
use crate::command_cause::CommandCause;
use crate::need::Need;
use crate::open::Open;
use crate::output_cause::OutputCause;
use crate::rows_cause::RowsCause;
use crate::shape_cause::ShapeCause;
use crate::unready_cause::UnreadyCause;
use onfi_cycle::Forbidden;
use std::fmt;

/// What stands behind a refusal, which displays it: what is known before the word, and what helps.
#[derive(Clone, Copy)]
pub enum Cause {
    /// V2 to V4.
    Shape(ShapeCause),
    /// V7 of a command.
    Command(CommandCause),
    /// V7 of an address.
    Address(AddressCause),
    /// V7 of a `get`.
    Output(OutputCause),
    /// V7 of a `put`: no program wants data, or a Set Features not so much.
    Input(Open),
    /// V7 of a `stat`: a sequence is open.
    Poll(Open),
    /// V8.
    Alignment(AlignmentCause),
    /// V9: a sequence is open.
    Handover(Open),
    /// V10.
    Buffer(Need),
    /// V11.
    Rows(RowsCause),
    /// V12.
    Column(ColumnCause),
    /// V13: no status may have been asked for.
    NoPoll,
    /// V14.
    Unready(UnreadyCause),
    /// V15.
    Budget(Need),
    /// V16.
    Barred(BarredCause),
}

impl Cause {
    /// Of V7, the rule of the model that the cycle would break (docs/model/MODEL.md, "What is permitted").
    pub fn rule(self) -> Option<Forbidden> {
        match self {
            Cause::Command(cause) => Some(cause.rule()),
            Cause::Address(cause) => Some(cause.rule()),
            Cause::Output(cause) => Some(cause.rule()),
            Cause::Input(_) => Some(Forbidden::InputMisplaced),
            Cause::Poll(_) => Some(Forbidden::SequenceOpen),
            Cause::Shape(_)
            | Cause::Alignment(_)
            | Cause::Handover(_)
            | Cause::Buffer(_)
            | Cause::Rows(_)
            | Cause::Column(_)
            | Cause::NoPoll
            | Cause::Unready(_)
            | Cause::Budget(_)
            | Cause::Barred(_) => None,
        }
    }
}

impl fmt::Display for Cause {
    fn fmt<W: fmt::Write>(&self, f: &mut fmt::Formatter<W>) -> fmt::Result {
        match self {
            Cause::Shape(cause) => write!(f, "{cause}"),
            Cause::Command(cause) => write!(f, "{cause}"),
            Cause::Address(cause) => write!(f, "{cause}"),
            Cause::Output(cause) => write!(f, "{cause}"),
            Cause::Input(open) if open.place.is_in_features() => {
                write!(f, "so many bytes aren't wanted: {open}")
            }
            Cause::Input(open) => write!(f, "no program wants data here: {open}"),
            Cause::Poll(open) | Cause::Handover(open) => write!(f, "{open}"),
            Cause::Alignment(cause) => write!(f, "{cause}"),
            Cause::Buffer(need) => write!(f, "{need}"),
            Cause::Budget(need) => write!(f, "up to here {need}"),
            Cause::Rows(cause) => write!(f, "{cause}"),
            Cause::Column(cause) => write!(f, "{cause}"),
            Cause::NoPoll => f.write_str(
                "a `stat` or a `wait` must come first, on every way to it",
            ),
            Cause::Unready(cause) => write!(f, "{cause}"),
            Cause::Barred(cause) => write!(f, "{cause}"),
        }
    }
}
