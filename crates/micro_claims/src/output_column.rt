//! The column of the next output.
ghost use Rattle.std.specs.Prelude.{◌≡◌, false};
ghost use Rattle.micro_claims.specs.Joins.{both_know, joined_output};
ghost use Rattle.micro_claims.specs.Leaves.{given_at};
ghost use Rattle.micro_claims.specs.Order.{output_number, is_output_within, span_in_loop, output_by};
ghost use Rattle.micro_claims.specs.Spans.{exactly};

use crate::flags::may_within;
use crate::loop_place::LoopPlace;
use crate::span::{Span, column_number};

/// The column of the next output.
#[derive(Clone, Copy)]
pub struct OutputColumn {
    pub at: Span,
    /// Data may have been read since it was given.
    pub read: bool,
}

impl OutputColumn {
    pub(crate) fn given(at: Option<Span>) -> Option<OutputColumn>
        ensures { result ≡ given_at at }
    {
        match at {
            None => None,
            Some(at) => Some(OutputColumn {
                at: at.copied(),
                read: false,
            }),
        }
    }

    // The first byte of the register.
    pub(crate) fn first() -> OutputColumn
        ensures { result ≡ record { at = exactly 0; read = false } }
    {
        OutputColumn {
            at: Span::exactly(0),
            read: false,
        }
    }

    pub(crate) fn join(self, other: OutputColumn) -> OutputColumn
        ensures { result ≡ joined_output self other }
    {
        OutputColumn {
            at: self.at.join(other.at),
            read: self.read || other.read,
        }
    }
}

pub(crate) fn is_output_within(one: Option<OutputColumn>, other: Option<OutputColumn>) -> bool
    ensures { result ≡ is_output_within one other }
{
    match (one, other) {
        (_, None) => true,
        (None, Some(_)) => false,
        (Some(one), Some(other)) => {
            one.at.is_within(other.at) && may_within(one.read, other.read)
        }
    }
}

pub(crate) fn joined_outputs(
    one: Option<OutputColumn>,
    other: Option<OutputColumn>,
) -> Option<OutputColumn>
    ensures { result ≡ both_know joined_output one other }
{
    match (one, other) {
        (Some(one), Some(other)) => Some(one.join(other)),
        _ => None,
    }
}

pub(crate) fn widened_output(
    one: Option<OutputColumn>,
    other: Option<OutputColumn>,
) -> Option<OutputColumn> {
    let (one, other) = (one?, other?);
    Some(OutputColumn {
        at: one.at.widen(other.at),
        ..other
    })
}

fn output_number(column: Option<OutputColumn>) -> Span
    ensures { result ≡ output_number column }
{
    match column {
        None => column_number(None),
        Some(column) => column.at,
    }
}

pub(crate) fn output_in_loop(
    entry: Option<OutputColumn>,
    end: Option<OutputColumn>,
    place: LoopPlace,
) -> Option<OutputColumn>
    ensures { result ≡ output_by (span_in_loop place) entry end }
{
    match end {
        None => None,
        Some(end) => Some(OutputColumn {
            at: place.number(output_number(entry), end.at),
            read: end.read,
        }),
    }
}
