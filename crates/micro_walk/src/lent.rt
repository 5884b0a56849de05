//! Examining a text with a table that the caller lends.
ghost use Rattle.std.specs.Prelude.{◌≡◌, ◌≤◌, ◌<◌, true, length, replicate, Option, None, IsOk, IfOk, IfErr};
ghost use Rattle.micro_claims.specs.declared.state.State.{State};
ghost use Rattle.micro_walk.specs.Searched.{finds_certificate};
ghost use Rattle.micro_walk.specs.Verdicts.{IsVerified, IsUnexamined, places_wanted};

use crate::examining::{examine_straight, examine_ways};
use crate::shape::shape_fault;
use micro_claims::{Fault, State};
use micro_program::all_lead_on;
use micro_word::Text;
use nand_geometry::Geometry;
use std::alloc::Allocator;

/// Why nothing is known of a text that was examined with a lent table, or what is against it.
#[derive(Clone, Copy, Debug, PartialEq, Eq)]
pub enum Unexamined {
    /// This is against it.
    Fault(Fault),
    /// The table has fewer places than the text wants.
    TableTooSmall { wanted: usize },
}

/// How many places [`examine_in`] wants for a text: one for each word of a text with branches or loops, else none. A text whose shape is wrong
/// wants none.
pub fn places_wanted<A: Allocator>(text: &Text<A>) -> usize
    ensures { result ≡ places_wanted text.now.words }
{
    let words = text.words();
    if shape_fault(words).is_some() || all_lead_on(words) {
        0
    } else {
        words.len()
    }
}

/// Examines a text as [`examine`](crate::examine) does, with a table that the caller lends: what stands there before counts for nothing. A table with
/// fewer places than [`places_wanted`] tells is refused. It takes no memory, and little of the stack.
pub fn examine_in<A: Allocator>(
    text: &Text<A>,
    geometry: &Geometry,
    table: &mut [Option<State>],
) -> Result<u64, Unexamined>
    ensures verified { IfOk result (λ walked. IsVerified text.now geometry.now walked × (places_wanted text.now.words ≤ length table.old)) }
    ensures refused { IfErr result (IsUnexamined geometry.now text.now (length table.old)) }
    // No text with loops is refused of which the search finds a certificate, where the table has the places that it wants.
    ensures found { finds_certificate geometry.now text.now ≡ true → places_wanted text.now.words ≤ length table.old → IsOk result }
{
    let words = text.words();
    if let Some(fault) = shape_fault(words) {
        return Err(Unexamined::Fault(fault));
    }
    if all_lead_on(words) {
        return match examine_straight(text, geometry) {
            Ok(walked) => Ok(walked),
            Err(fault) => Err(Unexamined::Fault(fault)),
        };
    }
    let wanted = words.len();
    if table.len() < wanted {
        return Err(Unexamined::TableTooSmall { wanted });
    }
    let (places, _) = table.split_at_mut(wanted);
    places.fill(None);
    match examine_ways(text, geometry, places) {
        Ok(walked) => Ok(walked),
        Err(fault) => Err(Unexamined::Fault(fault)),
    }
}
