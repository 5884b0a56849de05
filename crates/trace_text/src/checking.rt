//! The check of a trace.

ghost use Rattle.std.specs.Prelude.{◌≡◌, ◌≤◌, ◌↔◌, true, false, reverse, IsOk, IfErr, IfSome, IfNone};
ghost use Rattle.onfi_cycle.specs.Permitted.{is_legal, IsFirstBroken};
ghost use Rattle.trace_text.specs.Checking.{TellsFirst};

use crate::data_run::go_on;
use crate::progress::{CheckProgress, NoProgress};
use nand_geometry::Geometry;
use onfi_cycle::{BusState, Forbidden, Item};
use thiserror::Error;

/// Why a trace isn't legal.
#[derive(Clone, Copy, Debug, PartialEq, Eq, Error)]
pub enum CheckRefusal {
    /// The place of the first forbidden item, from 0 on, and the first rule that it breaks.
    #[error("{} at item {}: {}", .1.code(), .0, .1)]
    At(usize, Forbidden),
    /// Memory was refused. [`check`] takes none and never answers this; it stands here for programs that check a trace
    /// they have read.
    #[error("out of memory")]
    OutOfMemory,
}

// After how many items a check tells how far it has come, each time.
const MILLION: usize = 1_000_000;

// How many data cycles are judged at once at most. A run that isn't permitted is tried by halves, and each time its items are counted
// again: so this keeps them few.
const LONGEST_RUN: usize = 65_536;

// Tells how far a check has come, each time after so many items.
fn tell_each<P: CheckProgress>(progress: &mut P, every: usize, items: usize)
    requires { 1 ≤ every }
{
    if items > 0 && items % every == 0 {
        progress.checked(items);
    }
}

/// The place of the first forbidden item, from 0 on, with the first rule that it breaks; None where
/// the trace is legal on a channel of so many targets of this geometry. `progress` is told each time after so many items how far this
/// has come.
pub fn first_broken<P: CheckProgress>(
    geometry: &Geometry,
    targets: u8,
    items: &[Item],
    progress: &mut P,
    every: usize,
) -> Option<(usize, Forbidden)>
    requires few { targets ≤ 4 }
    requires steps { 1 ≤ every }
    ensures none { IfNone result (is_legal geometry.now targets (reverse items.now) ≡ true) }
    ensures some { IfSome result (λ found. IsFirstBroken geometry.now targets items.now found.0 found.1) }
    ensures illegal { IfSome result (λ found. is_legal geometry.now targets (reverse items.now) ≡ false) }
{
    let mut state = BusState::new(*geometry, targets);
    let mut place = 0;
    while place < items.len() {
        tell_each(progress, every, place);
        match go_on(
            &mut state,
            &items[place..],
            LONGEST_RUN.min(every - place % every),
        ) {
            Ok(count) => place += count,
            Err(rule) => return Some((place, rule)),
        }
    }
    None
}

/// Whether a trace is legal on a channel of so many targets of this geometry, 4 at most: whether each item is permitted
/// after those before it (docs/model/MODEL.md, "Rules"). The items stand in the order of time. The byte of an output isn't
/// judged. Takes no memory, and a time that grows with the number of items alone.
pub fn check(geometry: &Geometry, targets: u8, items: &[Item]) -> Result<(), CheckRefusal>
    requires { targets ≤ 4 }
    ensures legal { IsOk result ↔ (is_legal geometry.now targets (reverse items.now) ≡ true) }
    ensures first { IfErr result (TellsFirst geometry.now targets items.now) }
{
    check_watched(geometry, targets, items, &mut NoProgress)
}

/// The same, and `progress` is told at each million of items that are permitted.
pub fn check_watched<P: CheckProgress>(
    geometry: &Geometry,
    targets: u8,
    items: &[Item],
    progress: &mut P,
) -> Result<(), CheckRefusal>
    requires { targets ≤ 4 }
    ensures legal { IsOk result ↔ (is_legal geometry.now targets (reverse items.now) ≡ true) }
    ensures first { IfErr result (TellsFirst geometry.now targets items.now) }
{
    match first_broken(geometry, targets, items, progress, MILLION) {
        Some((place, rule)) => Err(CheckRefusal::At(place, rule)),
        None => Ok(()),
    }
}
