//! What a capture shows without the items of a vendor's sequences.
ghost use Rattle.std.specs.Prelude.{◌≡◌, ◌≤◌, get_or, map, IfOk};
ghost use Rattle.recording.specs.Captures.{seen_at, at_places, left_seen, left_broken};

use crate::capture_converter::items_seen;
use crate::passed_amount::PassedAmount;
use bus_capture::{Setup, Stamped};
use onfi_cycle::{Cycle, Item, Kind};
use std::alloc::{AllocError, Global};
use trace_faults::{BrokenRule, Readies};
use vendor_file::{Passed, Step, pass_over};

/// What a capture shows without the items of a vendor's sequences.
#[derive(Drop)]
pub struct KeptCapture {
    /// The items that belong to none, each with its time.
    pub stamped: Vec<Stamped>,
    /// The cycles that aren't next in one.
    pub broken: Vec<BrokenRule>,
    pub amount: PassedAmount,
}

/// What is seen at a place.
pub fn seen_at(stamped: &[Stamped], place: usize) -> Stamped
    ensures { result ≡ seen_at stamped.now place }
{
    match stamped.get(place) {
        Some(seen) => *seen,
        None => Stamped {
            time: 0,
            item: Item::Cyc(Cycle {
                ce: 0,
                kind: Kind::Cmd,
                byte: 0,
            }),
        },
    }
}

// The items at these places, each with its time.
fn at_places(
    alloc: Global,
    places: &[usize],
    stamped: &[Stamped],
) -> Result<Vec<Stamped>, AllocError>
    ensures { IfOk result (λ kept. kept.items ≡ at_places places.now stamped.now) }
{
    places
        .iter()
        .map(|place| seen_at(stamped, *place))
        .collect(alloc)
}

impl KeptCapture {
    /// What these items come to without those of the sequences of these steps.
    pub fn of(
        alloc: Global,
        setup: &Setup<'_>,
        steps: &[Step],
        stamped: &[Stamped],
    ) -> Result<KeptCapture, AllocError>
        requires few { setup.now.targets ≤ 4 }
        ensures kept { IfOk result (λ kept. kept.stamped.items ≡ left_seen steps.now setup.now stamped.now) }
        ensures broken { IfOk result (λ kept. kept.broken.items ≡ left_broken steps.now setup.now stamped.now) }
    {
        let items = items_seen(alloc, stamped)?;
        let Passed {
            items: _,
            places,
            broken,
            sequences,
            passed_over,
        } = pass_over(
            alloc,
            steps,
            Readies::Written,
            &setup.geometry,
            setup.targets,
            items.as_slice(),
        )?;
        Ok(KeptCapture {
            stamped: at_places(alloc, places.as_slice(), stamped)?,
            broken,
            amount: PassedAmount {
                sequences,
                items: passed_over,
            },
        })
    }
}
