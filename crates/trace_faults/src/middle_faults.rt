//! What comes of a trace whose recording began in the middle.
ghost use Rattle.std.specs.Prelude.{◌≡◌, ◌≤◌, ◌++◌, IfOk, OnOk};
ghost use Rattle.trace_faults.specs.Middle.{verdicts_of, all_broken, all_granted, all_not_shown, count_passed_over, broken_in, granted_in, not_shown_in, one_passed_over};

use crate::broken_rule::BrokenRule;
use crate::known::all_at_first;
use crate::middle::go_on_from_middle;
use crate::readies::Readies;
use crate::trace_state::TraceState;
use crate::unshown::NotShown;
use crate::verdict::Verdict;
use nand_geometry::Geometry;
use onfi_cycle::Item;
use std::alloc::{AllocError, Allocator, Global};

/// What comes of a trace whose recording began in the middle.
#[derive(Drop)]
pub struct MiddleFaults<A: Allocator = Global> {
    /// What breaks a rule whatever was before, in the order of time.
    pub faults: Vec<BrokenRule, A>,
    /// What would break a rule after what was seen, and was taken for granted.
    pub granted: Vec<BrokenRule, A>,
    /// What is permitted with a ready that nothing showed.
    pub not_shown: Vec<NotShown, A>,
    /// How many cycles weren't judged, since their opener wasn't seen or was taken for granted.
    pub passed_over: usize,
}

// What is said of each item of a trace.
fn verdicts_of<A: Allocator>(
    alloc: A,
    geometry: &Geometry,
    targets: u8,
    items: &[Item],
    readies: Readies,
) -> Result<Vec<Verdict, A>, AllocError>
    requires { targets ≤ 4 }
    ensures { IfOk result (λ verdicts. verdicts.items ≡ verdicts_of readies geometry.now targets items.now) }
{
    let mut state = TraceState::before(geometry, targets, items);
    let mut known = all_at_first(targets);
    let mut verdicts = Vec::new(alloc);
    let mut rest = items;
    'rest: while let Some((first, later)) = rest.split_first() {
        let said = go_on_from_middle(&mut state, &mut known, readies, *first, later);
        verdicts.push(said)?;
        rest = later;
    }
    Ok(verdicts)
}

// Adds the rule that an item breaks whatever was before, if this is said of it.
fn push_broken<A: Allocator>(
    faults: &mut Vec<BrokenRule, A>,
    item: usize,
    said: Verdict,
) -> Result<(), AllocError>
    ensures { OnOk result (faults.new.items ≡ faults.old.items ++ broken_in item said) }
{
    match said {
        Verdict::Broken(rule) => faults.push(BrokenRule { item, rule })?,
        Verdict::Permitted | Verdict::PassedOver | Verdict::Granted(_) | Verdict::NotShown(_) => {}
    }
    Ok(())
}

// Each item that breaks a rule whatever was before.
fn all_broken<A: Allocator>(
    alloc: A,
    verdicts: &[Verdict],
) -> Result<Vec<BrokenRule, A>, AllocError>
    ensures { IfOk result (λ faults. faults.items ≡ all_broken 0 verdicts.now) }
{
    let mut faults = Vec::new(alloc);
    for place in 0..verdicts.len() {
        push_broken(&mut faults, place, verdicts[place])?;
    }
    Ok(faults)
}

// Adds the rule that an item would break, if that was taken for granted.
fn push_granted<A: Allocator>(
    granted: &mut Vec<BrokenRule, A>,
    item: usize,
    said: Verdict,
) -> Result<(), AllocError>
    ensures { OnOk result (granted.new.items ≡ granted.old.items ++ granted_in item said) }
{
    match said {
        Verdict::Granted(rule) => granted.push(BrokenRule { item, rule })?,
        Verdict::Permitted | Verdict::PassedOver | Verdict::Broken(_) | Verdict::NotShown(_) => {}
    }
    Ok(())
}

// Each item that was taken for granted.
fn all_granted<A: Allocator>(
    alloc: A,
    verdicts: &[Verdict],
) -> Result<Vec<BrokenRule, A>, AllocError>
    ensures { IfOk result (λ granted. granted.items ≡ all_granted 0 verdicts.now) }
{
    let mut granted = Vec::new(alloc);
    for place in 0..verdicts.len() {
        push_granted(&mut granted, place, verdicts[place])?;
    }
    Ok(granted)
}

// Adds the LUN that was taken for ready before an item, if one was.
fn push_not_shown<A: Allocator>(
    told: &mut Vec<NotShown, A>,
    item: usize,
    said: Verdict,
) -> Result<(), AllocError>
    ensures { OnOk result (told.new.items ≡ told.old.items ++ not_shown_in item said) }
{
    match said {
        Verdict::NotShown(ready) => told.push(NotShown { item, ready })?,
        Verdict::Permitted | Verdict::PassedOver | Verdict::Granted(_) | Verdict::Broken(_) => {}
    }
    Ok(())
}

// Each item before which a LUN was taken for ready.
fn all_not_shown<A: Allocator>(
    alloc: A,
    verdicts: &[Verdict],
) -> Result<Vec<NotShown, A>, AllocError>
    ensures { IfOk result (λ told. told.items ≡ all_not_shown 0 verdicts.now) }
{
    let mut told = Vec::new(alloc);
    for place in 0..verdicts.len() {
        push_not_shown(&mut told, place, verdicts[place])?;
    }
    Ok(told)
}

// 1 for an item that isn't judged, else 0.
fn one_passed_over(said: Verdict) -> usize
    ensures value { result ≡ one_passed_over said }
    ensures one { result ≤ 1 }
{
    match said {
        Verdict::PassedOver => 1,
        Verdict::Permitted | Verdict::Granted(_) | Verdict::Broken(_) | Verdict::NotShown(_) => 0,
    }
}

// How many items weren't judged.
fn count_passed_over(verdicts: &[Verdict]) -> usize
    ensures { result ≡ count_passed_over verdicts.now }
{
    let mut count = 0;
    for place in 0..verdicts.len() {
        count += one_passed_over(verdicts[place]);
    }
    count
}

/// Judges a trace on a channel of so many targets of this geometry, 4 at most, whose recording began in the middle: nobody knows what its LUNs did
/// before. Of each target the cycles before its first opener are passed over; where it has several LUNs, and commands that are of all of them, those before its
/// first FFh. A ready is taken for granted while its LUN hasn't begun work since. While there is a
/// LUN that hasn't, or of which it isn't known whether it drives the bus, what hangs on what a LUN drives, holds or had begun is taken for granted, and what
/// follows such a cycle up to the next opener of its target is passed over. All else is judged as [`find_faults`](crate::find_faults) judges. It takes 4 bytes
/// an item while it works.
pub fn find_faults_from_middle<A: Allocator + Clone>(
    alloc: A,
    geometry: &Geometry,
    targets: u8,
    items: &[Item],
    readies: Readies,
) -> Result<MiddleFaults<A>, AllocError>
    requires { targets ≤ 4 }
    ensures faults { IfOk result (λ m. m.faults.items ≡ all_broken 0 (verdicts_of readies geometry.now targets items.now)) }
    ensures granted { IfOk result (λ m. m.granted.items ≡ all_granted 0 (verdicts_of readies geometry.now targets items.now)) }
    ensures not_shown { IfOk result (λ m. m.not_shown.items ≡ all_not_shown 0 (verdicts_of readies geometry.now targets items.now)) }
    ensures passed_over { IfOk result (λ m. m.passed_over ≡ count_passed_over (verdicts_of readies geometry.now targets items.now)) }
{
    let verdicts = verdicts_of(alloc.clone()?, geometry, targets, items, readies)?;
    let verdicts = verdicts.as_slice();
    Ok(MiddleFaults {
        faults: all_broken(alloc.clone()?, verdicts)?,
        granted: all_granted(alloc.clone()?, verdicts)?,
        not_shown: all_not_shown(alloc, verdicts)?,
        passed_over: count_passed_over(verdicts),
    })
}
