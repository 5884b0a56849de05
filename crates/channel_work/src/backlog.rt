//! The jobs that wait, each at a place of its own.
ghost use Rattle.std.specs.Prelude.{◌≡◌, ◌<◌, ◌≤◌, ◌==◌, ◌++◌, ◌∷◌, [], IfSome, IfNone, IsTrue, length, get_or, set, None};
ghost use Rattle.channel_work.specs.Rows.{somes};
ghost use Rattle.channel_work.specs.Backlog.{is_of, has_front, NoneBelow, IsNext, IsBacklog, HasAdvanced, IsFirstFrom, NoOldest};
ghost use Rattle.channel_work.specs.Starting.{IsPicked};

use crate::picks::{Picked, Tried, try_oldest};
use job_queue::QueuedJob;
use lun_lease::LeaseSeat;
use onfi_cycle::Lun;
use seq_core::{Core, Job};
use std::alloc::Global;
use std::marker::Model;

/// The jobs that wait, in the order in which they were taken.
#[derive(Drop)]
pub struct Backlog {
    // A place for each job that was taken, empty once the job has left: so none has to move up.
    places: Vec<Option<QueuedJob<Job>>>,
    fronts: Vec<Front>,
}

/// Where the jobs of a LUN begin: none of them waits at a place before.
#[derive(Clone, Copy)]
pub(crate) struct Front {
    lun: Lun,
    place: usize,
}

impl Model for Backlog {
    ghost use Rattle.std.specs.Prelude.{◌-◌, min};
    ghost use Rattle.std.specs.Vec.{vec_len, vec_capacity};
    ghost use Rattle.channel_work.specs.Rows.{somes};
    ghost use Rattle.channel_work.specs.Backlog.{BacklogView, IsBacklog};

    ghost Value = { BacklogView };

    ghost view = { λ b. record { items = somes b.places.items; room = min (vec_capacity b.places - vec_len b.places) (vec_capacity b.fronts - vec_len b.fronts) } };

    ghost invariant = { λ b. IsBacklog b.places.items b.fronts.items };
}

impl Backlog {
    /// No job waits.
    pub(crate) fn new(alloc: Global) -> Backlog
        ensures { result.items ≡ [] }
    {
        Backlog {
            places: Vec::new(alloc),
            fronts: Vec::new(alloc),
        }
    }

    /// How many jobs wait.
    pub fn len(&self) -> usize
        ensures { result ≡ length self.now.items }
    {
        count_jobs(self.places.as_slice())
    }

    /// No job waits.
    pub fn is_empty(&self) -> bool
        ensures { result ≡ (length self.now.items == 0) }
    {
        self.len() == 0
    }

    /// The jobs, each at its place; the places of those that were started are empty.
    pub fn into_places(self) -> Vec<Option<QueuedJob<Job>>>
        ensures { somes result.items ≡ self.items }
    {
        self.places
    }

    /// Makes room for one more job, and tells whether there was memory.
    pub(crate) fn reserve(&mut self) -> bool
        ensures same { self.new.items ≡ self.old.items }
        ensures room { IsTrue result → 0 < self.new.room }
    {
        self.places.reserve(1).is_ok() && self.fronts.reserve(1).is_ok()
    }

    /// Puts a job after the others, where there is room for it.
    pub(crate) fn push_reserved(&mut self, queued: QueuedJob<Job>)
        requires { 0 < self.old.room }
        ensures { self.new.items ≡ self.old.items ++ queued ∷ [] }
    {
        let lun = queued.job.lun();
        if !has_front(self.fronts.as_slice(), lun) {
            self.fronts.push_reserved(Front {
                lun,
                place: self.places.len(),
            });
        }
        self.places.push_reserved(Some(queued));
    }

    /// Takes out the first job, from the oldest on, that is admitted and whose LUN is given to the seat. Once a job was passed
    /// over, so are the later ones of its LUN.
    pub(crate) fn pick(&mut self, core: &Core, seat: LeaseSeat) -> Picked
        ensures { IsPicked core.now self.old.items seat result self.new.items }
    {
        let tried = try_oldest(
            core,
            self.places.as_slice(),
            self.fronts.as_mut_slice(),
            seat,
        );
        match tried {
            Tried::NoneGiven(back) => Picked::PicksNone(back),
            Tried::GivenAt(place, lease) => match take_at(self.places.as_mut_slice(), place) {
                None => unreachable!(),
                Some(queued) => Picked::Picks(queued, lease),
            },
        }
    }
}

// How many jobs a place has.
fn count_job(place: &Option<QueuedJob<Job>>) -> usize
    ensures value { result ≡ length (somes (place.now ∷ [])) }
    ensures most { result ≤ 1 }
{
    match place {
        None => 0,
        Some(_) => 1,
    }
}

// How many places have a job.
fn count_jobs(places: &[Option<QueuedJob<Job>>]) -> usize
    ensures { result ≡ length (somes places.now) }
{
    let mut count = 0;
    for place in 0..places.len() {
        count += count_job(&places[place]);
    }
    count
}

// Takes the job out of a place.
fn take_at(places: &mut [Option<QueuedJob<Job>>], place: usize) -> Option<QueuedJob<Job>>
    requires { place < length places.old }
    ensures value { result ≡ get_or places.old place None }
    ensures places { places.new ≡ set places.old place None }
{
    places[place].take()
}

// The LUN has a front.
fn has_front(fronts: &[Front], lun: Lun) -> bool
    ensures { result ≡ has_front fronts.now lun }
{
    fronts.iter().any(|front| front.lun == lun)
}

// The place has a job of the LUN.
fn is_of(place: &Option<QueuedJob<Job>>, lun: Lun) -> bool
    ensures { result ≡ is_of lun place.now }
{
    match place {
        None => false,
        Some(queued) => lun == queued.job.lun(),
    }
}

// The first place from this one on with a job of the LUN, or how many places there are.
fn find_next(places: &[Option<QueuedJob<Job>>], lun: Lun, from: usize) -> usize
    requires below { NoneBelow lun places.now from }
    requires inside { from ≤ length places.now }
    ensures { IsNext lun places.now result }
{
    let mut place = from;
    while place < places.len() && !is_of(&places[place], lun) {
        place += 1;
    }
    place
}

// Moves a front on to the first job of its LUN, and tells its place.
fn advance(places: &[Option<QueuedJob<Job>>], fronts: &mut [Front], at: usize) -> usize
    requires backlog { IsBacklog places.now fronts.old }
    requires inside { at < length fronts.old }
    ensures { HasAdvanced places.now fronts.old fronts.new at result }
{
    let Front { lun, place } = fronts[at];
    let next = find_next(places, lun, place);
    fronts[at] = Front { lun, place: next };
    next
}

/// The first place from this one on whose job is the oldest of its LUN, if there is one. Fronts are moved on meanwhile.
pub(crate) fn find_oldest(
    places: &[Option<QueuedJob<Job>>],
    fronts: &mut [Front],
    from: usize,
) -> Option<usize>
    requires { IsBacklog places.now fronts.old }
    ensures backlog { IsBacklog places.now fronts.new }
    ensures some { IfSome result (λ place. IsFirstFrom places.now from place) }
    ensures none { IfNone result (NoOldest places.now from (length places.now)) }
{
    let mut oldest = places.len();
    for at in 0..fronts.len() {
        let place = advance(places, fronts, at);
        if from <= place && place < oldest {
            oldest = place;
        }
    }
    if oldest < places.len() {
        Some(oldest)
    } else {
        None
    }
}
