//! Which operation is which.
ghost use Rattle.std.specs.Prelude.{◌≡◌, Some, slice_set};
ghost use Rattle.trace_ops.specs.Listing.{nobody, found, worker, giver, asker, lun_place};

/// The numbers of operations: of each target the newest one; of each LUN, four a target, the one that began its work, the one that gave its column, and
/// the one that asked for its status.
#[derive(Clone, Copy)]
pub(crate) struct Places {
    pub(crate) newest: [Option<usize>; 4],
    pub(crate) workers: [Option<usize>; 16],
    pub(crate) givers: [Option<usize>; 16],
    pub(crate) askers: [Option<usize>; 16],
}

// What stands at a place.
fn found(places: &[Option<usize>], at: usize) -> Option<usize>
    ensures { result ≡ found places.now at }
{
    match places.get(at) {
        None => None,
        Some(place) => *place,
    }
}

// This stands at a place from here on.
fn note(places: &mut [Option<usize>], at: usize, number: usize)
    ensures { places.new ≡ slice_set places.old at (Some number) }
{
    if at < places.len() {
        places[at] = Some(number);
    }
}

// The place of a LUN.
fn lun_place(ce: u8, lun: u8) -> usize
    ensures { result ≡ lun_place ce lun }
{
    4 * usize::from(ce) + usize::from(lun)
}

impl Places {
    /// No operation has begun.
    pub(crate) fn nobody() -> Places
        ensures { result ≡ nobody }
    {
        Places {
            newest: [None; 4],
            workers: [None; 16],
            givers: [None; 16],
            askers: [None; 16],
        }
    }

    /// The newest of a target.
    pub(crate) fn newest(&self, ce: u8) -> Option<usize>
        ensures { result ≡ found self.now.newest ce }
    {
        found(&self.newest, usize::from(ce))
    }

    /// The one that began the work of a LUN.
    pub(crate) fn worker(&self, ce: u8, lun: u8) -> Option<usize>
        ensures { result ≡ worker self.now ce lun }
    {
        found(&self.workers, lun_place(ce, lun))
    }

    /// The one that gave its column.
    pub(crate) fn giver(&self, ce: u8, lun: u8) -> Option<usize>
        ensures { result ≡ giver self.now ce lun }
    {
        found(&self.givers, lun_place(ce, lun))
    }

    /// The one that asked for its status.
    pub(crate) fn asker(&self, ce: u8, lun: u8) -> Option<usize>
        ensures { result ≡ asker self.now ce lun }
    {
        found(&self.askers, lun_place(ce, lun))
    }

    /// This is the newest of a target.
    pub(crate) fn note_newest(&mut self, ce: u8, number: usize)
        ensures { self.new ≡ record self.old { newest = slice_set self.old.newest ce (Some number) } }
    {
        note(&mut self.newest, usize::from(ce), number);
    }

    /// This began the work of a LUN.
    pub(crate) fn note_worker(&mut self, ce: u8, lun: u8, number: usize)
        ensures { self.new ≡ record self.old { workers = slice_set self.old.workers (lun_place ce lun) (Some number) } }
    {
        note(&mut self.workers, lun_place(ce, lun), number);
    }

    /// This gave its column.
    pub(crate) fn note_giver(&mut self, ce: u8, lun: u8, number: usize)
        ensures { self.new ≡ record self.old { givers = slice_set self.old.givers (lun_place ce lun) (Some number) } }
    {
        note(&mut self.givers, lun_place(ce, lun), number);
    }

    /// This asked for its status.
    pub(crate) fn note_asker(&mut self, ce: u8, lun: u8, number: usize)
        ensures { self.new ≡ record self.old { askers = slice_set self.old.askers (lun_place ce lun) (Some number) } }
    {
        note(&mut self.askers, lun_place(ce, lun), number);
    }
}
