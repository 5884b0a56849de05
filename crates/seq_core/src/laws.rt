//! What always holds of a channel that runs programs: each function here does nothing, and its contract is a law.

ghost use Rattle.seq_core.specs.Headline.{RefusalsChangeNothing, FreshIsLawful, EventsGoWell, HoldersGoOn, Headline, BeginningsGoWell, RunsGoOn, UnloadsGiveBack};

/// A load, a ready, an array ready or an unload that is refused, and a step that finds no job or another slot with the
/// bus, changes nothing.
pub fn refusals_change_nothing()
    ensures { RefusalsChangeNothing }
{}

/// The world before the first event is lawful.
pub fn fresh_is_lawful()
    ensures { FreshIsLawful }
{}

/// Every event of a lawful world is defined and leaves a lawful world, if a job that it loads is verified. What it adds
/// to the trace is its own: a step cycles of its LUN, a ready itself or nothing, and the others nothing.
pub fn events_go_well()
    ensures { EventsGoWell }
{}

/// In a lawful world the LUN that has the bus has a program that goes on, so the bus isn't kept for nothing.
pub fn holders_go_on()
    ensures { HoldersGoOn }
{}

ghost use Rattle.seq_core.specs.Alone.{AloneProgramsEnd};

/// A program that is stepped alone ends, if its LUN becomes ready after each poll that says busy: in two turns for each
/// line to come and one more.
pub fn alone_programs_end()
    ensures { AloneProgramsEnd }
{}

/// The main theorem. On every channel whose geometry is in the limits, with any number of targets, after every list of
/// loads, steps, readies, array readies and unloads in every interleaving, if each job that it loads is verified: the
/// run is defined (each output has a byte), and its trace is legal. What a step adds to the trace are permitted cycles
/// of its LUN alone: their rows name that LUN, and that LUN is the one driver of their outputs. Each program is inside
/// its buffer, of which it has changed nothing but what its `get`s fill, and inside its budget; it has done a beginning of
/// what its text means, all of it if it has ended. What its steps put into the trace since it was loaded are the
/// cycles of that beginning, in order, where a step that polled for a `wait` adds its poll again; without those polls they are
/// at most budget. The world is lawful.
pub fn headline()
    ensures { Headline }
{}

/// The first events of a list go well whatever follows them, and the run of the whole list goes on from the world that they
/// leave. So what the main theorem says of the programs at the end of a list holds of each program that was loaded, at
/// every place of the list.
pub fn beginnings_go_well()
    ensures { BeginningsGoWell }
{}

/// A run goes on with any event that is defined where it ends and adds what is its own: its world is the one that this event
/// leaves, and its replies are those of the run and this event's.
pub fn runs_go_on()
    ensures { RunsGoOn }
{}

/// An unload gives the job that was loaded, with the buffer as its program left it: the program has ended with this code and
/// has done all that its text means, inside buffer and budget, and each byte that no `get` filled is as it was handed over.
pub fn unloads_give_back()
    ensures { UnloadsGiveBack }
{}

ghost use Rattle.seq_core.specs.Live.{LiveStepsGoWell, ReadiesMakeTruth};
ghost use Rattle.seq_core.specs.Codes.{JobFaultsAreNumbered};

/// A step on a real bus. In a lawful world, whatever truthful bytes the chips give to the outputs of a program's next word: its cycles
/// are permitted where they come and its LUN's own, it stays inside buffer and budget, and the world that it leaves is lawful.
pub fn live_steps_go_well()
    ensures { LiveStepsGoWell }
{}

/// Truth can be had: where a poll says ready of a LUN that is busy in the trace, a ready of it is permitted before the poll, and then the
/// LUN isn't busy.
pub fn readies_make_truth()
    ensures { ReadiesMakeTruth }
{}

/// Each fault of a job is that of its number.
pub fn job_faults_are_numbered()
    ensures { JobFaultsAreNumbered }
{}
