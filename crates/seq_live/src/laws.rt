//! What always holds of a sequencer on a real bus: each function here does nothing, and its contract is a law.

ghost use Rattle.seq_live.specs.Headline.{LiveEventsGoWell, LiveHeadline, ModelsAreLive};
ghost use Rattle.seq_live.specs.Calls.{CallsGoOn, CallsGoWell};

/// Every event of a lawful world is defined and leaves a lawful world, if a job that it loads is verified and its step is answered: by as many bytes
/// as its word has outputs, whatever they are, but that a `wait` is told ready only of a LUN that is ready. What it adds to the trace is its own.
pub fn live_events_go_well()
    ensures { LiveEventsGoWell }
{}

/// The main theorem of a real bus. On every channel whose geometry is in the limits, after every list of loads, steps, readies, array readies and unloads
/// in every interleaving, whatever bytes the chips give, if each job that it loads is verified and each `wait` is told ready only of a LUN that is ready:
/// the run is defined and its trace is legal. What a step adds to the trace are permitted cycles of its LUN alone. Each program is inside its buffer and
/// its budget, has done a beginning of what its text means with these bytes, all of it if it has ended, and the cycles that its steps have put into the
/// trace are those of that beginning, in order. The world is lawful.
pub fn live_headline()
    ensures { LiveHeadline }
{}

/// One call of [`Live`](crate::Live) after another is one run: the events of the first and then those of the second.
pub fn calls_go_on()
    ensures { CallsGoOn }
{}

/// Whatever calls are made of a new [`Live`](crate::Live), their events go well as the main theorem says, if each job that is loaded is verified. Nothing is asked of
/// the chips: where a poll says ready, a ready of its LUN is an event before it. So the trace that is judged is that of the pins with the readies that the polls show.
pub fn calls_go_well()
    ensures { CallsGoWell }
{}

/// Each run of modelled dies is a run of a real bus, whose chips give the bytes that the model shows.
pub fn models_are_live()
    ensures { ModelsAreLive }
{}
