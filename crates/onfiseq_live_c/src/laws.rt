//! The laws of what is told.
ghost use Rattle.onfiseq_live_c.specs.Accepted.{AcceptedJobsBreakNone, OtherJobsBreakNone, StandingJobsBreakNone};
ghost use Rattle.onfiseq_live_c.specs.Permits.{BurstsArePermitted};
ghost use Rattle.onfiseq_live_c.specs.Verified.{BegunJobsAreMade, ChannelsBegin, EndedJobsGo, ReadiesGoAlong, VerifiedJobsBegin, VerifiedJobsBreakNone, VerifiedJobsGoAlong};

/// Where bursts are told, each of their cycles is permitted where it comes, after each past that the channel's state follows, whatever stands in the buffer and
/// whatever the chip gives.
pub fn bursts_are_permitted()
    ensures { BurstsArePermitted }
{}

/// A verified job whose records stand for what the sequencer of `seq_live` keeps is told the bursts of its next word: no rule is in their way.
pub fn verified_jobs_break_none()
    ensures { VerifiedJobsBreakNone }
{}

/// It makes its step, whatever its outputs give, and the records that the step leaves stand for what that sequencer keeps then.
pub fn verified_jobs_go_along()
    ensures { VerifiedJobsGoAlong }
{}

/// A channel that begins stands for a sequencer without jobs.
pub fn channels_begin()
    ensures { ChannelsBegin }
{}

/// A job of a verified text begins in its record and in that sequencer.
pub fn verified_jobs_begin()
    ensures { VerifiedJobsBegin }
{}

/// A ready that R/B# tells comes in both, and each program is as it was.
pub fn readies_go_along()
    ensures { ReadiesGoAlong }
{}

/// A job that has ended may be forgotten, and another begin on its LUN.
pub fn ended_jobs_go()
    ensures { EndedJobsGo }
{}

/// A job that `onfiseq_job_begin` takes may be made: its rows, its buffer and its base are right, and its LUN is there.
pub fn begun_jobs_are_made()
    ensures { BegunJobsAreMade }
{}

/// No call about a job whose records stand for what that sequencer keeps is answered F, whatever the chip gives: it goes on, is held or has ended.
pub fn standing_jobs_break_none()
    ensures { StandingJobsBreakNone }
{}

/// Where `onfiseq_verify` accepts a file for the chip of a channel, its job stands in its records once it is begun on a free LUN, and no call about it is answered F.
pub fn accepted_jobs_break_none()
    ensures { AcceptedJobsBreakNone }
{}

/// What goes on on other LUNs leaves a job so: it stands in its records, and no call about it is answered F.
pub fn other_jobs_break_none()
    ensures { OtherJobsBreakNone }
{}
