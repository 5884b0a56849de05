//! A cycle with the edges of its strobe.
ghost use Rattle.std.specs.Prelude.{◌≡◌};
ghost use Rattle.trace_timing.specs.Wanted.{AreBounded};
ghost use Rattle.edge_timing.specs.Pauses.{timing_of, edge_of_output, edge_of_written, edge_of, is_address, cycle_before, work_before, since_of, time_of, pause_by, cycle_pause, busy_pause, ready_pause, pauses_of};

use crate::distance::{Distance, between};
use crate::edge::Edge;
use crate::edge_timing::EdgeTiming;
use crate::since::Since;
use onfi_cycle::{Cycle, Kind};
use onfi_pauses::{LastCycle, pauses_before};
use trace_timing::{Clock, TimingFault, Timings, Want};

/// A cycle with the edges of its strobe, the first of them if it was seen.
#[derive(Clone, Copy, Debug, PartialEq, Eq)]
pub struct Strobed {
    pub cycle: Cycle,
    pub fell: Option<u64>,
    pub rose: u64,
}

// The time between edges that a pause of a trace is.
fn timing_of(fault: TimingFault) -> Option<EdgeTiming>
    ensures { result ≡ timing_of fault }
{
    match fault {
        TimingFault::WriteCycle => Some(EdgeTiming::WriteCycle),
        TimingFault::ReadCycle => Some(EdgeTiming::ReadCycle),
        TimingFault::AddressToInput => Some(EdgeTiming::AddressToInput),
        TimingFault::ToOutput => Some(EdgeTiming::ToOutput),
        TimingFault::ColumnChange => Some(EdgeTiming::ColumnChange),
        TimingFault::OutputToCommand => Some(EdgeTiming::OutputToCommand),
        TimingFault::ReadyToOutput => Some(EdgeTiming::ReadyToOutput),
        TimingFault::ToBusy => Some(EdgeTiming::ToBusy),
        TimingFault::NoTimes | TimingFault::TooLong(_) | TimingFault::Backwards => None,
    }
}

// Of an output a period ends at the rise of RE#, and any other pause at its fall.
fn edge_of_output(fault: TimingFault) -> Edge
    ensures { result ≡ edge_of_output fault }
{
    match fault {
        TimingFault::ReadCycle => Edge::ReRises,
        TimingFault::NoTimes
        | TimingFault::WriteCycle
        | TimingFault::AddressToInput
        | TimingFault::ToOutput
        | TimingFault::ColumnChange
        | TimingFault::OutputToCommand
        | TimingFault::ReadyToOutput
        | TimingFault::ToBusy
        | TimingFault::TooLong(_)
        | TimingFault::Backwards => Edge::ReFalls,
    }
}

// Of a cycle that is written tRHW ends at the fall of WE#, and any other pause at its rise.
fn edge_of_written(fault: TimingFault) -> Edge
    ensures { result ≡ edge_of_written fault }
{
    match fault {
        TimingFault::OutputToCommand => Edge::WeFalls,
        TimingFault::NoTimes
        | TimingFault::WriteCycle
        | TimingFault::ReadCycle
        | TimingFault::AddressToInput
        | TimingFault::ToOutput
        | TimingFault::ColumnChange
        | TimingFault::ReadyToOutput
        | TimingFault::ToBusy
        | TimingFault::TooLong(_)
        | TimingFault::Backwards => Edge::WeRises,
    }
}

// Which edge of its strobe ends a pause before a cycle of this kind.
fn edge_of(fault: TimingFault, kind: Kind) -> Edge
    ensures { result ≡ edge_of fault kind }
{
    match kind {
        Kind::Dout => edge_of_output(fault),
        Kind::Cmd | Kind::Adr | Kind::Din => edge_of_written(fault),
    }
}

// The last cycle is an address.
fn is_address(last: LastCycle) -> bool
    ensures { result ≡ is_address last }
{
    matches!(last, LastCycle::Address(_))
}

// The cycle before.
fn cycle_before(last: LastCycle) -> Since
    ensures { result ≡ cycle_before last }
{
    match last {
        LastCycle::Nothing | LastCycle::Command(_) => Since::Command,
        LastCycle::Address(_) => Since::Address,
        LastCycle::Input | LastCycle::FeatureByte { .. } => Since::Input,
        LastCycle::Output => Since::Output,
    }
}

// The cycle that begins work.
fn work_before(last: LastCycle) -> Since
    ensures { result ≡ work_before last }
{
    match last {
        LastCycle::Address(_) => Since::WorkAddress,
        LastCycle::FeatureByte { .. } => Since::WorkInput,
        LastCycle::Nothing | LastCycle::Command(_) | LastCycle::Input | LastCycle::Output =>
            Since::WorkCommand,
    }
}

// What a pause after this cycle begins with.
fn since_of(fault: TimingFault, last: LastCycle) -> Since
    ensures { result ≡ since_of fault last }
{
    match fault {
        TimingFault::AddressToInput => Since::LastAddress,
        TimingFault::ColumnChange => {
            if is_address(last) {
                Since::ColumnAddress
            } else {
                Since::ColumnConfirm
            }
        }
        TimingFault::OutputToCommand => Since::LastOutput,
        TimingFault::ReadyToOutput => Since::Ready,
        TimingFault::ToBusy => work_before(last),
        TimingFault::WriteCycle
        | TimingFault::ReadCycle
        | TimingFault::ToOutput
        | TimingFault::NoTimes
        | TimingFault::TooLong(_)
        | TimingFault::Backwards => cycle_before(last),
    }
}

impl Strobed {
    // When an edge of its strobe was.
    fn time_of(self, edge: Edge) -> Option<u64>
        ensures { result ≡ time_of self edge }
    {
        match edge {
            Edge::WeFalls | Edge::ReFalls => self.fell,
            Edge::WeRises
            | Edge::ReRises
            | Edge::DqChanges
            | Edge::CleChanges
            | Edge::AleChanges
            | Edge::EnableFalls
            | Edge::EnableRises => Some(self.rose),
        }
    }

    // A pause before it, since this time.
    fn pause_by(self, last: LastCycle, since: Option<u64>, want: Option<Want>) -> Option<Distance>
        ensures { result ≡ pause_by self last since want }
    {
        let fault = want?.fault;
        let timing = timing_of(fault)?;
        let edge = edge_of(fault, self.cycle.kind);
        between(
            timing,
            edge,
            since_of(fault, last),
            since,
            self.time_of(edge),
        )
    }

    // The pause since the last cycle of the target.
    fn cycle_pause(self, timings: Timings, clock: Clock) -> Option<Distance>
        requires { AreBounded timings }
        ensures { result ≡ cycle_pause timings clock self }
    {
        let want = timings.cycle_want(clock.has_command, clock.last, self.cycle.kind);
        self.pause_by(clock.last, clock.at, want)
    }

    // The pause since it, where it began work.
    fn busy_pause(self, timings: Timings, clock: Clock) -> Option<Distance>
        requires { AreBounded timings }
        ensures { result ≡ busy_pause timings clock self }
    {
        let kind = self.cycle.kind;
        let pauses = pauses_before(clock.last, clock.is_ready, kind);
        self.pause_by(clock.last, clock.at, timings.pause_want(kind, pauses.busy))
    }

    // The pause since the ready, of data on a target of one LUN.
    fn ready_pause(self, timings: Timings, one_lun: bool, clock: Clock) -> Option<Distance>
        requires { AreBounded timings }
        ensures { result ≡ ready_pause timings one_lun clock self }
    {
        if !one_lun || clock.may_give_status {
            return None;
        }
        let kind = self.cycle.kind;
        let pauses = pauses_before(clock.last, clock.is_ready, kind);
        self.pause_by(
            clock.last,
            clock.ready_at,
            timings.pause_want(kind, pauses.ready),
        )
    }

    /// The pauses of a trace that it ends, on a target of which this is known.
    pub(crate) fn pauses(
        self,
        timings: Timings,
        one_lun: bool,
        clock: Clock,
    ) -> [Option<Distance>; 3]
        requires { AreBounded timings }
        ensures { result ≡ pauses_of timings one_lun clock self }
    {
        [
            self.cycle_pause(timings, clock),
            self.busy_pause(timings, clock),
            self.ready_pause(timings, one_lun, clock),
        ]
    }
}
