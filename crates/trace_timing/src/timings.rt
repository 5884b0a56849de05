//! How long the pauses are, and what a pair of cycles wants.
ghost use Rattle.std.specs.Prelude.{◌≡◌, ◌<◌, ◌^◌, IfSome};
ghost use Rattle.trace_timing.specs.Wanted.{AreBounded, want_of, want_of_strobe, is_known, cycle_want, pause_want};

use crate::timing_fault::TimingFault;
use onfi_cycle::Kind;
use onfi_pauses::{LastCycle, Pause, pauses_before};

/// The least times of a chip or of a timing mode, each in femtoseconds and below 2 to the 62.
#[derive(Clone, Copy, Debug, PartialEq, Eq)]
pub struct Timings {
    pub t_adl: u64,
    pub t_whr: u64,
    pub t_ccs: u64,
    pub t_rhw: u64,
    pub t_rr: u64,
    pub t_wb: u64,
    pub t_wc: u64,
    pub t_rc: u64,
    pub t_wp: u64,
    pub t_rp: u64,
}

/// What is wanted between two cycles: a least time in femtoseconds, and what is told where it isn't kept.
#[derive(Clone, Copy, Debug, PartialEq, Eq)]
pub struct Want {
    pub fault: TimingFault,
    pub least: u64,
}

// A time before the data of an address that is of no known command isn't known.
fn is_known(has_command: bool, pause: Pause) -> bool
    ensures { result ≡ is_known has_command pause }
{
    match pause {
        Pause::AddressToInput => has_command,
        Pause::ToOutput
        | Pause::ColumnChange
        | Pause::OutputToCommand
        | Pause::ToBusy
        | Pause::ReadyToOutput => true,
    }
}

impl Timings {
    // What a pause before a cycle of this kind wants.
    fn want_of(self, pause: Pause, kind: Kind) -> Want
        requires { AreBounded self }
        ensures want { result ≡ want_of self pause kind }
        ensures bounded { result.least < 2 ^ 63 }
    {
        let (fault, least) = match pause {
            Pause::AddressToInput => (TimingFault::AddressToInput, self.t_adl),
            Pause::ToOutput => (TimingFault::ToOutput, self.t_whr + self.t_rp),
            Pause::ColumnChange => match kind {
                Kind::Dout => (TimingFault::ColumnChange, self.t_ccs + self.t_rp),
                Kind::Cmd | Kind::Adr | Kind::Din => (TimingFault::ColumnChange, self.t_ccs),
            },
            Pause::OutputToCommand => (TimingFault::OutputToCommand, self.t_rhw + self.t_wp),
            Pause::ToBusy => (TimingFault::ToBusy, self.t_wb),
            Pause::ReadyToOutput => (TimingFault::ReadyToOutput, self.t_rr + self.t_rp),
        };
        Want { fault, least }
    }

    // Where there is no pause, the period of the strobe.
    fn want_of_strobe(self, kind: Kind) -> Want
        requires { AreBounded self }
        ensures want { result ≡ want_of_strobe self kind }
        ensures bounded { result.least < 2 ^ 63 }
    {
        match kind {
            Kind::Dout => Want {
                fault: TimingFault::ReadCycle,
                least: self.t_rc,
            },
            Kind::Cmd | Kind::Adr | Kind::Din => Want {
                fault: TimingFault::WriteCycle,
                least: self.t_wc,
            },
        }
    }

    /// What is wanted since the last cycle of the target, beside tWB; nothing before its first cycle.
    pub fn cycle_want(self, has_command: bool, last: LastCycle, kind: Kind) -> Option<Want>
        requires { AreBounded self }
        ensures want { result ≡ cycle_want self has_command last kind }
        ensures bounded { IfSome result (λ w. w.least < 2 ^ 63) }
    {
        match (last, pauses_before(last, false, kind).cycle) {
            (_, Some(pause)) if is_known(has_command, pause) => Some(self.want_of(pause, kind)),
            (_, Some(_)) => Some(self.want_of_strobe(kind)),
            (LastCycle::Nothing, None) => None,
            (
                LastCycle::Command(_)
                | LastCycle::Address(_)
                | LastCycle::Input
                | LastCycle::FeatureByte { .. }
                | LastCycle::Output,
                None,
            ) => Some(self.want_of_strobe(kind)),
        }
    }

    /// What a pause wants, if there is one.
    pub fn pause_want(self, kind: Kind, pause: Option<Pause>) -> Option<Want>
        requires { AreBounded self }
        ensures want { result ≡ pause_want self kind pause }
        ensures bounded { IfSome result (λ w. w.least < 2 ^ 63) }
    {
        match pause {
            None => None,
            Some(pause) => Some(self.want_of(pause, kind)),
        }
    }
}
