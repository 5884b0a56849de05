//! What is known of a target.
ghost use Rattle.std.specs.Prelude.{◌≡◌};
ghost use Rattle.edge_timing.specs.Watched.{target_begun, was_enabled, latch_fall, target_after};

use crate::line::Line;
use crate::strobed::Strobed;
use onfi_cycle::Kind;
use trace_timing::Clock;

/// What is known of a target.
#[derive(Clone, Copy, Debug, PartialEq, Eq)]
pub struct TargetEdges {
    /// Its CE#.
    pub enable: Line,
    /// Its cycles, each at the rise of its strobe.
    pub clock: Clock,
    /// When WE# rose at the last of its cycles that are written.
    pub we_rose: Option<u64>,
    /// When RE# rose at its last output.
    pub re_rose: Option<u64>,
}

// CE# was low before that time.
fn was_enabled(fell: Option<u64>, time: Option<u64>) -> bool
    ensures { result ≡ was_enabled fell time }
{
    match (fell, time) {
        (None, _) => true,
        (Some(_), None) => false,
        (Some(fell), Some(time)) => fell < time,
    }
}

impl TargetEdges {
    /// Nothing has been seen of it.
    pub fn new() -> TargetEdges
        ensures { result ≡ target_begun }
    {
        TargetEdges {
            enable: Line::new(),
            clock: Clock::new(),
            we_rose: None,
            re_rose: None,
        }
    }

    /// When a latch fell, if the chip saw it.
    pub(crate) fn latch_fall(&self, latch: Line) -> Option<u64>
        ensures { result ≡ latch_fall self.now latch }
    {
        if was_enabled(self.enable.fell, latch.fell) {
            latch.fell
        } else {
            None
        }
    }

    /// Once a cycle has come.
    pub(crate) fn after(self, strobed: Strobed) -> TargetEdges
        ensures { result ≡ target_after self strobed }
    {
        let Strobed { cycle, rose, .. } = strobed;
        let clock = self.clock.after(cycle.kind, cycle.byte, Some(rose));
        match cycle.kind {
            Kind::Dout => TargetEdges {
                clock,
                re_rose: Some(rose),
                ..self
            },
            Kind::Cmd | Kind::Adr | Kind::Din => TargetEdges {
                clock,
                we_rose: Some(rose),
                ..self
            },
        }
    }
}
