//! The levels on the lines of a bus.
ghost use Rattle.std.specs.Prelude.{◌≡◌, None, true, false};
ghost use Rattle.bus_lines.specs.Lines.{is_output, idle, set_up, struck, released, at_rest, lines_after};
ghost use Rattle.bus_lines.specs.Sampling.{written_kind, carried, sampled};

use onfi_cycle::{Cycle, Item, Kind};

/// The levels on the lines of a bus.
#[derive(Clone, Copy, Debug, PartialEq, Eq)]
pub struct Lines {
    /// The chip enable that is low, if one is.
    pub enabled: Option<u8>,
    /// CLE is high.
    pub cle: bool,
    /// ALE is high.
    pub ale: bool,
    /// WE# is high.
    pub we: bool,
    /// RE# is high.
    pub re: bool,
    /// The byte on DQ, None while nobody has driven it.
    pub dq: Option<u8>,
}

// The die drives the bus in this cycle.
#[inline(always)]
fn is_output(cycle: Cycle) -> bool
    ensures { result ≡ is_output cycle }
{
    matches!(cycle.kind, Kind::Dout)
}

impl Lines {
    /// Nothing is enabled, and nobody has driven the bus.
    #[inline(always)]
    pub fn idle() -> Lines
        ensures { result ≡ idle }
    {
        Lines {
            enabled: None,
            cle: false,
            ale: false,
            we: true,
            re: true,
            dq: None,
        }
    }

    /// A cycle is set up: its target is enabled, CLE and ALE tell its kind, and what goes to the die stands on DQ.
    #[inline(always)]
    pub fn set_up(self, cycle: Cycle) -> Lines
        ensures { result ≡ set_up self cycle }
    {
        Lines {
            enabled: Some(cycle.ce),
            cle: matches!(cycle.kind, Kind::Cmd),
            ale: matches!(cycle.kind, Kind::Adr),
            dq: if is_output(cycle) {
                self.dq
            } else {
                Some(cycle.byte)
            },
            ..self
        }
    }

    /// Its strobe is low: WE#, or RE# for an output, whose byte the die then drives.
    #[inline(always)]
    pub fn struck(self, cycle: Cycle) -> Lines
        ensures { result ≡ struck self cycle }
    {
        if is_output(cycle) {
            Lines {
                re: false,
                dq: Some(cycle.byte),
                ..self
            }
        } else {
            Lines { we: false, ..self }
        }
    }

    /// Both strobes are high.
    #[inline(always)]
    pub fn released(self) -> Lines
        ensures { result ≡ released self }
    {
        Lines {
            we: true,
            re: true,
            ..self
        }
    }

    /// What an item leaves of the lines: a ready isn't seen on them.
    #[inline(always)]
    pub fn after(self, item: Item) -> Lines
        ensures { result ≡ lines_after self item }
    {
        match item {
            Item::Cyc(cycle) => self.set_up(cycle).struck(cycle).released(),
            Item::Rdy { .. } | Item::Ard { .. } => self,
        }
    }

    /// Nothing is enabled any more; the other lines keep their levels.
    #[inline(always)]
    pub fn at_rest(self) -> Lines
        ensures { result ≡ at_rest self }
    {
        Lines {
            enabled: None,
            ..self
        }
    }

    // What CLE and ALE tell of a cycle that is written.
    fn written_kind(self) -> Kind
        ensures { result ≡ written_kind self }
    {
        if self.cle {
            Kind::Cmd
        } else if self.ale {
            Kind::Adr
        } else {
            Kind::Din
        }
    }

    // The cycle of this kind that the lines carry; None where no chip is enabled or nobody has driven the bus.
    fn carried(self, kind: Kind) -> Option<Cycle>
        ensures { result ≡ carried self kind }
    {
        match (self.enabled, self.dq) {
            (Some(ce), Some(byte)) => Some(Cycle { ce, kind, byte }),
            (None, _) | (_, None) => None,
        }
    }

    /// The cycle that is sampled where these lines become those: a strobe has risen, and the levels before tell what it was. None where no strobe has
    /// risen, no chip was enabled or nobody had driven the bus.
    pub fn sampled(self, after: Lines) -> Option<Cycle>
        ensures { result ≡ sampled self after }
    {
        if !self.we && after.we {
            self.carried(self.written_kind())
        } else if !self.re && after.re {
            self.carried(Kind::Dout)
        } else {
            None
        }
    }
}
