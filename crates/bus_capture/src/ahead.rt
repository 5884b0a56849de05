//! How work ended that R/B# shows to be done.
ghost use Rattle.std.specs.Prelude.{◌≡◌, false, List, [], ◌++◌, IfSome, IfNone};
ghost use Rattle.bus_capture.specs.Telling.{no_failures, told_of};
ghost use Rattle.bus_capture.specs.Inferring.{ahead_by, ahead_in, ahead_of, fails_within};

use crate::sampler::{Observation, Observed};
use onfi_cycle::{Cycle, Failures, Item, Kind, Status};

// What is known of the status that a target is asked for next, after something that is seen.
#[derive(Clone, Copy)]
pub(crate) enum Ahead {
    // Nothing yet; whether it was asked for.
    Going(bool),
    // The failures that it tells.
    Known(Failures),
}

/// The failures that a status byte tells: FAIL and FAILC.
pub(crate) fn told_of(byte: u8) -> Failures
    ensures { result ≡ told_of byte }
{
    Failures {
        last: Status(byte).has_failed(),
        before: byte & 2 == 2,
    }
}

fn ahead_by(kind: Kind, asked: bool, byte: u8) -> Ahead
    ensures { result ≡ ahead_by kind asked byte }
{
    match kind {
        Kind::Cmd => {
            if byte == 0x70 {
                Ahead::Going(true)
            } else {
                Ahead::Known(Failures::default())
            }
        }
        Kind::Adr | Kind::Din => Ahead::Going(asked),
        Kind::Dout => {
            if asked {
                Ahead::Known(told_of(byte))
            } else {
                Ahead::Going(asked)
            }
        }
    }
}

fn ahead_in(asked: bool, ce: u8, cycle: Cycle) -> Ahead
    ensures { result ≡ ahead_in asked ce cycle }
{
    if cycle.ce == ce {
        ahead_by(cycle.kind, asked, cycle.byte)
    } else {
        Ahead::Going(asked)
    }
}

fn ahead_of(asked: bool, ce: u8, observation: Observation) -> Ahead
    ensures { result ≡ ahead_of asked ce observation }
{
    match observation {
        Observation::Item(item) => match item {
            Item::Cyc(cycle) => ahead_in(asked, ce, cycle),
            Item::Rdy { .. } | Item::Ard { .. } => Ahead::Going(asked),
        },
        Observation::Released(_) => Ahead::Going(asked),
    }
}

/// The verdict among what is seen later hangs on no more than so much of it.
pub(crate) const MOST_AHEAD: usize = 65_536;

/// What failures the status tells that this target is asked for next, of what is seen later; None where that hangs on what is seen after that. If it isn't
/// asked for, it tells none.
pub(crate) fn fails_ahead(ce: u8, later: &[Observed]) -> Option<Failures>
    ensures some { IfSome result (λ fail. (more : List Observed) → fails_within 65536 false ce (later.now ++ more) ≡ fail) }
    ensures none { IfNone result (fails_within 65536 false ce (later.now ++ []) ≡ no_failures) }
{
    let mut asked = false;
    let mut most = MOST_AHEAD;
    let mut rest = later;
    'rest: while let Some((first, others)) = rest.split_first() {
        if most == 0 {
            return Some(Failures::default());
        }
        match ahead_of(asked, ce, first.observation) {
            Ahead::Known(fail) => return Some(fail),
            Ahead::Going(now) => asked = now,
        }
        most -= 1;
        rest = others;
    }
    None
}
