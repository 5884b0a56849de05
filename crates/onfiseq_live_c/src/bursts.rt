//! Going on with a target of a channel by bursts, as far as no rule is broken.
ghost use Rattle.std.specs.Prelude.{◌≡◌, ◌<◌, true, Some, None, IfSome, IfNone};
ghost use Rattle.micro_program.specs.Moves.{part};
ghost use Rattle.onfi_cycle.specs.Channel.{cycle};
ghost use Rattle.seq_core.specs.Playing.{EndsWithFive};
ghost use Rattle.seq_live.specs.Burst.{bursts_at};
ghost use Rattle.bus_record.specs.Bus.{IsSound, bus_view};
ghost use Rattle.bus_record.specs.Trial.{IsTried, tried_view};
ghost use Rattle.onfiseq_live_c.specs.Bursts.{PollsOne, target_of, AllOn, judged_addresses, after_addresses, judged_burst, after_burst, judged_bursts, after_bursts};
ghost use Rattle.onfiseq_live_c.specs.Job.{lun_in, registers_in};

use crate::job::OnfiseqJob;
use bus_record::{OnfiseqBus, OnfiseqTarget, geometry_of, try_inputs, try_item, try_outputs};
use micro_word::Word;
use onfi_cycle::{Cycle, Forbidden, Item, Kind};
use seq_live::{Burst, Bursts, bursts_of, bursts_without_row, is_poll};

/// The bursts of a word of a job, None where the row of its address isn't there.
pub(crate) fn bursts_for(bus: &OnfiseqBus, job: &OnfiseqJob, word: Word) -> Option<Bursts>
    requires sound { IsSound bus.now }
    requires there { job.now.ce < bus.now.count }
    requires range { EndsWithFive word }
    ensures some { IfSome result (λ bursts. bursts_at (bus_view bus.now).geometry (lun_in job.now) (registers_in job.now) word ≡ Some bursts.items) }
    ensures none { IfNone result (bursts_at (bus_view bus.now).geometry (lun_in job.now) (registers_in job.now) word ≡ None) }
{
    let (on, registers) = (job.on(), job.registers());
    if let Some(bursts) = bursts_without_row(bus.geometry.luns, on, registers, word) {
        return Some(bursts);
    }
    match geometry_of(bus) {
        None => unreachable!(),
        Some(geometry) => bursts_of(&geometry, on, registers, word),
    }
}

// A cycle on a target.
#[inline(always)]
fn cycle(ce: u8, kind: Kind, byte: u8) -> Item
    ensures { result ≡ cycle ce kind byte }
{
    Item::Cyc(Cycle { ce, kind, byte })
}

// Goes on by address cycles.
fn try_addresses(
    bus: &OnfiseqBus,
    kept: &mut OnfiseqTarget,
    ce: u8,
    bytes: &[u8],
) -> Option<Forbidden>
    requires { IsTried bus.now ce kept.old }
    ensures rule { result ≡ judged_addresses ce bytes.now (tried_view bus.now ce kept.old) }
    ensures state { result ≡ None → tried_view bus.now ce kept.new ≡ after_addresses ce bytes.now (tried_view bus.now ce kept.old) }
    ensures tried { IsTried bus.now ce kept.new }
{
    match bytes {
        [] => None,
        [first, rest @ ..] => match try_item(bus, kept, cycle(ce, Kind::Adr, *first)) {
            Some(rule) => Some(rule),
            None => try_addresses(bus, kept, ce, rest),
        },
    }
}

// The bytes of an address burst.
fn address_bytes(five: &[u8; 5], from: u8, count: u8) -> &[u8]
    ensures { result.now ≡ part from count five.now }
{
    let (_, rest) = five.split_at(usize::from(from.min(5)));
    let (bytes, _) = rest.split_at(usize::from(count).min(rest.len()));
    bytes
}

// Goes on by a burst of its target.
#[inline(always)]
fn try_burst(bus: &OnfiseqBus, kept: &mut OnfiseqTarget, burst: Burst) -> Option<Forbidden>
    requires { IsTried bus.now (target_of burst) kept.old }
    ensures rule { result ≡ judged_burst burst (tried_view bus.now (target_of burst) kept.old) }
    ensures state { result ≡ None → tried_view bus.now (target_of burst) kept.new ≡ after_burst burst (tried_view bus.now (target_of burst) kept.old) }
    ensures tried { IsTried bus.now (target_of burst) kept.new }
{
    match burst {
        Burst::Command { ce, byte } => try_item(bus, kept, cycle(ce, Kind::Cmd, byte)),
        Burst::Address {
            ce,
            five,
            from,
            count,
        } => try_addresses(bus, kept, ce, address_bytes(&five, from, count)),
        Burst::Input { ce, len, .. } => try_inputs(bus, kept, ce, len),
        Burst::Output { ce, len } => try_outputs(bus, kept, ce, len),
    }
}

/// Whether a word is a status poll by 70h, as it is on a target of one LUN.
#[inline(always)]
pub(crate) fn polls_one(bus: &OnfiseqBus, word: Word) -> bool
    ensures { result ≡ true → PollsOne (bus_view bus.now).geometry word }
{
    is_poll(word) && bus.geometry.luns == 1
}

/// Goes on by bursts of a target one after another, up to the first that breaks a rule.
pub(crate) fn try_bursts(
    bus: &OnfiseqBus,
    kept: &mut OnfiseqTarget,
    ce: u8,
    bursts: &[Burst],
) -> Option<Forbidden>
    requires on { AllOn ce bursts.now }
    requires tried { IsTried bus.now ce kept.old }
    ensures rule { result ≡ judged_bursts bursts.now (tried_view bus.now ce kept.old) }
    ensures state { result ≡ None → tried_view bus.now ce kept.new ≡ after_bursts bursts.now (tried_view bus.now ce kept.old) }
    ensures tried { IsTried bus.now ce kept.new }
{
    match bursts {
        [] => None,
        [first, rest @ ..] => match try_burst(bus, kept, *first) {
            Some(rule) => Some(rule),
            None => try_bursts(bus, kept, ce, rest),
        },
    }
}
