//! Which time bounds the work of an operation.
ghost use Rattle.std.specs.Prelude.{◌≡◌};
ghost use Rattle.busy_times.specs.Overruns.{is_closer, reads_page, programs_page, bound_by, bound_of};

use trace_ops::{Beginning, Operation};
use trace_timing::BusyTime;

// The command that closes a sequence is this one.
fn is_closer(closer: Option<u8>, byte: u8) -> bool
    ensures { result ≡ is_closer closer byte }
{
    match closer {
        None => false,
        Some(other) => other == byte,
    }
}

// The command that closes a 00h reads a page: 30h, 31h or 35h.
fn reads_page(closer: Option<u8>) -> bool
    ensures { result ≡ reads_page closer }
{
    is_closer(closer, 0x30) || is_closer(closer, 0x31) || is_closer(closer, 0x35)
}

// The command that closes a program programs a page: 10h or 15h.
fn programs_page(closer: Option<u8>) -> bool
    ensures { result ≡ programs_page closer }
{
    is_closer(closer, 0x10) || is_closer(closer, 0x15)
}

// The time that bounds the work of a sequence with this opener and this closer.
fn bound_by(opener: u8, closer: Option<u8>) -> Option<BusyTime>
    ensures { result ≡ bound_by opener closer }
{
    if opener == 0x31 || opener == 0x3f || opener == 0xec {
        Some(BusyTime::Read)
    } else if opener == 0x00 && reads_page(closer) {
        Some(BusyTime::Read)
    } else if (opener == 0x80 || opener == 0x85) && programs_page(closer) {
        Some(BusyTime::Program)
    } else if opener == 0x60 && is_closer(closer, 0xd0) {
        Some(BusyTime::Erase)
    } else if opener == 0xff {
        Some(BusyTime::Reset)
    } else if opener == 0xee || opener == 0xef {
        Some(BusyTime::Features)
    } else {
        None
    }
}

/// The time that bounds the work of an operation; none of what begins no work, and of a queued plane, whose times stand elsewhere.
pub(crate) fn bound_of(operation: Operation) -> Option<BusyTime>
    ensures { result ≡ bound_of operation }
{
    match operation.beginning {
        Beginning::Opener(opener) => bound_by(opener, operation.closer),
        Beginning::Cut | Beginning::Ready => None,
    }
}
