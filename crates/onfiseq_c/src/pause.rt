//! The pauses that a datasheet asks for before a cycle.
ghost use Rattle.std.specs.Prelude.{◌≡◌};
ghost use Rattle.onfiseq_c.specs.Pauses.{before, input_letter, last_of, letter_of, note_code, noted, number_of};

use bus_record::{NO_ITEM, kind_of};
use onfi_cycle::Command;
use onfi_pauses::{LastCycle, Pause, pauses_before};
use target_record::is_set;

/// What came last on a target. `kind` is that of its last cycle, C, A, I or O, 1 to 4 for such a byte of a Set Features, and 0 where none has come; `command` is the byte of its last command, and
/// `ready` is 1 where a ready came after that cycle.
#[repr(C)]
#[derive(Clone, Copy)]
pub struct OnfiseqLast {
    pub kind: u8,
    pub command: u8,
    pub ready: u8,
}

/// The pauses before a cycle, each of them to be kept: since the last cycle by what that was, since it where it began work, and since the ready. 0 is none, 1
/// tADL, 2 tWHR, 3 tCCS, 4 tRHW, 5 tWB and 6 tRR.
#[repr(C)]
#[derive(Clone, Copy)]
pub struct OnfiseqPauses {
    pub cycle: u8,
    pub busy: u8,
    pub ready: u8,
}

// The last cycle that the numbers tell.
fn last_of(last: &OnfiseqLast) -> LastCycle
    ensures { result ≡ last_of last.now }
{
    match last.kind {
        b'C' => LastCycle::Command(Command::of(last.command)),
        b'A' => LastCycle::Address(Command::of(last.command)),
        b'I' => LastCycle::Input,
        b'1'..=b'4' => LastCycle::FeatureByte {
            number: last.kind - b'0',
        },
        b'O' => LastCycle::Output,
        _ => LastCycle::Nothing,
    }
}

// The letter of a cycle: a status is an output.
fn letter_of(kind: u8) -> u8
    ensures { result ≡ letter_of kind }
{
    match kind {
        b'S' => b'O',
        _ => kind,
    }
}

// The letter of an input: those behind the address of a Set Features are its four bytes.
fn input_letter(last: &OnfiseqLast) -> u8
    ensures { result ≡ input_letter last.now }
{
    match last.kind {
        b'A' if Command::of(last.command) == Command::SetFeatures => b'1',
        b'1'..=b'3' => last.kind + 1,
        _ => b'I',
    }
}

fn number_of(pause: Option<Pause>) -> u8
    ensures { result ≡ number_of pause }
{
    match pause {
        None => 0,
        Some(Pause::AddressToInput) => 1,
        Some(Pause::ToOutput) => 2,
        Some(Pause::ColumnChange) => 3,
        Some(Pause::OutputToCommand) => 4,
        Some(Pause::ToBusy) => 5,
        Some(Pause::ReadyToOutput) => 6,
    }
}

/// The pauses before a cycle of this kind, C, A, I, O, or S for a status output, by what came last on its target.
#[unsafe(no_mangle)]
pub extern "C" fn onfiseq_pauses_before(last: &OnfiseqLast, kind: u8) -> OnfiseqPauses
    ensures { result ≡ before last.now kind }
{
    let Some(kind) = kind_of(letter_of(kind)) else {
        return OnfiseqPauses {
            cycle: 0,
            busy: 0,
            ready: 0,
        };
    };
    let pauses = pauses_before(last_of(last), is_set(last.ready), kind);
    OnfiseqPauses {
        cycle: number_of(pauses.cycle),
        busy: number_of(pauses.busy),
        ready: number_of(pauses.ready),
    }
}

/// A cycle has come on a target, C, A, I, O, or S, or a ready, R: `byte` is that of a command. 0; or 4900h of another kind, and nothing changes.
#[unsafe(no_mangle)]
pub extern "C" fn onfiseq_note(last: &mut OnfiseqLast, kind: u8, byte: u8) -> u32
    ensures code { result ≡ note_code (letter_of kind) }
    ensures noted { last.new ≡ noted last.old (letter_of kind) byte }
{
    match letter_of(kind) {
        b'C' => {
            *last = OnfiseqLast {
                kind: b'C',
                command: byte,
                ready: 0,
            };
            0
        }
        b'R' => {
            last.ready = 1;
            0
        }
        b'I' => {
            last.kind = input_letter(last);
            last.ready = 0;
            0
        }
        letter if kind_of(letter).is_some() => {
            last.kind = letter;
            last.ready = 0;
            0
        }
        _ => NO_ITEM,
    }
}
