use onfi_pauses::{Pause, Pauses};
use seq_live::{Burst, LastOnTarget};
use std::process::Abort;
use std::test::Fail;

// A burst, told by its kind.
#[derive(Clone, Copy)]
enum Sent {
    Command(u8),
    Row,
    Input,
    Output,
}

impl Sent {
    fn burst(self) -> Burst {
        match self {
            Sent::Command(byte) => Burst::Command { ce: 0, byte },
            Sent::Row => Burst::Address {
                ce: 0,
                five: [0; 5],
                from: 2,
                count: 3,
            },
            Sent::Input => Burst::Input {
                ce: 0,
                place: 0,
                len: 4,
            },
            Sent::Output => Burst::Output { ce: 0, len: 4 },
        }
    }
}

// A burst, and the pause that is asked for before it.
type Wanted = (Sent, Option<Pause>);

// A page is read, polled for by 78h, and read again from another column.
const READ: [Wanted; 12] = [
    (Sent::Command(0x00), None),
    (Sent::Row, None),
    (Sent::Command(0x30), None),
    (Sent::Command(0x78), Some(Pause::ToBusy)),
    (Sent::Row, None),
    (Sent::Output, Some(Pause::ToOutput)),
    (Sent::Command(0x00), Some(Pause::OutputToCommand)),
    (Sent::Output, Some(Pause::ToOutput)),
    (Sent::Command(0x05), Some(Pause::OutputToCommand)),
    (Sent::Row, None),
    (Sent::Command(0xe0), None),
    (Sent::Output, Some(Pause::ColumnChange)),
];

// A page is programmed, in two parts, and polled for by 70h.
const PROGRAM: [Wanted; 9] = [
    (Sent::Command(0x80), None),
    (Sent::Row, None),
    (Sent::Input, Some(Pause::AddressToInput)),
    (Sent::Command(0x85), None),
    (Sent::Row, None),
    (Sent::Input, Some(Pause::ColumnChange)),
    (Sent::Command(0x10), None),
    (Sent::Command(0x70), Some(Pause::ToBusy)),
    (Sent::Output, Some(Pause::ToOutput)),
];

// A parameter page begins its work by its address.
const PAGE: [Wanted; 4] = [
    (Sent::Command(0xec), None),
    (Sent::Row, None),
    (Sent::Command(0x70), Some(Pause::ToBusy)),
    (Sent::Output, Some(Pause::ToOutput)),
];

// The one pause among these, if there is one and no more.
fn only(pauses: Pauses) -> Option<Pause> {
    match (pauses.cycle, pauses.busy, pauses.ready) {
        (Some(pause), None, None) | (None, Some(pause), None) | (None, None, Some(pause)) => Some(
            pause,
        ),
        _ => None,
    }
}

// The pauses before these bursts are those that are wanted.
fn are_wanted(bursts: &[Wanted]) -> bool {
    let mut last = LastOnTarget::nothing();
    for (sent, wanted) in bursts {
        let burst = sent.burst();
        if only(last.pauses_before(burst)) != *wanted {
            return false;
        }
        last = last.after(burst);
    }
    true
}

// The pauses before an output behind these commands, once R/B# has shown a ready.
fn pauses_behind_ready(commands: &[u8]) -> Pauses {
    let mut last = LastOnTarget::nothing();
    for command in commands {
        last = last.after(Sent::Command(*command).burst());
    }
    last.after_ready().pauses_before(Sent::Output.burst())
}

#[test]
fn pauses_of_sequences(rt: HostRuntime) -> Result<(), Fail> {
    assert!(&rt; are_wanted(&READ));
    assert!(&rt; are_wanted(&PROGRAM));
    assert!(&rt; are_wanted(&PAGE));
    Ok(())
}

// A ready doesn't take the last cycle's place: where R/B# rises between 70h and its output, tWHR is to be kept as well as tRR.
#[test]
fn pauses_after_a_ready(rt: HostRuntime) -> Result<(), Fail> {
    let pauses = pauses_behind_ready(&[0x30, 0x70]);
    assert!(&rt;
        pauses.cycle == Some(Pause::ToOutput) && pauses.ready == Some(Pause::ReadyToOutput)
    );
    assert!(&rt; pauses.busy.is_none());
    Ok(())
}
