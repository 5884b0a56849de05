//! An operation of a trace: what its items are together.
ghost use Rattle.std.specs.Prelude.{◌≡◌};
ghost use Rattle.trace_ops.specs.Operation.{begun, opener_of, is_byte, is_unknown, closes_as_known, selects_column, is_foreign_opener, is_foreign_closer, has_other_address, is_foreign, is_alone, is_open_program, is_open_read, one_more, closer_after, takes_address, with_address, with_byte, is_output, noted, with_end, says_ready, with_status, with_poll, is_permitted, is_clean};

use onfi_cycle::{Command, Kind, PageAddress};
use trace_faults::Verdict;

/// How an operation begins.
#[derive(Clone, Copy, Debug, PartialEq, Eq)]
pub enum Beginning {
    /// With this command.
    Opener(u8),
    /// Its beginning stands before the recording.
    Cut,
    /// It is a ready that belongs to no work.
    Ready,
}

/// How the work of an operation ended, at which item.
#[derive(Clone, Copy, Debug, PartialEq, Eq)]
pub enum Ending {
    /// A ready of the trace ended it.
    Ready { at: usize, failed: bool },
    /// A status output shows that it was over.
    Shown { at: usize, failed: bool },
    /// An item needs its LUN, which nothing had shown ready.
    NotShown { at: usize },
    /// More work began on its LUN.
    Abandoned { at: usize },
}

/// Of each target its cycles from one that begins a sequence to the next, with the readies, the outputs and the polls that belong to them. Items are
/// numbered from 0.
#[derive(Clone, Copy, Debug, PartialEq, Eq)]
pub struct Operation {
    pub ce: u8,
    /// The LUN that works, drives the bus, or is asked for its status.
    pub lun: Option<u8>,
    pub beginning: Beginning,
    /// Its first addresses before another command or an input.
    pub addresses: [u8; 5],
    pub address_count: u8,
    /// Neither another command nor an input has come.
    pub is_addressed: bool,
    /// The first command in it that is neither its opener nor 85h.
    pub closer: Option<u8>,
    pub inputs: u64,
    pub outputs: u64,
    /// How many status bytes of its LUN came up to the first that says ready.
    pub polls: u64,
    /// The item with which its work began.
    pub start: Option<usize>,
    pub end: Option<Ending>,
    /// The last status byte that said busy.
    pub last_busy: Option<usize>,
    /// The first status byte that said ready.
    pub status: Option<u8>,
    /// The last status byte that it asked for.
    pub shown: Option<u8>,
    /// The page that its outputs give.
    pub held: Option<PageAddress>,
    /// The operation of which it is a part: a poll, or a return to the data.
    pub parent: Option<usize>,
    pub first: usize,
    pub last: usize,
    /// Its last cycle that is no output was permitted.
    pub is_permitted: bool,
    /// Nothing in it is a fault, or was taken for granted.
    pub is_clean: bool,
}

/// The item is permitted where it stands.
pub(crate) fn is_permitted(said: Verdict) -> bool
    ensures { result ≡ is_permitted said }
{
    match said {
        Verdict::Permitted | Verdict::NotShown(_) => true,
        Verdict::PassedOver | Verdict::Granted(_) | Verdict::Broken(_) => false,
    }
}

// Neither a fault nor taken for granted.
fn is_clean(said: Verdict) -> bool
    ensures { result ≡ is_clean said }
{
    match said {
        Verdict::Permitted | Verdict::PassedOver | Verdict::NotShown(_) => true,
        Verdict::Granted(_) | Verdict::Broken(_) => false,
    }
}

/// The byte of an opener.
pub(crate) fn opener_of(beginning: Beginning) -> Option<u8>
    ensures { result ≡ opener_of beginning }
{
    match beginning {
        Beginning::Opener(byte) => Some(byte),
        Beginning::Cut | Beginning::Ready => None,
    }
}

/// It is this byte.
pub(crate) fn is_byte(found: Option<u8>, byte: u8) -> bool
    ensures { result ≡ is_byte found byte }
{
    match found {
        None => false,
        Some(other) => other == byte,
    }
}

/// A command that isn't one of the base profile.
pub(crate) fn is_unknown(byte: u8) -> bool
    ensures { result ≡ is_unknown byte }
{
    !Command::of(byte).is_of_base()
}

/// 15h, 32h and 35h close a sequence as 10h and 30h do.
pub(crate) fn closes_as_known(byte: u8) -> bool
    ensures { result ≡ closes_as_known byte }
{
    byte == 0x15 || byte == 0x32 || byte == 0x35
}

// 06h gives a column to the LUN that it names, as 05h does to the one that drives.
fn selects_column(byte: u8) -> bool
    ensures { result ≡ selects_column byte }
{
    byte == 0x06
}

fn is_foreign_opener(opener: Option<u8>) -> bool
    ensures { result ≡ is_foreign_opener opener }
{
    match opener {
        None => false,
        Some(byte) => (is_unknown(byte) && !selects_column(byte)) || byte == 0x85,
    }
}

fn is_foreign_closer(closer: Option<u8>) -> bool
    ensures { result ≡ is_foreign_closer closer }
{
    match closer {
        None => false,
        Some(byte) => closes_as_known(byte),
    }
}

// One more, as far as there are numbers.
fn one_more(number: u64) -> u64
    ensures { result ≡ one_more number }
{
    number.saturating_add(1)
}

/// The target gives a byte.
pub(crate) fn is_output(kind: Kind) -> bool
    ensures { result ≡ is_output kind }
{
    match kind {
        Kind::Dout => true,
        Kind::Cmd | Kind::Adr | Kind::Din => false,
    }
}

/// A status byte says ready: bit 6.
pub(crate) fn says_ready(byte: u8) -> bool
    ensures { result ≡ says_ready byte }
{
    byte >= 64 && (byte < 128 || byte >= 192)
}

impl Operation {
    /// With its first item alone, and nothing of it.
    pub(crate) fn begun(ce: u8, first: usize, beginning: Beginning) -> Operation
        ensures { result ≡ begun ce first beginning }
    {
        Operation {
            ce,
            lun: None,
            beginning,
            addresses: [0; 5],
            address_count: 0,
            is_addressed: true,
            closer: None,
            inputs: 0,
            outputs: 0,
            polls: 0,
            start: None,
            end: None,
            last_busy: None,
            status: None,
            shown: None,
            held: None,
            parent: None,
            first,
            last: first,
            is_permitted: true,
            is_clean: true,
        }
    }

    /// Its opener.
    pub fn opener(self) -> Option<u8>
        ensures { result ≡ opener_of self.beginning }
    {
        opener_of(self.beginning)
    }

    // 90h or ECh with an address that the profile hasn't.
    fn has_other_address(self) -> bool
        ensures { result ≡ has_other_address self }
    {
        let opener = self.opener();
        let first = self.addresses[0];
        0 < self.address_count
            && ((is_byte(opener, 0x90) && first != 0x20) || (is_byte(opener, 0xec) && first != 0))
    }

    /// A sequence that the model doesn't know.
    pub fn is_foreign(self) -> bool
        ensures { result ≡ is_foreign self }
    {
        is_foreign_opener(self.opener())
            || is_foreign_closer(self.closer)
            || self.has_other_address()
    }

    /// 00h without an address.
    pub fn is_alone(self) -> bool
        ensures { result ≡ is_alone self }
    {
        is_byte(self.opener(), 0) && self.address_count == 0 && self.closer.is_none()
    }

    /// An 80h or an 85h that no command has closed.
    pub(crate) fn is_open_program(self) -> bool
        ensures { result ≡ is_open_program self }
    {
        (is_byte(self.opener(), 0x80) || is_byte(self.opener(), 0x85)) && self.closer.is_none()
    }

    /// It is a 00h with its five addresses that no command has closed.
    pub(crate) fn is_open_read(self) -> bool
        ensures { result ≡ is_open_read self }
    {
        is_byte(self.opener(), 0) && self.address_count == 5 && self.closer.is_none()
    }

    // Its closer, once this command has come.
    fn closer_after(self, byte: u8) -> Option<u8>
        ensures { result ≡ closer_after self byte }
    {
        if self.closer.is_some() || byte == 0x85 || is_byte(self.opener(), byte) {
            self.closer
        } else {
            Some(byte)
        }
    }

    // An address that comes is one of its first.
    fn takes_address(self) -> bool
        ensures { result ≡ takes_address self }
    {
        self.is_addressed && self.address_count < 5
    }

    // With one address more.
    fn with_address(self, byte: u8) -> Operation
        ensures { result ≡ with_address byte self }
    {
        if !self.takes_address() {
            return self;
        }
        let mut addresses = self.addresses;
        addresses[usize::from(self.address_count)] = byte;
        Operation {
            addresses,
            address_count: self.address_count + 1,
            ..self
        }
    }

    // With the byte of a cycle.
    fn with_byte(self, kind: Kind, byte: u8) -> Operation
        ensures { result ≡ with_byte kind byte self }
    {
        match kind {
            Kind::Cmd => Operation {
                closer: self.closer_after(byte),
                is_addressed: false,
                ..self
            },
            Kind::Adr => self.with_address(byte),
            Kind::Din => Operation {
                inputs: one_more(self.inputs),
                is_addressed: false,
                ..self
            },
            Kind::Dout => Operation {
                outputs: one_more(self.outputs),
                ..self
            },
        }
    }

    // With an item of this number, of which this is said.
    pub(crate) fn noted(self, item: usize, said: Verdict, output: bool) -> Operation
        ensures { result ≡ noted item said output self }
    {
        Operation {
            last: item,
            is_permitted: if output {
                self.is_permitted
            } else {
                is_permitted(said)
            },
            is_clean: self.is_clean && is_clean(said),
            ..self
        }
    }

    // With a cycle.
    pub(crate) fn with_cycle(self, item: usize, kind: Kind, byte: u8, said: Verdict) -> Operation
        ensures { result ≡ noted item said (is_output kind) (with_byte kind byte self) }
    {
        self.with_byte(kind, byte)
            .noted(item, said, is_output(kind))
    }

    // Ended so, where it hasn't ended yet.
    pub(crate) fn with_end(self, end: Ending) -> Operation
        ensures { result ≡ with_end end self }
    {
        if self.end.is_some() {
            self
        } else {
            Operation {
                end: Some(end),
                ..self
            }
        }
    }

    // With a status byte that is a poll of it.
    fn with_status(self, item: usize, byte: u8) -> Operation
        ensures { result ≡ with_status item byte self }
    {
        let polls = one_more(self.polls);
        if says_ready(byte) {
            return Operation {
                polls,
                status: Some(byte),
                ..self
            };
        }
        let last_busy = if self.end.is_some() {
            self.last_busy
        } else {
            Some(item)
        };
        Operation {
            polls,
            last_busy,
            ..self
        }
    }

    // With a status byte of its LUN.
    pub(crate) fn with_poll(self, item: usize, byte: u8) -> Operation
        ensures { result ≡ with_poll item byte self }
    {
        if self.status.is_some() {
            self
        } else {
            self.with_status(item, byte)
        }
    }
}
