//! What a signal is called: its name as a number, and what that tells.
ghost use Rattle.std.specs.Prelude.{◌≡◌, ◌==◌, ◌+◌, ◌*◌, ◌/◌, ◌%◌, ◌<◌, nat_lt, IfSome};
ghost use Rattle.vcd_text.specs.Tokens.{is_digit};
ghost use Rattle.bus_signals.specs.Names.{is_separator, lower, may_go_on, plain_after, plain_of, digit_of, stem_of, is_low_mark, is_enable, is_we, is_re, is_dq, is_ready_busy, low_family_of, family_of, bare, marked, model_family_of, of_model, is_other, named, number_of, is_data_strobe};

// The names below, each as its characters one after the other.
// `ce`
const CE: u64 = 0x6365;
// `nce`
const NCE: u64 = 0x6e_6365;
// `cle`
const CLE: u64 = 0x63_6c65;
// `ale`
const ALE: u64 = 0x61_6c65;
// `we`
const WE: u64 = 0x7765;
// `nwe`
const NWE: u64 = 0x6e_7765;
// `re`
const RE: u64 = 0x7265;
// `nre`
const NRE: u64 = 0x6e_7265;
// `dq`
const DQ: u64 = 0x6471;
// `io`
const IO: u64 = 0x696f;
// `d`
const D: u64 = 0x64;
// `data`
const DATA: u64 = 0x6461_7461;
// `rb`
const RB: u64 = 0x7262;
// `nrb`
const NRB: u64 = 0x6e_7262;
// `rnb`
const RNB: u64 = 0x72_6e62;
// `ryby`
const RYBY: u64 = 0x7279_6279;
// `rdybsy`
const RDYBSY: u64 = 0x7264_7962_7379;
// `ready`
const READY: u64 = 0x72_6561_6479;
// `busy`
const BUSY: u64 = 0x6275_7379;
// `array`
const ARRAY: u64 = 0x61_7272_6179;
// `fail`
const FAIL: u64 = 0x6661_696c;

// `dqs`
const DQS: u64 = 0x64_7173;
// `dqst`
const DQS_TRUE: u64 = 0x6471_7374;
// `dqsp`
const DQS_POSITIVE: u64 = 0x6471_7370;

/// What a signal is, by its name.
#[derive(Clone, Copy, Debug, PartialEq, Eq)]
pub enum Family {
    Enable,
    Cle,
    Ale,
    We,
    Re,
    Dq,
    ReadyBusy,
    Busy,
    ArrayBusy,
    Failed,
    Other,
}

impl Family {
    pub(crate) fn number(self) -> u8
        ensures { result ≡ number_of self }
    {
        match self {
            Family::Enable => 0,
            Family::Cle => 1,
            Family::Ale => 2,
            Family::We => 3,
            Family::Re => 4,
            Family::Dq => 5,
            Family::ReadyBusy => 6,
            Family::Busy => 7,
            Family::ArrayBusy => 8,
            Family::Failed => 9,
            Family::Other => 10,
        }
    }

    fn is_other(self) -> bool
        ensures { result ≡ is_other self }
    {
        matches!(self, Family::Other)
    }
}

/// What a name tells: what the signal is, the number that its name has, if it has one, and a second number, that of a LUN.
#[derive(Clone, Copy, Debug, PartialEq, Eq)]
pub struct Meaning {
    pub family: Family,
    pub number: Option<u64>,
    pub lun: Option<u64>,
}

// What stands in a name to separate: `/`, `#`, `_`, `-` and a backslash.
fn is_separator(byte: u8) -> bool
    ensures { result ≡ is_separator byte }
{
    byte == b'/' || byte == b'#' || byte == b'_' || byte == b'-' || byte == b'\\'
}

fn lower(byte: u8) -> u8
    ensures { result ≡ lower byte }
{
    if byte >= b'A' && byte <= b'Z' {
        byte + 32
    } else {
        byte
    }
}

fn may_go_on(number: u64) -> bool
    ensures { result ≡ may_go_on number }
{
    number < 72_057_594_037_927_936
}

// A name with one character more; None where it is too long to be one of ours.
fn plain_after(number: Option<u64>, byte: u8) -> Option<u64>
    ensures { result ≡ plain_after number byte }
{
    let so_far = number?;
    if is_separator(byte) {
        Some(so_far)
    } else if may_go_on(so_far) {
        Some(256 * so_far + u64::from(lower(byte)))
    } else {
        None
    }
}

/// A name as a number: in lower case, without what separates, and up to a bracket; 0 where it has more than eight characters.
pub fn plain_of(name: &[u8]) -> u64
    ensures { result ≡ plain_of name.now }
{
    let mut number = Some(0);
    for byte in name {
        if *byte == b'[' {
            return number.unwrap_or(0);
        }
        number = plain_after(number, *byte);
    }
    number.unwrap_or(0)
}

// The digit at the end of a name.
fn digit_of(plain: u64) -> Option<u64>
    ensures { result ≡ digit_of plain }
{
    let last = plain % 256;
    if last >= 48 && last <= 57 {
        Some(last - 48)
    } else {
        None
    }
}

// A name without the digit at its end.
fn stem_of(plain: u64) -> u64
    ensures { result ≡ stem_of plain }
{
    match digit_of(plain) {
        Some(_) => plain / 256,
        None => plain,
    }
}

// n, b and l at the end of a name say that its signal is active when it is low.
fn is_low_mark(last: u64) -> bool
    ensures { result ≡ is_low_mark last }
{
    last == 110 || last == 98 || last == 108
}

fn is_enable(stem: u64) -> bool
    ensures { result ≡ is_enable stem }
{
    stem == CE || stem == NCE
}

fn is_we(stem: u64) -> bool
    ensures { result ≡ is_we stem }
{
    stem == WE || stem == NWE
}

fn is_re(stem: u64) -> bool
    ensures { result ≡ is_re stem }
{
    stem == RE || stem == NRE
}

fn is_dq(stem: u64) -> bool
    ensures { result ≡ is_dq stem }
{
    stem == DQ || stem == IO || stem == D || stem == DATA
}

fn is_ready_busy(stem: u64) -> bool
    ensures { result ≡ is_ready_busy stem }
{
    stem == RB || stem == NRB || stem == RNB || stem == RYBY || stem == RDYBSY || stem == READY
}

// What is active when it is low.
fn low_family_of(stem: u64) -> Family
    ensures { result ≡ low_family_of stem }
{
    if is_enable(stem) {
        return Family::Enable;
    }
    if is_we(stem) {
        return Family::We;
    }
    if is_re(stem) {
        return Family::Re;
    }
    if is_ready_busy(stem) {
        return Family::ReadyBusy;
    }
    Family::Other
}

fn family_of(stem: u64) -> Family
    ensures { result ≡ family_of stem }
{
    if stem == CLE {
        return Family::Cle;
    }
    if stem == ALE {
        return Family::Ale;
    }
    if is_dq(stem) {
        return Family::Dq;
    }
    low_family_of(stem)
}

// A name without a mark: `cle`, `ce0`, `nce0`, `dq7`.
fn bare(plain: u64) -> Meaning
    ensures { result ≡ bare plain }
{
    Meaning {
        family: family_of(stem_of(plain)),
        number: digit_of(plain),
        lun: None,
    }
}

// One with a mark at its end, before or after its number: `cen`, `cen0`, `ce0n`.
fn marked(plain: u64) -> Meaning
    ensures { result ≡ marked plain }
{
    let stem = stem_of(plain);
    let inner = stem / 256;
    if !is_low_mark(stem % 256) {
        return Meaning {
            family: Family::Other,
            number: None,
            lun: None,
        };
    }
    match digit_of(plain) {
        Some(number) => Meaning {
            family: low_family_of(inner),
            number: Some(number),
            lun: None,
        },
        None => Meaning {
            family: low_family_of(stem_of(inner)),
            number: digit_of(inner),
            lun: None,
        },
    }
}

fn model_family_of(stem: u64) -> Family
    ensures { result ≡ model_family_of stem }
{
    if stem == BUSY {
        return Family::Busy;
    }
    if stem == ARRAY {
        return Family::ArrayBusy;
    }
    if stem == FAIL {
        return Family::Failed;
    }
    Family::Other
}

// One of ours, of a LUN: `busy0_1`.
fn of_model(plain: u64) -> Meaning
    ensures { result ≡ of_model plain }
{
    Meaning {
        family: model_family_of(plain / 65536),
        number: digit_of(plain / 256),
        lun: digit_of(plain),
    }
}

/// What a name tells, given as a number.
pub fn named(plain: u64) -> Meaning
    ensures { result ≡ named plain }
{
    let bare = bare(plain);
    if !bare.family.is_other() {
        return bare;
    }
    let marked = marked(plain);
    if !marked.family.is_other() {
        return marked;
    }
    of_model(plain)
}

/// A signal of this name is the data strobe of a bus of double data rate, `DQS` or `DQS_t`.
pub fn is_data_strobe(name: &[u8]) -> bool
    ensures { result ≡ is_data_strobe (plain_of name.now) }
{
    let plain = plain_of(name);
    plain == DQS || plain == DQS_TRUE || plain == DQS_POSITIVE
}
