//! What single words of a dump say.
ghost use Rattle.std.specs.Prelude.{◌≡◌, ◌+◌, ◌*◌, ◌<◌, ◌≤◌, ◌^◌, length, nat_lt};
ghost use Rattle.vcd_text.specs.Tokens.{is_named, is_digit, decimal_from, decimal, code_from, code_of, level_of, is_known, are_bits, unit_after, scale_after, scale_from, is_whole};

/// The level of a line.
#[derive(Clone, Copy, Debug, PartialEq, Eq)]
pub enum Level {
    Low,
    High,
    /// It is x or z.
    Unknown,
}

// How far a timescale is read.
#[derive(Clone, Copy)]
pub(crate) enum Scale {
    Start,
    One,
    Ten,
    Hundred,
    Prefix,
    Whole,
    Wrong,
}

pub(crate) fn is_named(word: &[u8], text: &str) -> bool
    ensures { result ≡ is_named word.now text.now }
{
    word == text.as_bytes()
}

#[inline(always)]
pub(crate) fn is_digit(byte: u8) -> bool
    ensures { result ≡ is_digit byte }
{
    byte >= b'0' && byte <= b'9'
}

/// The decimal number that a word is, of 19 digits at most; zeros in front don't count.
pub fn decimal(word: &[u8]) -> Option<u64>
    ensures { result ≡ decimal word.now }
{
    if word.is_empty() {
        return None;
    }
    let mut number = 0u64;
    for byte in word {
        if !is_digit(*byte) || number >= 1_000_000_000_000_000_000 {
            return None;
        }
        number = 10 * number + u64::from(*byte - b'0');
    }
    Some(number)
}

// A code with this number may go on.
#[inline(always)]
fn may_go_on(number: u64) -> bool
    ensures { result ≡ nat_lt number 72057594037927936 }
{
    number < 72_057_594_037_927_936
}

/// The number that stands for a code: its characters one after the other, eight at most.
#[inline(always)]
pub fn code_of(word: &[u8]) -> Option<u64>
    ensures { result ≡ code_of word.now }
{
    if word.is_empty() {
        return None;
    }
    let mut number = 0u64;
    for byte in word {
        if !may_go_on(number) {
            return None;
        }
        number = 256 * number + u64::from(*byte);
    }
    Some(number)
}

/// The level of a bit of a value: 0, 1, x or z.
#[inline(always)]
pub fn level_of(bit: u8) -> Option<Level>
    ensures { result ≡ level_of bit }
{
    match bit {
        b'0' => Some(Level::Low),
        b'1' => Some(Level::High),
        b'x' | b'X' | b'z' | b'Z' => Some(Level::Unknown),
        _ => None,
    }
}

// The byte is a bit of a value.
#[inline(always)]
pub(crate) fn is_bit(byte: u8) -> bool
    ensures { result ≡ is_known (level_of byte) }
{
    level_of(byte).is_some()
}

// Each byte is a bit of a value.
pub(crate) fn are_bits(bits: &[u8]) -> bool
    ensures { result ≡ are_bits bits.now }
{
    for byte in bits {
        if !is_bit(*byte) {
            return false;
        }
    }
    true
}

// The unit, or its prefix.
fn unit_after(byte: u8) -> Scale
    ensures { result ≡ unit_after byte }
{
    match byte {
        b's' => Scale::Whole,
        b'm' | b'u' | b'n' | b'p' | b'f' => Scale::Prefix,
        _ => Scale::Wrong,
    }
}

impl Scale {
    fn after(self, byte: u8) -> Scale
        ensures { result ≡ scale_after self byte }
    {
        match self {
            Scale::Start if byte == b'1' => Scale::One,
            Scale::One if byte == b'0' => Scale::Ten,
            Scale::Ten if byte == b'0' => Scale::Hundred,
            Scale::One | Scale::Ten | Scale::Hundred => unit_after(byte),
            Scale::Prefix if byte == b's' => Scale::Whole,
            Scale::Start | Scale::Prefix | Scale::Whole | Scale::Wrong => Scale::Wrong,
        }
    }

    // How far it is read after a word.
    pub(crate) fn after_word(self, word: &[u8]) -> Scale
        ensures { result ≡ scale_from self word.now }
    {
        let mut scale = self;
        for byte in word {
            scale = scale.after(*byte);
        }
        scale
    }

    pub(crate) fn is_whole(self) -> bool
        ensures { result ≡ is_whole self }
    {
        matches!(self, Scale::Whole)
    }
}
