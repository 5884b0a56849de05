//! What a name says of the bits of its signal.
ghost use Rattle.std.specs.Prelude.{◌≡◌, ◌+◌, ◌*◌, ◌<◌};
ghost use Rattle.vcd_text.specs.Tokens.{is_digit};
ghost use Rattle.bus_signals.specs.Spots.{is_index_digit, first_after, second_after, spot_after, spot_from, spot_of, span_place, place_in};

/// What a name says of the bits of its signal, in brackets.
#[derive(Clone, Copy, Debug, PartialEq, Eq)]
pub enum Spot {
    /// There is no bracket.
    Bare,
    /// A number is being read, as in `[7`.
    First(u64),
    /// The second one is, as in `[7:0`.
    Second(u64, u64),
    /// It is this bit of something, `[3]`.
    Bit(u64),
    /// It is these bits, `[7:0]`.
    Bits(u64, u64),
    /// The brackets have something else.
    Wrong,
}

// A digit, after a number that may have one more.
fn is_index_digit(number: u64, byte: u8) -> bool
    ensures { result ≡ is_index_digit number byte }
{
    byte >= b'0' && byte <= b'9' && number < 100_000
}

fn first_after(number: u64, byte: u8) -> Spot
    ensures { result ≡ first_after number byte }
{
    if is_index_digit(number, byte) {
        return Spot::First(10 * number + u64::from(byte - b'0'));
    }
    if byte == b':' {
        return Spot::Second(number, 0);
    }
    if byte == b']' {
        return Spot::Bit(number);
    }
    Spot::Wrong
}

fn second_after(first: u64, number: u64, byte: u8) -> Spot
    ensures { result ≡ second_after first number byte }
{
    if is_index_digit(number, byte) {
        return Spot::Second(first, 10 * number + u64::from(byte - b'0'));
    }
    if byte == b']' {
        return Spot::Bits(first, number);
    }
    Spot::Wrong
}

impl Spot {
    fn after(self, byte: u8) -> Spot
        ensures { result ≡ spot_after self byte }
    {
        match self {
            Spot::Bare => {
                if byte == b'[' {
                    Spot::First(0)
                } else {
                    Spot::Bare
                }
            }
            Spot::First(number) => first_after(number, byte),
            Spot::Second(first, number) => second_after(first, number, byte),
            Spot::Bit(_) | Spot::Bits(_, _) | Spot::Wrong => Spot::Wrong,
        }
    }

    fn after_word(self, word: &[u8]) -> Spot
        ensures { result ≡ spot_from self word.now }
    {
        let mut spot = self;
        for byte in word {
            spot = spot.after(*byte);
        }
        spot
    }

    /// What a name and its range say.
    pub fn of(name: &[u8], range: &[u8]) -> Spot
        ensures { result ≡ spot_of name.now range.now }
    {
        Spot::Bare.after_word(name).after_word(range)
    }
}

// The place from the right of a bit among those from `first` to `last`, if it is one of them.
fn span_place(bit: u64, first: u64, last: u64) -> Option<u64>
    ensures { result ≡ span_place bit first last }
{
    if last <= bit && bit <= first {
        return Some(bit - last);
    }
    if first <= bit && bit <= last {
        return Some(last - bit);
    }
    None
}

/// The place from the right of the bit of this number, in a signal of this width of which its name says so.
pub fn place_in(spot: Spot, width: u64, bit: u64) -> Option<u64>
    ensures { result ≡ place_in spot width bit }
{
    match spot {
        Spot::Bare => { if bit < width { Some(bit) } else { None } }
        Spot::Bit(number) => {
            if width == 1 && number == bit {
                Some(0)
            } else {
                None
            }
        }
        Spot::Bits(first, last) => span_place(bit, first, last),
        Spot::First(_) | Spot::Second(_, _) | Spot::Wrong => None,
    }
}
