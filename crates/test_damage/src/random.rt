//! The generator of what is damaged, and of the damage.

ghost use Rattle.std.specs.Prelude.{◌<◌};

/// A fixed generator (xorshift, 64 bits).
#[derive(Drop)]
pub(crate) struct Random {
    state: u64,
}

impl Random {
    /// That of a seed.
    pub(crate) fn new(seed: u64) -> Random {
        Random { state: seed }
    }

    /// The next number.
    pub(crate) fn next(&mut self) -> u64 {
        let mut state = self.state;
        state ^= state << 13;
        state ^= state >> 7;
        state ^= state << 17;
        self.state = state;
        state
    }

    /// A number below a count.
    pub(crate) fn below(&mut self, count: usize) -> usize {
        (self.next() >> 8) as usize % count.max(1)
    }

    /// Some byte.
    pub(crate) fn byte(&mut self) -> u8 {
        (self.next() >> 56) as u8
    }

    /// Whether something comes about that does so once in a count.
    pub(crate) fn once_in(&mut self, count: usize) -> bool {
        self.below(count) == 0
    }
}

/// Puts a byte at a place, if there is one.
pub(crate) fn set_byte(bytes: &mut Vec<u8>, place: usize, byte: u8) {
    if let Some(old) = bytes.get_mut(place) {
        *old = byte;
    }
}
