//! The levels of all lines.
ghost use Rattle.std.specs.Prelude.{◌≡◌, false, slice_set, drop};
ghost use Rattle.bus_signals.specs.Roles.{place_of};
ghost use Rattle.bus_capture.specs.Capturing.{unknown};
ghost use Rattle.bus_capture.specs.Sampling.{level, level_at, shown_bit, filled, bit_at, with_source, with_change};

use bus_signals::{Role, Source};
use vcd_text::{Level, level_of};

/// The levels of all lines; of a line that hasn't been seen it is unknown.
#[derive(Clone, Copy, Debug)]
pub struct Levels {
    pub(crate) of: [Level; 68],
}

// A bit that stands in a change.
#[inline(always)]
fn shown_bit(bit: u8) -> Level
    ensures { result ≡ shown_bit bit }
{
    level_of(bit).unwrap_or(Level::Unknown)
}

// A bit that stands no more.
#[inline(always)]
fn filled(first: Level) -> Level
    ensures { result ≡ filled first }
{
    match first {
        Level::Low | Level::High => Level::Low,
        Level::Unknown => Level::Unknown,
    }
}

// The bit at this place from the right.
#[inline(always)]
fn bit_at(bits: &[u8], place: u64) -> Level
    ensures { result ≡ bit_at bits.now place }
{
    let count = bits.len() as u64;
    if place < count {
        shown_bit(bits[(count - 1 - place) as usize])
    } else if bits.is_empty() {
        Level::Unknown
    } else {
        filled(shown_bit(bits[0]))
    }
}

impl Levels {
    /// Nothing has been seen.
    pub fn unknown() -> Levels
        ensures { result.of ≡ unknown }
    {
        Levels {
            of: [Level::Unknown; 68],
        }
    }

    /// The level at a place among all lines.
    #[inline(always)]
    pub(crate) fn level_at(&self, place: usize) -> Level
        ensures { result ≡ level_at self.now.of place }
    {
        self.of.get(place).copied().unwrap_or(Level::Unknown)
    }

    /// The level of a line.
    #[inline(always)]
    pub fn level(&self, role: Role) -> Level
        ensures { result ≡ level self.now.of role }
    {
        self.level_at(role.place())
    }

    // A line has this level.
    #[inline(always)]
    fn set(&mut self, role: Role, level: Level)
        ensures { self.new.of ≡ slice_set self.old.of (place_of role) level }
    {
        self.of[role.place()] = level;
    }

    // After a change of a code: whether one of the lines beside the bus may have changed.
    #[inline(always)]
    fn change_one(&mut self, source: Source, code: u64, bits: &[u8]) -> bool
        ensures levels { self.new.of ≡ with_source source code bits.now self.old.of }
        ensures beside { result ≡ false → drop 16 self.new.of ≡ drop 16 self.old.of }
    {
        if source.code == code {
            self.set(source.role, bit_at(bits, source.place));
            return source.role.place() >= 16;
        }
        false
    }

    /// After a change of a code: whether one of the lines beside the bus may have changed.
    #[inline(always)]
    pub fn change(&mut self, sources: &[Source], code: u64, bits: &[u8]) -> bool
        ensures levels { self.new.of ≡ with_change sources.now code bits.now self.old.of }
        ensures beside { result ≡ false → drop 16 self.new.of ≡ drop 16 self.old.of }
    {
        let mut beside = false;
        for source in sources {
            if self.change_one(*source, code, bits) {
                beside = true;
            }
        }
        beside
    }
}
