//! How many items a dump has, with the text of that number.
ghost use Rattle.std.specs.Prelude.{◌≡◌, ◌+◌, ◌*◌, ◌<◌, ◌≤◌, ◌^◌, ◌∷◌, ◌++◌, take, IsTrue};
ghost use Rattle.std.specs.Fmt.{decimal};
ghost use Rattle.trace_wave.specs.Changes.{time_line};

use crate::room::{LONGEST_TEXT, Room, write_pair, write_text};
use std::marker::Model;

/// How many items a dump has, 2^60 at most. The text of the number is counted up with it, so that a time needs no division.
#[derive(Drop)]
pub struct ItemCount {
    number: u64,
    // `#` and the digits of the number, of 0 none.
    text: [u8; LONGEST_TEXT],
    len: usize,
}

impl Model for ItemCount {
    ghost use Rattle.std.specs.Prelude.{ℕ};
    ghost use Rattle.trace_wave.specs.Counting.{IsCounted};

    ghost Value = { ℕ };

    ghost view = { λ c. c.number };

    ghost invariant = { λ c. IsCounted c.number c.text c.len };
}

impl ItemCount {
    /// No item.
    pub(crate) fn none() -> ItemCount
        ensures { result ≡ 0 }
    {
        let mut text = [0; LONGEST_TEXT];
        text[0] = b'#';
        ItemCount {
            number: 0,
            text,
            len: 1,
        }
    }

    /// The number.
    #[inline(always)]
    pub(crate) fn number(&self) -> u64
        ensures value { result ≡ self.now }
        ensures most { result ≤ 2 ^ 60 }
    {
        self.number
    }

    /// One item more.
    #[inline(always)]
    pub(crate) fn count_up(&mut self)
        requires { self.old < 2 ^ 60 }
        ensures { self.new ≡ self.old + 1 }
    {
        let last = self.text[self.len - 1];
        self.number += 1;
        if is_digit_below_nine(last) {
            self.text[self.len - 1] = last + 1;
        } else {
            self.len = write_number(&mut self.text, self.number);
        }
    }

    /// Writes the line of the time that is so far behind the beginning of the next item; the place behind it.
    #[inline(always)]
    pub(crate) fn write_time(&self, room: &mut Room, place: usize, offset: u8) -> usize
        requires digit { offset < 10 }
        requires places { place + 26 ≤ 1024 }
        ensures value { take result room.new ≡ take place room.old ++ time_line (10 * self.now + offset) }
        ensures len { (place ≤ result) × (result ≤ place + 22) }
    {
        let place = write_text(room, place, &self.text, self.len);
        write_pair(room, place, b'0' + offset, b'\n')
    }
}

// The character is one of the digits from 0 to 8.
#[inline(always)]
fn is_digit_below_nine(character: u8) -> bool
    ensures { IsTrue result → (48 ≤ character) × (character < 57) }
{
    b'0' <= character && character < b'9'
}

// Writes the text of a number, which isn't 0; how long it is.
fn write_number(text: &mut [u8; LONGEST_TEXT], number: u64) -> usize
    requires { number ≤ 2 ^ 60 }
    ensures value { take result text.new ≡ 35 ∷ decimal number }
    ensures len { (1 ≤ result) × (result ≤ 20) }
{
    let mut digits = itoa::Buffer::new();
    let digits = digits.format(number).as_bytes();
    text[0] = b'#';
    text[1..digits.len() + 1].copy_from_slice(digits);
    digits.len() + 1
}
