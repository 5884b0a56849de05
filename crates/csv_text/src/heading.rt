//! What comments above the row of names tell.
ghost use Rattle.std.specs.Prelude.{◌≡◌};
ghost use Rattle.csv_text.specs.Notes.{has_front, told_by, with_rate, noted_by, noted, no_heading};
ghost use Rattle.csv_text.specs.Shown.{shown_heading};

use crate::fields::{from_place, place_of_either, trim, trim_front};
use crate::times::rate_of;

/// The names of the signals, with commas between them, and how many samples there are in a second; nothing and 0 where no comment says so.
#[derive(Clone, Copy, Debug)]
pub(crate) struct Heading<'a> {
    pub(crate) channels: &'a [u8],
    pub(crate) rate: u64,
}

fn has_front(text: &[u8], front: &str) -> bool
    ensures { result ≡ has_front text.now front.now }
{
    text.starts_with(front.as_bytes())
}

// What stands behind the first colon.
fn told_by(text: &[u8]) -> &[u8]
    ensures { result.now ≡ told_by text.entry.now }
{
    trim(from_place(text, place_of_either(b':', b'=', text)))
}

impl<'a> Heading<'a> {
    /// Nothing is told yet.
    pub(crate) fn none() -> Heading<'a>
        ensures { shown_heading result ≡ no_heading }
    {
        Heading {
            channels: &[],
            rate: 0,
        }
    }

    fn with_rate(self, rate: Option<u64>) -> Heading<'a>
        ensures { shown_heading result ≡ with_rate (shown_heading self.entry) rate }
    {
        match rate {
            None => self,
            Some(rate) => Heading {
                channels: self.channels,
                rate,
            },
        }
    }

    fn noted_by(self, text: &'a [u8]) -> Heading<'a>
        ensures { shown_heading result ≡ noted_by (shown_heading self.entry) text.entry.now }
    {
        if has_front(text, "; Channels") {
            return Heading {
                channels: told_by(text),
                rate: self.rate,
            };
        }
        if has_front(text, "; Samplerate") || has_front(text, "META samplerate") {
            return self.with_rate(rate_of(told_by(text)));
        }
        self
    }

    /// With what a comment tells.
    pub(crate) fn noted(self, text: &'a [u8]) -> Heading<'a>
        ensures { shown_heading result ≡ noted (shown_heading self.entry) text.entry.now }
    {
        self.noted_by(trim_front(text))
    }
}
