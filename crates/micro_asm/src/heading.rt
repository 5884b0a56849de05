//! The three lines of the header.

ghost use Rattle.std.specs.Prelude.{◌≡◌, IfSome};
ghost use Rattle.micro_asm.specs.Reading.{with_setting, is_heading, numbers_of};

use crate::statement::Setting;

// The numbers of a whole header.
#[derive(Clone, Copy)]
pub(crate) struct Numbers {
    pub(crate) rows: u16,
    pub(crate) buffer: u32,
    pub(crate) budget: u32,
}

// How much of the header has been read.
#[derive(Clone, Copy)]
pub(crate) enum Heading {
    Empty,
    Rows(u16),
    Buffer { rows: u16, buffer: u32 },
    Whole(Numbers),
}

impl Heading {
    // Whether a header line is still to come.
    pub(crate) fn is_heading(self) -> bool
        ensures { result ≡ is_heading self }
    {
        !matches!(self, Heading::Whole(_))
    }

    // The numbers, once all three are there.
    pub(crate) fn numbers(self) -> Option<Numbers>
        ensures value { result ≡ numbers_of self }
    {
        match self {
            Heading::Whole(numbers) => Some(numbers),
            _ => None,
        }
    }

    // The header with one more line, if that line is the next.
    pub(crate) fn with_setting(self, setting: Setting) -> Option<Heading>
        ensures value { result ≡ with_setting self setting }
    {
        match (self, setting) {
            (Heading::Empty, Setting::Rows(rows)) => Some(Heading::Rows(rows)),
            (Heading::Rows(rows), Setting::Buffer(buffer)) => Some(Heading::Buffer {
                rows,
                buffer,
            }),
            (Heading::Buffer { rows, buffer }, Setting::Budget(budget)) => Some(Heading::Whole(
                Numbers {
                    rows,
                    buffer,
                    budget,
                },
            )),
            _ => None,
        }
    }
}
