//! What 1 of a time of a dump is.

use vcd_text::Words;

// What is read of a time scale: its number, and the letter of its unit.
#[derive(Clone, Copy)]
struct Scale {
    number: u64,
    letter: Option<u8>,
}

// Which section of a header a word stands in.
#[derive(Clone, Copy)]
enum Section {
    None,
    Timescale,
    Other,
}

// The femtoseconds of the unit that begins with this letter.
fn femtoseconds_of(letter: u8) -> Option<u64> {
    match letter {
        b'f' => Some(1),
        b'p' => Some(1_000),
        b'n' => Some(1_000_000),
        b'u' => Some(1_000_000_000),
        b'm' => Some(1_000_000_000_000),
        b's' => Some(1_000_000_000_000_000),
        _ => None,
    }
}

impl Scale {
    // Nothing is read.
    fn new() -> Scale {
        Scale {
            number: 0,
            letter: None,
        }
    }

    // One byte more.
    fn after(self, byte: u8) -> Scale {
        if byte.is_ascii_digit() {
            let digit = u64::from(byte - b'0');
            return Scale {
                number: self.number.saturating_mul(10).saturating_add(digit),
                ..self
            };
        }
        Scale {
            letter: self.letter.or(Some(byte)),
            ..self
        }
    }

    // A word more.
    fn after_word(self, word: &[u8]) -> Scale {
        let mut scale = self;
        for byte in word {
            scale = scale.after(*byte);
        }
        scale
    }

    // The femtoseconds that it is.
    fn femtoseconds(self) -> Option<u64> {
        femtoseconds_of(self.letter?)?.checked_mul(self.number)
    }
}

// The section that a word begins outside of one.
fn opened(word: &[u8]) -> Section {
    if word == b"$timescale".as_slice() {
        Section::Timescale
    } else if word.starts_with(b"$") {
        Section::Other
    } else {
        Section::None
    }
}

// A word ends the section that it stands in.
fn is_end(word: &[u8]) -> bool {
    word == b"$end".as_slice()
}

/// How many femtoseconds 1 of a time of this dump is, if its header says so.
pub(crate) fn find_unit(text: &[u8]) -> Option<u64> {
    let mut words = Words::of(text);
    let mut section = Section::None;
    let mut scale = Scale::new();
    'words: while let Some(word) = words.next_word() {
        section = match section {
            Section::None => {
                if word.text == b"$enddefinitions".as_slice() {
                    return None;
                }
                opened(word.text)
            }
            Section::Timescale if is_end(word.text) => return scale.femtoseconds(),
            Section::Timescale => {
                scale = scale.after_word(word.text);
                Section::Timescale
            }
            Section::Other if is_end(word.text) => Section::None,
            Section::Other => Section::Other,
        };
    }
    None
}
