//! A character as messages show it.

use std::fmt;

// Whether a terminal does something else with a character than to write it: a control character, or one that begins another line or turns the
// direction of the text.
fn is_control(character: char) -> bool {
    character.is_control()
        || matches!(
            character,
            '\u{200e}' | '\u{200f}' | '\u{2028}'..='\u{202e}' | '\u{2066}'..='\u{2069}'
        )
}

/// Writes a character as it is shown.
pub(crate) fn show_character<W: fmt::Write>(output: &mut W, character: char) -> fmt::Result {
    if is_control(character) {
        write!(output, "{}", character.escape_default())
    } else {
        output.write_char(character)
    }
}

/// What a character is called that looks like an ASCII one, or like nothing.
pub(crate) fn name_of(character: char) -> Option<&'static str> {
    match character {
        '\u{a0}' | '\u{2007}' | '\u{202f}' => Some("a no-break space"),
        '\u{2000}'..='\u{200a}' | '\u{3000}' => Some("a wide or narrow space"),
        '\u{200b}'..='\u{200d}' | '\u{2060}' => Some("a character without width"),
        '\u{ad}' => Some("a soft hyphen"),
        '\u{2010}' | '\u{2011}' => Some("a typographic hyphen"),
        '\u{2012}'..='\u{2015}' => Some("a typographic dash"),
        '\u{2212}' => Some("a typographic minus sign"),
        '\u{2018}'..='\u{201f}' => Some("a typographic quotation mark"),
        '\u{feff}' => Some("a byte order mark"),
        _ => None,
    }
}
