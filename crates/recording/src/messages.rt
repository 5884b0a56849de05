//! Lines of what is said.

use seq_inputs::{Place, Style, Told, Words};
use std::alloc::AllocError;

/// Adds a message.
pub fn push_message(lines: &mut String, style: Style, message: &str) -> Result<(), AllocError> {
    match style {
        Style::Plain => writeln!(lines, "{message}"),
        Style::Json => writeln!(lines, "{}", Told::message(&message)),
    }
}

/// Adds what these words say of an item, with its code, if it has one.
pub fn push_at_item(
    lines: &mut String,
    style: Style,
    item: usize,
    code: Option<&'static str>,
    words: &Words<'_>,
) -> Result<(), AllocError> {
    match style {
        Style::Plain => writeln!(lines, "{words}"),
        Style::Json => {
            let told = Told {
                code,
                path: words.path,
                line: words.line,
                place: Some(Place::Item(item)),
                time: words.time,
                message: &words.text,
            };
            writeln!(lines, "{told}")
        }
    }
}
