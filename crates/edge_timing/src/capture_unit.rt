//! What 1 of a time of a capture is.

use crate::dump_unit;
use bus_capture::CaptureForm;

/// How many femtoseconds 1 of a time of a capture is, as [`bus_capture`] counts it, if the capture says it.
pub fn find_unit(form: CaptureForm, text: &[u8]) -> Option<u64> {
    match form {
        CaptureForm::Dump => dump_unit::find_unit(text),
        CaptureForm::Table => csv_text::find_unit(text),
    }
}
