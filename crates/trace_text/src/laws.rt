//! What holds of the definitions: the contract of a function that does nothing.

ghost use Rattle.trace_text.specs.Recorded.{RecordedTakesStrict};
ghost use Rattle.trace_text.specs.Trace.{TextsAreItems};

/// The text of items, each chip enable and each LUN of which is at most 3, is read as these items; and what is
/// read as items is their text, and no other.
pub fn texts_are_items()
    ensures { TextsAreItems }
{}

/// A text that is read in the strict form is read as the same items in the recorded form, the first in line 1, the next in line 2, and so on, and none
/// with a time.
pub fn recorded_takes_strict()
    ensures { RecordedTakesStrict }
{}
