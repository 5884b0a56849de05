//! What the names of statements take.

use crate::name::Name;
use crate::number::Number;
use shown_text::Fields;

// The fields of a statement.
pub(crate) fn layout(name: Name) -> &'static str {
    match name {
        Name::Page => "page PATH",
        Name::Targets => "targets N",
        Name::Image => "image CE LUN PATH",
        Name::Job => "job CE LUN BASE TEXT IN OUT",
        Name::Polls => "polls N",
        Name::Fail => "fail CE LUN K",
    }
}

// The fields of a line with this name, by those that it has: a word says of which work a line `polls` speaks.
pub(crate) fn layout_of(name: Name, fields: Fields<'_>) -> &'static str {
    match (name, fields.get(1)) {
        (Name::Polls, Some("read")) => "polls read N",
        (Name::Polls, Some("program")) => "polls program N",
        (Name::Polls, Some("erase")) => "polls erase N",
        (Name::Polls, Some("lun")) => "polls lun CE LUN N",
        (Name::Fail, _) if fields.get(4) == Some("before") => "fail CE LUN K before",
        _ => layout(name),
    }
}

// The numbers that stand first after a name.
pub(crate) fn numbers(name: Name) -> &'static [Number] {
    match name {
        Name::Page => &[],
        Name::Targets => &[Number::Targets],
        Name::Image => &[Number::ChipEnable, Number::Lun],
        Name::Job => &[Number::ChipEnable, Number::Lun, Number::Base],
        Name::Polls => &[Number::Polls],
        Name::Fail => &[Number::ChipEnable, Number::Lun, Number::Ready],
    }
}

// How many fields stand after the name of a line that has these.
pub(crate) fn count_fields(name: Name, fields: Fields<'_>) -> usize {
    match (name, fields.get(1)) {
        (Name::Polls, Some("read" | "program" | "erase")) => 2,
        (Name::Polls, Some("lun")) => 4,
        (Name::Fail, _) if fields.get(4) == Some("before") => 4,
        _ => count_plain(name),
    }
}

// How many fields stand after a name; after `polls` where no word says of which work it speaks.
fn count_plain(name: Name) -> usize {
    match name {
        Name::Page | Name::Targets | Name::Polls => 1,
        Name::Image | Name::Fail => 3,
        Name::Job => 6,
    }
}
