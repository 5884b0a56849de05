//! The names of words and of header lines.

ghost use Rattle.std.specs.Prelude.{◌≡◌, ◌≤◌};
ghost use Rattle.micro_asm.specs.Line.{is_named, header_of, counted_of, other_of, word_name, name_of, least, greatest, bare_word};

use micro_word::{Format, MAX_ROWS, Word};

// What takes one decimal number: a header line or a word.
#[derive(Clone, Copy)]
pub(crate) enum Counted {
    Rows,
    Buffer,
    Budget,
    End,
    Get,
    Put,
    Seek,
    Column,
    RowAdd,
    Row,
    Plane,
    Loop,
}

// A word without operands.
#[derive(Clone, Copy)]
pub(crate) enum Bare {
    Wait,
    Yield,
    ReadStatus,
    Next,
}

// What a name calls for.
#[derive(Clone, Copy)]
pub(crate) enum Name {
    Number(Counted),
    Bare(Bare),
    Command,
    Address,
    Branch,
    Jump,
}

impl Counted {
    // The least number that may stand after the name.
    pub(crate) fn least(self) -> u64
        ensures { result ≡ least self }
    {
        match self {
            Counted::Rows | Counted::Get | Counted::Put | Counted::RowAdd | Counted::Loop => 1,
            _ => 0,
        }
    }

    // The greatest number that may stand after the name.
    pub(crate) fn greatest(self) -> u64
        ensures { result ≡ greatest self }
    {
        match self {
            Counted::Rows => u64::from(MAX_ROWS),
            Counted::Buffer | Counted::Get | Counted::Put | Counted::Seek => {
                u64::from(Format::Two.limit())
            }
            Counted::Budget => u64::from(u32::MAX),
            Counted::End => u64::from(u8::MAX),
            Counted::Column | Counted::RowAdd => u64::from(u16::MAX),
            Counted::Row => u64::from(MAX_ROWS - 1),
            Counted::Plane => 3,
            Counted::Loop => 4_096,
        }
    }
}

impl Bare {
    pub(crate) fn word(self) -> Word
        ensures { result ≡ bare_word self }
    {
        match self {
            Bare::Wait => Word::Wait,
            Bare::Yield => Word::Yield,
            Bare::ReadStatus => Word::ReadStatus,
            Bare::Next => Word::Next,
        }
    }
}

fn is_named(field: &[u8], text: &str) -> bool
    ensures { result ≡ is_named field.now text.now }
{
    field == text.as_bytes()
}

// The name of a header line.
#[tactic(auto, unfolding(crate::specs::Line::header_of))]
fn header_of(field: &[u8]) -> Option<Counted>
    ensures { result ≡ header_of field.now }
{
    if is_named(field, "rows") {
        return Some(Counted::Rows);
    }
    if is_named(field, "buffer") {
        return Some(Counted::Buffer);
    }
    if is_named(field, "budget") {
        return Some(Counted::Budget);
    }
    None
}

// The name of a word with one decimal number.
#[tactic(auto, unfolding(crate::specs::Line::counted_of))]
fn counted_of(field: &[u8]) -> Option<Counted>
    ensures { result ≡ counted_of field.now }
{
    if is_named(field, "end") {
        return Some(Counted::End);
    }
    if is_named(field, "get") {
        return Some(Counted::Get);
    }
    if is_named(field, "put") {
        return Some(Counted::Put);
    }
    if is_named(field, "seek") {
        return Some(Counted::Seek);
    }
    if is_named(field, "col") {
        return Some(Counted::Column);
    }
    if is_named(field, "rowadd") {
        return Some(Counted::RowAdd);
    }
    if is_named(field, "row") {
        return Some(Counted::Row);
    }
    if is_named(field, "plane") {
        return Some(Counted::Plane);
    }
    if is_named(field, "loop") {
        return Some(Counted::Loop);
    }
    None
}

// The name of another word.
#[tactic(auto, unfolding(crate::specs::Line::other_of))]
fn other_of(field: &[u8]) -> Option<Name>
    ensures { result ≡ other_of field.now }
{
    if is_named(field, "wait") {
        return Some(Name::Bare(Bare::Wait));
    }
    if is_named(field, "yield") {
        return Some(Name::Bare(Bare::Yield));
    }
    if is_named(field, "stat") {
        return Some(Name::Bare(Bare::ReadStatus));
    }
    if is_named(field, "next") {
        return Some(Name::Bare(Bare::Next));
    }
    if is_named(field, "cmd") {
        return Some(Name::Command);
    }
    if is_named(field, "addr") {
        return Some(Name::Address);
    }
    if is_named(field, "brs") {
        return Some(Name::Branch);
    }
    if is_named(field, "jmp") {
        return Some(Name::Jump);
    }
    None
}

// The name of a word.
#[tactic(auto, unfolding(crate::specs::Line::word_name))]
pub(crate) fn word_name(field: &[u8]) -> Option<Name>
    ensures { result ≡ word_name field.now }
{
    match counted_of(field) {
        Some(kind) => Some(Name::Number(kind)),
        None => other_of(field),
    }
}

// The name of a word, or of a header line where one is to stand.
#[tactic(auto, unfolding(crate::specs::Line::name_of))]
pub(crate) fn name_of(heads: bool, field: &[u8]) -> Option<Name>
    ensures { result ≡ name_of heads field.now }
{
    if heads && let Some(kind) = header_of(field) {
        return Some(Name::Number(kind));
    }
    word_name(field)
}
