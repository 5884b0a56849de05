//! The fields of a row.
ghost use Rattle.std.specs.Prelude.{◌≡◌, ℕ, ◌+◌, ◌-◌, ◌<◌, ◌≤◌, ◌^◌, ◌∷◌, [], false, length, take, drop, IfSome, IfNone};
ghost use Rattle.std.specs.Option.{option_copied};
ghost use Rattle.std.specs.List.{suffix_len, position_or_len};
ghost use Rattle.csv_text.specs.Fields.{is_blank, trim_front, trim_end, trim, unquoted, content, quoted_after, fields_from, fields, are_as_many, has_byte, separator_of, is_either};
ghost use Rattle.csv_text.specs.Shown.{fields_in, with_field, room_in};

// A space or a tab.
fn is_blank(byte: u8) -> bool
    ensures { result ≡ is_blank byte }
{
    byte == b' ' || byte == b'\t'
}

// The text without the blanks at its front.
pub(crate) fn trim_front(text: &[u8]) -> &[u8]
    ensures { result.now ≡ trim_front text.entry.now }
{
    let mut rest = text;
    'blanks: while let [first, after @ ..] = rest {
        if !is_blank(*first) {
            return rest;
        }
        rest = after;
    }
    rest
}

// How many bytes are left without the blanks at the end.
fn trimmed_len(text: &[u8]) -> usize
    ensures value { result ≡ length text.now - suffix_len is_blank text.now }
    ensures within { result ≤ length text.now }
{
    let mut count = text.len();
    'blanks: while count > 0 && is_blank(text[count - 1]) {
        count -= 1;
    }
    count
}

// The text without the blanks at its end.
fn trim_end(text: &[u8]) -> &[u8]
    ensures { result.now ≡ trim_end text.entry.now }
{
    let (front, _) = text.split_at(trimmed_len(text));
    front
}

// What stands between two double quotes.
fn unquoted(text: &[u8]) -> &[u8]
    ensures { result.now ≡ unquoted text.entry.now }
{
    match text {
        [b'"', inner @ .., b'"'] => inner,
        _ => text,
    }
}

/// The text without the blanks at both ends.
pub(crate) fn trim(text: &[u8]) -> &[u8]
    ensures { result.now ≡ trim text.entry.now }
{
    trim_end(trim_front(text))
}

// What a piece between separators has.
#[tactic(auto, unfolding(crate::specs::Fields::content))]
fn content(piece: &[u8]) -> &[u8]
    ensures { result.now ≡ content piece.entry.now }
{
    unquoted(trim(piece))
}

// Whether text stands in quotes after this byte.
fn quoted_after(quoted: bool, byte: u8) -> bool
    ensures { result ≡ quoted_after quoted byte }
{
    if byte == b'"' { !quoted } else { quoted }
}

// How many bytes stand in front of the first separator outside quotes, or in the whole text.
fn piece_len(separator: u8, text: &[u8]) -> usize
    ensures within { result ≤ length text.now }
    ensures more { result < length text.now → fields_from separator false [] text.now ≡ content (take result text.now) ∷ fields_from separator false [] (drop (result + 1) text.now) }
    ensures last { result ≡ length text.now → fields_from separator false [] text.now ≡ content text.now ∷ [] }
{
    let mut count = 0;
    let mut quoted = false;
    'bytes: while count < text.len() && (quoted || text[count] != separator) {
        quoted = quoted_after(quoted, text[count]);
        count += 1;
    }
    count
}

/// The fields that are left of a row: what stands between separators, without blanks and double quotes around it. A separator in double quotes belongs to
/// its field.
#[derive(Clone, Copy, Debug)]
pub struct Fields<'a> {
    pub(crate) rest: Option<&'a [u8]>,
}

impl<'a> Fields<'a> {
    /// The fields of a row; one at least.
    pub fn of(row: &'a [u8]) -> Fields<'a>
        ensures fields { (separator : ℕ) → fields_in separator (option_copied result.rest) ≡ fields separator row.entry.now }
        ensures room { room_in (option_copied result.rest) ≡ length row.entry.now + 1 }
        ensures short { room_in (option_copied result.rest) + 1 < 2 ^ 64 }
    {
        Fields { rest: Some(row) }
    }

    /// No fields.
    pub fn none() -> Fields<'a>
        ensures { option_copied result.rest ≡ None }
    {
        Fields { rest: None }
    }

    /// The next field, by what separates.
    pub fn next_field(&mut self, separator: u8) -> Option<&'a [u8]>
        ensures fields { fields_in separator (option_copied self.old.rest) ≡ with_field (option_copied result) (fields_in separator (option_copied self.new.rest)) }
        ensures none { IfNone result (fields_in separator (option_copied self.old.rest) ≡ []) }
        ensures room { IfSome result (λ _. room_in (option_copied self.new.rest) < room_in (option_copied self.old.rest)) }
        ensures end { IfNone result (room_in (option_copied self.new.rest) ≡ 0) }
    {
        let text = self.rest?;
        let count = piece_len(separator, text);
        if count == text.len() {
            self.rest = None;
            return Some(content(text));
        }
        let (piece, _) = text.split_at(count);
        let (_, rest) = text.split_at(count + 1);
        self.rest = Some(rest);
        Some(content(piece))
    }
}

/// Two rows have as many fields, each by what separates there.
pub(crate) fn are_as_many(separator: u8, first: Fields<'_>, other: u8, second: Fields<'_>) -> bool
    ensures { result ≡ are_as_many (fields_in separator (option_copied first.entry.rest)) (fields_in other (option_copied second.entry.rest)) }
{
    let mut first = first;
    let mut second = second;
    'fields: while let Some(_) = first.next_field(separator) {
        if second.next_field(other).is_none() {
            return false;
        }
    }
    second.next_field(other).is_none()
}

fn has_byte(byte: u8, text: &[u8]) -> bool
    ensures { result ≡ has_byte byte text.now }
{
    text.contains(&byte)
}

/// What separates the fields of a file, by its row of names.
pub(crate) fn separator_of(names: &[u8]) -> u8
    ensures { result ≡ separator_of names.now }
{
    if has_byte(b',', names) {
        b','
    } else if has_byte(b';', names) {
        b';'
    } else {
        b'\t'
    }
}

// A byte is one of these two.
fn is_either(one: u8, other: u8, byte: u8) -> bool
    ensures { result ≡ is_either one other byte }
{
    byte == one || byte == other
}

/// Where the first of these two bytes is, or how many bytes there are.
pub(crate) fn place_of_either(one: u8, other: u8, text: &[u8]) -> usize
    ensures value { result ≡ position_or_len (is_either one other) text.now }
    ensures within { result ≤ length text.now }
{
    let mut count = 0;
    'bytes: while count < text.len() && !is_either(one, other, text[count]) {
        count += 1;
    }
    count
}

/// What stands behind the byte at a place, or nothing.
pub(crate) fn from_place(text: &[u8], place: usize) -> &[u8]
    ensures { result.now ≡ drop (place + 1) text.entry.now }
{
    if place < text.len() {
        let (_, rest) = text.split_at(place + 1);
        rest
    } else {
        &[]
    }
}
