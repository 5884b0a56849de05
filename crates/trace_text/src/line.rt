//! Reading a line.

ghost use Rattle.std.specs.Prelude.{◌≡◌, [], ◌∷◌, ◌<◌, IfSome, IfNone};
ghost use Rattle.nand_geometry.specs.declared.optional.Profile.{Profile as ProfileValue};
ghost use Rattle.trace_text.specs.declared.refusal.TraceFault.TheVariants.{BadShape};
ghost use Rattle.trace_text.specs.Reading.{fields, place_of, hex_value, byte_of, is_wide, fail_of_digit, fail_of, array_fail_of, letter_of, cycle, ready, array_ready, failed_array, item_of, line_item};
ghost use Rattle.trace_text.specs.RecordedLines.{shown_fields, words_left};

use crate::refusal::TraceFault;
use crate::words::Words;
use nand_geometry::Profile;
use onfi_cycle::{Cycle, Failures, Item, Kind};

// What the second field of a line says.
#[derive(Clone, Copy)]
pub(crate) enum Letter {
    CycleOf(Kind),
    Ready,
    ArrayReady,
}

// The letter that is the whole field.
#[tactic(auto, unfolding(crate::specs::Reading::letter_of))]
pub(crate) fn letter_of(field: &[u8]) -> Option<Letter>
    ensures { result ≡ letter_of field.now }
{
    match field {
        [b'C'] => Some(Letter::CycleOf(Kind::Cmd)),
        [b'A'] => Some(Letter::CycleOf(Kind::Adr)),
        [b'I'] => Some(Letter::CycleOf(Kind::Din)),
        [b'O'] => Some(Letter::CycleOf(Kind::Dout)),
        [b'R'] => Some(Letter::Ready),
        [b'Y'] => Some(Letter::ArrayReady),
        _ => None,
    }
}

// A chip enable or a LUN.
#[tactic(auto, unfolding(crate::specs::Reading::place_of))]
pub(crate) fn place_of(field: &[u8]) -> Option<u8>
    ensures { result ≡ place_of field.now }
{
    match field {
        [digit @ b'0'..=b'3'] => Some(*digit - b'0'),
        _ => None,
    }
}

// The number of a hexadecimal digit in lower case.
pub(crate) fn hex_value(digit: u8) -> Option<u8>
    ensures value { result ≡ hex_value digit }
    ensures below { IfSome result (λ n. n < 16) }
{
    match digit {
        b'0'..=b'9' => Some(digit - b'0'),
        b'a'..=b'f' => Some(digit - b'a' + 10),
        _ => None,
    }
}

// A byte of two hexadecimal digits.
#[tactic(auto, unfolding(crate::specs::Reading::byte_of))]
pub(crate) fn byte_of(field: &[u8]) -> Option<u8>
    ensures { result ≡ byte_of field.now }
{
    match field {
        [high, low] => Some(16 * hex_value(*high)? + hex_value(*low)?),
        _ => None,
    }
}

/// The texts of the profile tell of two failures of a ready, and of that of an array ready.
pub(crate) fn is_wide(profile: Profile) -> bool
    ensures { result ≡ is_wide profile }
{
    match profile {
        Profile::Base => false,
        Profile::Onfi => true,
    }
}

// The failures of which a digit tells.
fn fail_of_digit(profile: Profile, digit: u8) -> Option<Failures>
    ensures { result ≡ fail_of_digit profile digit }
{
    let wide = is_wide(profile);
    if digit == b'0' {
        Some(Failures {
            last: false,
            before: false,
        })
    } else if digit == b'1' {
        Some(Failures {
            last: true,
            before: false,
        })
    } else if wide && digit == b'2' {
        Some(Failures {
            last: false,
            before: true,
        })
    } else if wide && digit == b'3' {
        Some(Failures {
            last: true,
            before: true,
        })
    } else {
        None
    }
}

// The failures of which a ready tells.
#[tactic(auto, unfolding(crate::specs::Reading::fail_of))]
pub(crate) fn fail_of(profile: Profile, field: &[u8]) -> Option<Failures>
    ensures { result ≡ fail_of profile field.now }
{
    match field {
        [digit] => fail_of_digit(profile, *digit),
        _ => None,
    }
}

// The failure of which an array ready tells.
#[tactic(auto, unfolding(crate::specs::Reading::array_fail_of))]
pub(crate) fn array_fail_of(field: &[u8]) -> Option<bool>
    ensures { result ≡ array_fail_of field.now }
{
    match field {
        [b'1'] => Some(true),
        _ => None,
    }
}

// A cycle, if its number fields have their forms; so are the two below.
#[tactic(auto, unfolding(crate::specs::Reading::cycle))]
fn cycle(ce: &[u8], kind: Kind, byte: &[u8]) -> Option<Item>
    ensures { result ≡ cycle ce.now kind byte.now }
{
    let ce = place_of(ce)?;
    let byte = byte_of(byte)?;
    Some(Item::Cyc(Cycle { ce, kind, byte }))
}

// A LUN that becomes ready.
#[tactic(auto, unfolding(crate::specs::Reading::ready))]
fn ready(profile: Profile, ce: &[u8], lun: &[u8], fail: &[u8]) -> Option<Item>
    ensures { result ≡ ready profile ce.now lun.now fail.now }
{
    let ce = place_of(ce)?;
    let lun = place_of(lun)?;
    let fail = fail_of(profile, fail)?;
    Some(Item::Rdy { ce, lun, fail })
}

// A LUN whose array becomes ready.
#[tactic(auto, unfolding(crate::specs::Reading::array_ready))]
fn array_ready(ce: &[u8], lun: &[u8]) -> Option<Item>
    ensures { result ≡ array_ready ce.now lun.now }
{
    let ce = place_of(ce)?;
    let lun = place_of(lun)?;
    Some(Item::Ard {
        ce,
        lun,
        fail: false,
    })
}

// A LUN whose array becomes ready, and tells of failure.
#[tactic(auto, unfolding(crate::specs::Reading::failed_array))]
fn failed_array(ce: &[u8], lun: &[u8], fail: &[u8]) -> Option<Item>
    ensures { result ≡ failed_array ce.now lun.now fail.now }
{
    let ce = place_of(ce)?;
    let lun = place_of(lun)?;
    let fail = array_fail_of(fail)?;
    Some(Item::Ard { ce, lun, fail })
}

// The field before the first space, and what stands after that space.
fn first_field(line: &str) -> Option<(&str, &str)>
    ensures some { IfSome result (λ x. fields line.entry.now ≡ x.0.now ∷ fields x.1.now) }
    ensures none { IfNone result (fields line.entry.now ≡ line.entry.now ∷ []) }
{
    line.split_once(' ')
}

// The fields of a line, of which there are three or four.
#[derive(Clone, Copy)]
pub(crate) struct Fields<'a> {
    ce: &'a [u8],
    letter: &'a [u8],
    third: &'a [u8],
    fourth: Option<&'a [u8]>,
}

impl<'a> Fields<'a> {
    // The fields of a line that has three or four.
    #[tactic(auto, using(crate::proofs::Fields::one_field, crate::proofs::Fields::two_fields, crate::proofs::Fields::five_fields))]
    fn of(line: &'a str) -> Option<Fields<'a>>
        ensures some { IfSome result (λ f. fields line.entry.now ≡ shown_fields f) }
        ensures none { (p : ProfileValue) → IfNone result (line_item p line.entry.now ≡ Err BadShape) }
    {
        let (ce, rest) = first_field(line)?;
        let (letter, rest) = first_field(rest)?;
        let Some((third, rest)) = first_field(rest) else {
            return Some(Fields {
                ce: ce.as_bytes(),
                letter: letter.as_bytes(),
                third: rest.as_bytes(),
                fourth: None,
            });
        };
        match first_field(rest) {
            None => Some(Fields {
                ce: ce.as_bytes(),
                letter: letter.as_bytes(),
                third: third.as_bytes(),
                fourth: Some(rest.as_bytes()),
            }),
            Some(_) => None,
        }
    }

    // The fields that these words are, if there are three or four.
    pub(crate) fn in_words(words: Words<'a>) -> Option<Fields<'a>>
        ensures some { IfSome result (λ f. words_left words.entry ≡ shown_fields f) }
        ensures none { (p : ProfileValue) → IfNone result (item_of p (words_left words.entry) ≡ Err BadShape) }
    {
        let mut words = words;
        let ce = words.next_word()?;
        let letter = words.next_word()?;
        let third = words.next_word()?;
        let fourth = words.next_word();
        if fourth.is_some() && words.next_word().is_some() {
            return None;
        }
        Some(Fields {
            ce,
            letter,
            third,
            fourth,
        })
    }

    // The item whose fields these are. The number of fields is wanted by the letter, and the number fields are looked at last.
    pub(crate) fn item(self, profile: Profile) -> Result<Item, TraceFault>
        ensures { result ≡ item_of profile (shown_fields self.entry) }
    {
        let letter = letter_of(self.letter).ok_or(TraceFault::BadShape)?;
        let item = match (letter, self.fourth) {
            (Letter::CycleOf(kind), None) => cycle(self.ce, kind, self.third),
            (Letter::Ready, Some(fail)) => ready(profile, self.ce, self.third, fail),
            (Letter::ArrayReady, None) => array_ready(self.ce, self.third),
            (Letter::ArrayReady, Some(fail)) if is_wide(profile) => {
                failed_array(self.ce, self.third, fail)
            }
            _ => return Err(TraceFault::BadShape),
        };
        item.ok_or(TraceFault::BadNumber)
    }
}

// The item of a line, which is given without its line feed.
#[tactic(auto, unfolding(crate::specs::Reading::line_item))]
pub(crate) fn line_item(line: &str, profile: Profile) -> Result<Item, TraceFault>
    ensures { result ≡ line_item profile line.now }
{
    let fields = Fields::of(line).ok_or(TraceFault::BadShape)?;
    fields.item(profile)
}
