//! The fields of a line after its name: paths and numbers.

ghost use Rattle.std.specs.Prelude.{◌≡◌, ◌≤◌, true, IfOk, IfErr, Ok, Err};
ghost use Rattle.std.specs.Char.{is_ascii};
ghost use Rattle.std.specs.List.{list_all};
ghost use Rattle.std.specs.Option.{option_copied};
ghost use Rattle.run_file.specs.Line.{path_of, optional_path, number_in, polled_of};

use crate::name::is_named;
use crate::polled::Polled;
use crate::refusal::RunFault;
use micro_asm::number_of;
use std::str::from_utf8;

fn is_ascii(field: &[u8]) -> bool
    ensures { result ≡ list_all is_ascii field.now }
{
    field.is_ascii()
}

// The characters of a field that is ASCII.
fn text_of(field: &[u8]) -> &str
    requires { list_all is_ascii field.now ≡ true }
    ensures { result.now ≡ field.entry.now }
{
    from_utf8(field).unwrap()
}

// A path, which is ASCII.
#[tactic(auto, unfolding(crate::specs::Line::path_of))]
pub(crate) fn path_of(field: &[u8]) -> Result<&str, RunFault>
    ensures ok { IfOk result (λ path. path_of field.entry.now ≡ Ok path.now) }
    ensures err { IfErr result (λ e. path_of field.entry.now ≡ Err e) }
{
    if is_ascii(field) {
        Ok(text_of(field))
    } else {
        Err(RunFault::UnknownLine)
    }
}

// A path, or `-` for none.
#[tactic(auto, unfolding(crate::specs::Line::optional_path))]
pub(crate) fn optional_path(field: &[u8]) -> Result<Option<&str>, RunFault>
    ensures ok { IfOk result (λ path. optional_path field.entry.now ≡ Ok (option_copied path)) }
    ensures err { IfErr result (λ e. optional_path field.entry.now ≡ Err e) }
{
    if is_named(field, "-") {
        return Ok(None);
    }
    match path_of(field) {
        Ok(path) => Ok(Some(path)),
        Err(fault) => Err(fault),
    }
}

// A decimal number in a range.
#[tactic(auto, unfolding(crate::specs::Line::number_in))]
pub(crate) fn number_in(least: u32, greatest: u32, field: &[u8]) -> Result<u32, RunFault>
    ensures ok { IfOk result (λ number. number_in least greatest field.now ≡ Ok number) }
    ensures least { IfOk result (λ number. least ≤ number) }
    ensures greatest { IfOk result (λ number. number ≤ greatest) }
    ensures err { IfErr result (λ e. number_in least greatest field.now ≡ Err e) }
{
    let number = number_of(field).ok_or(RunFault::BadNumber)?;
    if u64::from(least) <= number && number <= u64::from(greatest) {
        Ok(number as u32)
    } else {
        Err(RunFault::BadNumber)
    }
}

// The work that a word names.
#[tactic(auto, unfolding(crate::specs::Line::polled_of))]
pub(crate) fn polled_of(field: &[u8]) -> Option<Polled>
    ensures { result ≡ polled_of field.now }
{
    if is_named(field, "read") {
        return Some(Polled::Reads);
    }
    if is_named(field, "program") {
        return Some(Polled::Programs);
    }
    if is_named(field, "erase") {
        return Some(Polled::Erases);
    }
    None
}

// Any number of 32 bits.
pub(crate) fn any_number(field: &[u8]) -> Result<u32, RunFault>
    ensures ok { IfOk result (λ n. number_in 0 4294967295 field.now ≡ Ok n) }
    ensures err { IfErr result (λ e. number_in 0 4294967295 field.now ≡ Err e) }
{
    number_in(0, u32::MAX, field)
}
