//! What a caller says that a signal is.
ghost use Rattle.std.specs.Prelude.{◌≡◌, Some, None, if◌then◌else◌};
ghost use Rattle.std.specs.Str.{bytes_eq};
ghost use Rattle.vcd_text.specs.Sections.{shown_variable};
ghost use Rattle.bus_signals.specs.Names.{plain_of};
ghost use Rattle.bus_signals.specs.Roles.{is_joined, is_name, is_given};

use crate::names::plain_of;
use vcd_text::Variable;

/// A signal of this name, with its range or without, is what this other name stands for: of `WE` and `P17`, the signal `P17` is WE#.
#[derive(Clone, Copy, Debug, PartialEq, Eq)]
pub struct Mapping<'a> {
    pub role: &'a str,
    pub name: &'a str,
}

// A name and its range, one after the other, are this text.
#[tactic(auto, using(crate::proofs::Joined::too_short))]
fn is_joined(name: &[u8], range: &[u8], text: &[u8]) -> bool
    ensures { result ≡ is_joined name.now range.now text.now }
{
    if name.is_empty() {
        return range == text;
    }
    if text.is_empty() {
        return false;
    }
    let (first, others) = name.split_at(1);
    let (byte, rest) = text.split_at(1);
    first[0] == byte[0] && is_joined(others, range, rest)
}

fn is_same_text(name: &[u8], text: &[u8]) -> bool
    ensures { result ≡ bytes_eq name.now text.now }
{
    name == text
}

// Somebody may call a signal so.
fn is_name(variable: &Variable<'_>, text: &[u8]) -> bool
    ensures { result ≡ is_name (shown_variable variable.now) text.now }
{
    is_same_text(variable.name, text) || is_joined(variable.name, variable.range, text)
}

/// The role that one of these gives a signal, as the number of its name, if it is about that signal.
pub(crate) fn role_given(mapping: Mapping<'_>, variable: &Variable<'_>) -> Option<u64>
    ensures { result ≡ (if is_name (shown_variable variable.now) mapping.entry.name.now then Some (plain_of mapping.entry.role.now) else None) }
{
    if is_name(variable, mapping.name.as_bytes()) {
        Some(plain_of(mapping.role.as_bytes()))
    } else {
        None
    }
}

/// Whether a role is given to a signal.
pub(crate) fn is_given(mappings: &[Mapping<'_>], variable: &Variable<'_>) -> bool
    ensures { result ≡ is_given mappings.now (shown_variable variable.now) }
{
    for mapping in mappings {
        if is_name(variable, mapping.name.as_bytes()) {
            return true;
        }
    }
    false
}
