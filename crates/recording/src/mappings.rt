//! What is said of the signals of a capture.
ghost use Rattle.std.specs.Prelude.{◌≡◌, ◌++◌, ◌∷◌, [], List, map, IfOk, IfSome, IfNone, OnOk};
ghost use Rattle.std.specs.Option.{option_map};
ghost use Rattle.recording.specs.Captures.{said, saying_of, sayings_in, parts, AreSaid};

use bus_signals::Mapping;
use std::alloc::{AllocError, Global};

// What stands before the first comma, and after it.
fn first_part(line: &str) -> Option<(&str, &str)>
    ensures some { IfSome result (λ x. parts line.entry.now ≡ x.0.now ∷ parts x.1.now) }
    ensures none { IfNone result (parts line.entry.now ≡ line.entry.now ∷ []) }
{
    line.split_once(',')
}

// One thing that is said: `ROLE=NAME`.
fn mapping_of(part: &str) -> Mapping<'_>
    ensures { said result ≡ saying_of part.entry.now }
{
    match part.split_once('=') {
        Some((role, name)) => Mapping { role, name },
        None => Mapping {
            role: part,
            name: "",
        },
    }
}

// Adds what a line says.
fn push_mappings<'a>(mappings: &mut Vec<Mapping<'a>>, line: &'a str) -> Result<(), AllocError>
    ensures { OnOk result (map said mappings.new.items ≡ map said mappings.old.items ++ sayings_in line.entry.now) }
{
    let mut rest = line;
    'parts: while let Some((part, later)) = first_part(rest) {
        mappings.push(mapping_of(part))?;
        rest = later;
    }
    mappings.push(mapping_of(rest))?;
    Ok(())
}

/// What a line says of signals, if there is one.
pub fn mappings_of<'a>(alloc: Global, line: Option<&'a str>) -> Result<Vec<Mapping<'a>>, AllocError>
    ensures { IfOk result (λ mappings. AreSaid (option_map (λ line. line.now) line.entry) mappings.items) }
{
    let mut mappings = Vec::new(alloc);
    if let Some(line) = line {
        push_mappings(&mut mappings, line)?;
    }
    Ok(mappings)
}
