//! The least header of a text.
ghost use Rattle.std.specs.Prelude.{◌≡◌, false, IfOk};
ghost use Rattle.micro_walk.specs.Faults.{has_loop};
ghost use Rattle.micro_lint.specs.Least.{FitWords, IsEnoughIf, FindsLeast};

use crate::facts::{facts_of, needs_of};
use crate::header::Header;
use crate::least_number::find_least;
use micro_explain::HeaderNumber;
use micro_walk::examine;
use micro_word::{Text, Word};
use nand_geometry::Geometry;
use std::alloc::{AllocError, Allocator};

/// Whether the verifier accepts words with these numbers as their header; and the words.
pub(crate) fn try_header<A: Allocator>(
    words: Vec<Word, A>,
    geometry: &Geometry,
    header: Header,
) -> (Vec<Word, A>, bool)
    requires fit { FitWords words.items }
    ensures words { result.0.items ≡ words.items }
    ensures enough { has_loop words.items ≡ false → IsEnoughIf result.1 geometry.now words.items header }
{
    let Ok(rows) = u16::try_from(header.rows) else {
        return (words, false);
    };
    match Text::of(rows, header.buffer, header.budget, words) {
        Ok(text) => {
            let is_enough = examine(&text, geometry).is_ok();
            (text.into_words(), is_enough)
        }
        Err(refused) => (refused.words, false),
    }
}

// The words of a text, for trials.
fn copy_words<A: Allocator, B: Allocator>(
    alloc: B,
    text: &Text<A>,
) -> Result<Vec<Word, B>, AllocError>
    ensures same { IfOk result (λ words. words.items ≡ text.now.words) }
    ensures fit { IfOk result (λ words. FitWords words.items) }
{
    let mut words = Vec::new(alloc);
    words.extend_from_slice(text.words())?;
    Ok(words)
}

/// The least numbers that the header of a text may give for the verifier to accept it for a geometry; None where it accepts it with none. Each number is the least
/// whatever the others are. Of a text with loops they are those that its certificate needs. It takes some 700 bytes for each word while it works.
pub fn least_header<A: Allocator, B: Allocator + Clone>(
    alloc: B,
    text: &Text<A>,
    geometry: &Geometry,
) -> Result<Option<Header>, AllocError>
    ensures { IfOk result (λ found. has_loop text.now.words ≡ false → FindsLeast geometry.now text.now.words found) }
{
    let facts = facts_of(alloc.clone()?, text, geometry)?;
    let guess = Header::for_needs(needs_of(facts.as_slice())).unwrap_or(Header::LARGEST);
    let words = copy_words(alloc, text)?;
    let (words, is_enough) = try_header(words, geometry, Header::LARGEST);
    if !is_enough {
        return Ok(None);
    }
    let (words, rows) = find_least(words, geometry, HeaderNumber::Rows, guess.rows);
    let (words, buffer) = find_least(words, geometry, HeaderNumber::Buffer, guess.buffer);
    let (_, budget) = find_least(words, geometry, HeaderNumber::Budget, guess.budget);
    Ok(Some(Header {
        rows,
        buffer,
        budget,
    }))
}
