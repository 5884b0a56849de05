//! The least that one number of a header may be.
ghost use Rattle.std.specs.Prelude.{◌≡◌, ◌-◌, ◌<◌, ◌≤◌, false};
ghost use Rattle.micro_walk.specs.Faults.{has_loop};
ghost use Rattle.micro_lint.specs.Least.{FitWords, IsEnough, IsLeastNumber, IsBetween, largest, least_of, most_of, largest_but};

use crate::header::Header;
use crate::least::try_header;
use micro_explain::HeaderNumber;
use micro_word::Word;
use nand_geometry::Geometry;
use std::alloc::Allocator;

// The search for the least that a number may be beside the largest others: `high` is enough, and nothing below `low` is.
#[derive(Drop)]
struct Search<A: Allocator> {
    words: Vec<Word, A>,
    low: u32,
    high: u32,
}

// The least that any header gives.
fn least_of(number: HeaderNumber) -> u32
    ensures { result ≡ least_of number }
{
    match number {
        HeaderNumber::Rows => 1,
        HeaderNumber::Buffer | HeaderNumber::Budget => 0,
    }
}

// The most that any header gives.
fn most_of(number: HeaderNumber) -> u32
    ensures { result ≡ most_of number }
{
    match number {
        HeaderNumber::Rows => Header::LARGEST.rows,
        HeaderNumber::Buffer => Header::LARGEST.buffer,
        HeaderNumber::Budget => Header::LARGEST.budget,
    }
}

// The largest header, with another number there.
fn largest_but(number: HeaderNumber, to: u32) -> Header
    ensures { result ≡ largest_but number to }
{
    match number {
        HeaderNumber::Rows => Header {
            rows: to,
            ..Header::LARGEST
        },
        HeaderNumber::Buffer => Header {
            buffer: to,
            ..Header::LARGEST
        },
        HeaderNumber::Budget => Header {
            budget: to,
            ..Header::LARGEST
        },
    }
}

impl<A: Allocator> Search<A> {
    // Goes on by one number between the two, if it is: it is tried.
    fn narrowed(self, geometry: &Geometry, number: HeaderNumber, tried: u32) -> Search<A>
        requires fit { FitWords self.words.items }
        requires inside { self.low ≤ self.high }
        ensures words { result.words.items ≡ self.words.items }
        ensures inside { result.low ≤ result.high }
        ensures between { has_loop self.words.items ≡ false → IsBetween geometry.now self.words.items number self.low self.high
            → IsBetween geometry.now self.words.items number result.low result.high }
        ensures closer { self.low ≤ tried → tried < self.high → result.high - result.low < self.high - self.low }
    {
        let Search { words, low, high } = self;
        if tried < low || high <= tried {
            return Search { words, low, high };
        }
        let (words, is_enough) = try_header(words, geometry, largest_but(number, tried));
        if is_enough {
            Search {
                words,
                low,
                high: tried,
            }
        } else {
            Search {
                words,
                low: tried + 1,
                high,
            }
        }
    }

    // The search at its end.
    fn ended(self, geometry: &Geometry, number: HeaderNumber) -> Search<A>
        requires fit { FitWords self.words.items }
        requires inside { self.low ≤ self.high }
        ensures words { result.words.items ≡ self.words.items }
        ensures ended { result.low ≡ result.high }
        ensures between { has_loop self.words.items ≡ false → IsBetween geometry.now self.words.items number self.low self.high
            → IsBetween geometry.now self.words.items number result.low result.high }
    {
        let mut search = self;
        while search.low < search.high {
            let middle = search.low.midpoint(search.high);
            search = search.narrowed(geometry, number, middle);
        }
        search
    }
}

/// The least that a number of the header may be where the others are the largest, with which the words are accepted; and the words. It tries a guess and the number
/// before it first, and so is done with two questions where the guess is right.
pub(crate) fn find_least<A: Allocator>(
    words: Vec<Word, A>,
    geometry: &Geometry,
    number: HeaderNumber,
    guess: u32,
) -> (Vec<Word, A>, u32)
    requires fit { FitWords words.items }
    ensures words { result.0.items ≡ words.items }
    ensures least { has_loop words.items ≡ false → IsEnough geometry.now words.items largest → IsLeastNumber geometry.now words.items number result.1 }
{
    let search = Search {
        words,
        low: least_of(number),
        high: most_of(number),
    };
    let search = search.narrowed(geometry, number, guess);
    let search = search.narrowed(geometry, number, guess.saturating_sub(1));
    let Search { words, high, .. } = search.ended(geometry, number);
    (words, high)
}
