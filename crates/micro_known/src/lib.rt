//! What the verifier knows before each word of a microprogram, in words for its author.
//!
//! [`KnownWords`] has the states that the verifier's own search finds ([`fill_known`](micro_walk::fill_known)); nothing is computed a second time. An [`Aspect`] of
//! a state is what is known of one thing, and [`InWords`] says it. [`Ways`] tells which words lead to a word, and what each of them brings there.
#![tactic(auto)]

mod aspect;
mod known_words;
mod lun_words;
mod span_words;
mod tail_words;
mod ways;

pub use aspect::{Aspect, InWords};
pub use known_words::KnownWords;
pub use ways::{Ways, push_brought};
