//! A trace as a picture (SVG 1.1), for a browser or a pull request: [`draw`], and [`draw_timed`] where its items have times.
//!
//! For each chip enable there is a lane with a box for each sequence of commands, and one for each run of outputs after it; below it, for each of its
//! LUNs, a lane with the time in which the LUN is busy (dark) or its array works on after a cache read or a cache program (light), and with its failures. Time goes to the
//! right by items, and the small numbers count them. Inputs or outputs in a row take less room the more they are. A picture wider than 1,500 points goes
//! on in the strip below. Where an item breaks a rule there is a red line along its target's lanes, and the rule stands below them; the item is grey, and so
//! is what goes on with it. A line at the end says what the colours mean.
//!
//! What is in the picture stands in a [`Timeline`], and each [`Piece`] of a box covers cycles that follow one another: each cycle is in one piece.
#![tactic(auto)]

mod broken;
mod label;
mod lane;
mod layout;
mod picture;
mod piece;
mod places;
mod span;
mod timeline;
mod word;

pub use broken::Broken;
pub use label::{Label, Shown};
pub use picture::{draw, draw_timed};
pub use piece::{Piece, Sequence};
pub use span::{Failure, Span, Worker};
pub use timeline::Timeline;
pub use word::Word;
