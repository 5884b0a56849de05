//! Waveforms: a trace as a value change dump (IEEE 1364-2005, 18), which GTKWave, PulseView and others open.
//!
//! Item k lies in the times 10k to 10k + 9, so a marker at time T is in item T / 10. Within an item:
//!
//! - at 0 the chip enables, CLE, ALE and, but for an output, DQ;
//! - at 2 the strobe falls, WE# or for an output RE#, whose byte is then on DQ;
//! - at 6 it rises, and there a cycle is sampled. At 6 stands also what the item does: R/B#, and of each LUN busy, array and fail.
//!
//! What isn't named keeps its level, and a time at which nothing changes isn't written. `fail` is high from a ready, also that of an array, that tells a failure of the
//! work that it ends, to the item after it. After the first item that breaks a rule `rule` is the rule's number, and R/B#, busy, array and fail are x: the model says nothing more. The lines of
//! the bus go on.
//!
//! [`write_dump`] writes a whole trace. A [`Dump`] writes it in pieces, which its caller takes out of the `Vec` as they come.
#![tactic(auto)]

mod bus;
mod channel;
mod dump;
mod header;
mod item_count;
mod levels;
mod model;
mod room;
mod text;
mod told;

pub use channel::Channel;
pub use dump::{Dump, write_dump};
pub use item_count::ItemCount;
pub use told::Told;
