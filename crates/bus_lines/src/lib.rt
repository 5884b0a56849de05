//! The lines of a bus: how a cycle is seen on them, and how cycles are read off them again.
//!
//! A cycle goes over the lines in three steps: its target is enabled and CLE, ALE and what the host drives are set up; its strobe falls, WE# for what
//! goes to the die and RE# for what comes from it; and the strobe rises. Whoever looks at the lines samples a cycle where a strobe rises, by the levels
//! just before ([`Lines::sampled`]). That gives back what was drawn ([`laws::sampling_gives_back`]).
#![tactic(auto)]

pub mod laws;
mod lines;

pub use lines::Lines;
