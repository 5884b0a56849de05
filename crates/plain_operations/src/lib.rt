//! What the operations of a trace ([`trace_ops`]) are to a program of plain operations ([`plain`](micro_verify::plain)) that left it: each of them has one line,
//! in order. Nothing stands on this crate; [`lines_are_operations`](laws::lines_are_operations) is its law.
#![tactic(auto)]

pub mod laws;
