//! Drawings of traces: the dumps of worked traces, whole and in pieces, what is sampled off their lines, and the boxes, spans and failures of
//! pictures. Only tests stand here.
#![tactic(auto)]

#[cfg(test)]
mod dumps;
#[cfg(test)]
mod picture_tests;
#[cfg(test)]
mod sample_tests;
#[cfg(test)]
mod timeline_tests;
#[cfg(test)]
mod wave_tests;
