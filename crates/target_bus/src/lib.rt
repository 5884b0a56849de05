//! The bus of a channel in front of its dies: it takes a cycle where the rules permit it, works it on the dies, and keeps
//! the trace. The dies, the running state and the trace always tell the same (docs/model/MODEL.md).
//!
//! [`Bus`] is the bus; [`DiesRefused`] says why dies are no channel, a [`BusRefusal`] why a cycle doesn't come. The definitions
//! stand in `specs/Bus`.
#![tactic(auto)]

mod bus;
mod going_on;
mod opening;
mod refusal;
mod showing;
mod working;

pub use bus::Bus;
pub use refusal::{BusFault, BusRefusal, DiesRefused};
