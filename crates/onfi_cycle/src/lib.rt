//! The cycles of a NAND channel, and which cycle is permitted after which trace.
//!
//! The definitions stand in `specs/`: they look back over a whole trace. The code here judges an item by the facts of its target
//! alone, those of the tail ([`TailFacts`]) and those of each LUN ([`LunFacts`]):
//!
//! - what happens: [`Item`], [`Cycle`], [`Kind`], [`Lun`], and a cycle as its target sees it: [`TargetCycle`], [`Command`];
//! - the facts of a tail: [`Opening`], [`DataPhase`], [`RowBytes`]; those of a LUN: [`Latch`], [`Register`], [`ReadColumn`], [`Queued`];
//! - the rules: [`judge`] tells the first that an item breaks, a [`Forbidden`];
//! - what an item does to a LUN, an [`Effect`] ([`item_effect`]), and to its page registers, a [`Filling`];
//! - the running state of a channel: [`BusState`], which judges an item and goes on by it. Its parts are one [`TargetState`] a target
//!   and one [`LunFacts`] a LUN; [`LunState`] is a look at one from outside.
#![tactic(auto)]

mod bus_state;
mod command;
mod data_phase;
mod effect;
mod filling;
mod forbidden;
mod held;
mod item;
mod item_effects;
mod latch;
pub mod laws;
mod lun;
mod lun_facts;
mod lun_state;
mod opening;
mod page_address;
mod queued;
mod read_column;
mod readies;
mod register;
mod row_bytes;
mod rules;
mod running_lun;
mod status;
mod tail_facts;
mod target_cycle;
mod target_state;

pub use bus_state::BusState;
pub use command::{Command, READ_STATUS, READ_STATUS_ENHANCED};
pub use data_phase::{DataPhase, FEATURE_BYTES};
pub use effect::Effect;
pub use filling::Filling;
pub use forbidden::Forbidden;
pub use held::{HeldPages, MAX_PLANES, apply_to_held, has_reads, page_in_plane};
pub use item::{Cycle, Failures, Item, Kind};
pub use item_effects::{acts_for_target, cycle_effect, is_shared, item_effect};
pub use latch::Latch;
pub use lun::{Lun, MAX_CHANNEL_LUNS, MAX_TARGETS};
pub use lun_facts::{
    LunFacts, is_cache_program, is_cache_read, is_copyback_read, is_page_read, is_plane_program,
    is_target_work, keeps_array_busy, keeps_copy,
};
pub use lun_state::LunState;
pub use opening::Opening;
pub use page_address::PageAddress;
pub use queued::{Queued, RowQueue, WorkQueue};
pub use read_column::ReadColumn;
pub use readies::{readies_are_due, starts_work};
pub use register::{
    IDENTIFIER_BYTES, IDENTITY_BYTES, JEDEC_BYTES, PARAMETER_BYTES, Register, UNIQUE_ID_BYTES,
};
pub use row_bytes::RowBytes;
pub use rules::{driver, is_undeclared, judge, judge_cycle, judge_known_cycle};
pub use status::Status;
pub use tail_facts::TailFacts;
pub use target_cycle::TargetCycle;
pub use target_state::TargetState;
