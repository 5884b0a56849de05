//! The definitions of a trace, run as they stand: each fact looks back over the whole past.
//!
//! Slow and plain on purpose: this is what tests compare the running state of a channel with. In the functions
//! of [`past`] and [`content`] a past is a slice of items, the newest first; [`broken`] and [`check`] take the
//! items of a trace in the order of time.
#![tactic(auto)]

pub mod content;
pub mod past;
pub mod trace;
pub mod works;

ghost use Rattle.std.specs.Prelude.{List};

use onfi_cycle::{Lun, PageAddress};
use std::marker::Model;
pub use trace::{broken, check};
pub use works::{ArrayWork, WorkKind};

/// A page of the opening content, with its bytes.
#[derive(Drop)]
pub struct WrittenPage {
    pub lun: Lun,
    pub at: PageAddress,
    pub bytes: Vec<u8>,
}

impl Model for WrittenPage {
    ghost use Rattle.oracle_onfi.specs.Opening.{PageContent};

    ghost Value = { PageContent };

    ghost view = { λ w. record { lun = w.lun; at = w.at; bytes = w.bytes.items } };
}
