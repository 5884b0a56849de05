//! Sequences that a user declares, since a vendor's chip or another profile has them: their file, read, and which items of a trace belong to them.
//!
//! [`read_sequences`] reads a file (docs/use/VENDOR.md), [`pass_over`] takes a trace apart into the items that are kept and those that belong to the sequences,
//! and [`carry_faults`] and [`carry_readies`] carry what is found in what is kept back to its places in the trace.
#![tactic(auto)]

mod carrying;
mod fault;
mod linux_host;
mod message;
mod part;
mod passed;
mod passing;
mod reading;
mod step;
mod token;

pub use carrying::{carry_faults, carry_readies, merge_faults};
pub use fault::{VendorFault, VendorFileFault, VendorRefusal};
pub use linux_host::linux;
pub use message::VendorMessage;
pub use part::Part;
pub use passed::{Passed, pass_over};
pub use reading::read_sequences;
pub use step::Step;
