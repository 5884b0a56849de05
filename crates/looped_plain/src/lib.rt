//! Plain operations in a loop: each text of them is accepted by the verifier ([`verify`](micro_verify::verify)), whatever the operations and however many turns.
//! `specs/Looped` says which texts these are. Nothing stands on this crate; [`looped_texts_are_found`](laws::looped_texts_are_found) is its law.
#![tactic(auto)]

mod accepting;
pub mod laws;

pub use accepting::{certify_looped, verify_looped};
