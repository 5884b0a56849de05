//! Verifying microprograms: which texts are safe, and why another isn't.
//!
//! [`verify`] walks a text (`micro_walk`) and makes a `Verified` of it (`micro_program`). The definitions in `specs/` say what a refusal is
//! worth: `Lazy` has the run of a straight text on a channel of one LUN that becomes ready as late as it may, `Cause` what stands after
//! that run where the text is refused, and the law: wherever such a text is refused for a word, the cause is there.
//!
//! [`plain`] makes a text of a list of reads, programs and erases, which is verified without a walk: it is known of every such text that
//! nothing is against it. `Plain` has the words of each operation, the header, and what is wrong with a list that is refused.
#![tactic(auto)]

mod lacking;
pub mod laws;
mod moves;
pub mod plain_laws;
mod plain_making;
mod plain_op;
mod plain_refusal;
mod playing;
mod refusal;
mod registers;
mod showing;
mod verifying;

pub use plain_making::plain;
pub use plain_op::PlainOp;
pub use plain_refusal::{PlainFault, PlainRefusal};
pub use refusal::{TextRefused, VerifyRefusal};
pub use showing::{Counter, counter_of};
pub use verifying::verify;
