//! What becomes of a channel on which verified microprograms run.
//!
//! The definitions stand in `specs/`: the slots of a channel (`World`), what happens on it and how that is answered
//! (`Event`, `Reply`), what an event leaves and what a run comes to (`After`), what each event keeps (`Lawful`), and the
//! laws (`Headline`), the main theorem last. They are proved as the contracts of `laws`. `Core` runs programs: each call is
//! an event (`Calls`), and `run_events` does a list of them (`EventList`). What a program does to its buffer and which cycles it
//! makes have their own definitions (`Buffer`, `Made`).
#![tactic(auto)]

mod event_list;
mod job;
mod job_fault;
pub mod laws;
mod load_fault;
mod loops;
pub mod lun_slots;
pub mod outcome;
mod playing;
mod registers;
mod sequencer;
mod slot;
mod slot_state;
mod stepped;
mod unload_fault;

pub use event_list::{Event, Ran, Reply, Shortage, do_event, run_events};
pub use job::{Job, JobRefused};
pub use job_fault::JobFault;
pub use load_fault::LoadFault;
pub use registers::Registers;
pub use sequencer::{Core, LoadRefused, UnloadedJob};
pub use slot::Slot;
pub use slot_state::SlotState;
pub use stepped::Stepped;
pub use unload_fault::UnloadFault;
