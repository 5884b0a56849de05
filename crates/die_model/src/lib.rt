//! A die as it stands behind the bus: one LUN's pages, what it works on, and how its last work ended.
//!
//! [`LunDie`] is one LUN. It begins a [`Work`], or works what an item of the bus does to it; becoming ready it ends the work, and
//! its pages change. What it does meanwhile is its `Activity`. Its [`Pages`] are those that were programmed; every other page is FF.
//! An image keeps them in a file, and an [`ImageFault`] says why one is refused.
//!
//! The definitions stand in `specs/`: a die and what each work makes of it (`Die`), how a die stands for its LUN after a past
//! (`Standing`), its pages (`Pages`), and its image (`Image`, `Loading`).
#![tactic(auto)]

mod activity;
mod effects;
mod image;
pub mod laws;
mod loading;
mod lun_die;
mod page;
mod pages;
mod refusal;
mod unique_id;
mod work;

pub use lun_die::LunDie;
pub use pages::Pages;
pub use refusal::{ImageFault, ImageRefusal};
pub use work::Work;
