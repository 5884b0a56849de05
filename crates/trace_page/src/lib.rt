//! A trace as a page for a browser: its picture, and its text beside it. A click on a box of the picture shows the items of it.
//!
//! The page is one file: a few lines of style and script, and nothing that is fetched.
#![tactic(auto)]

mod page;

pub use page::write_page;
