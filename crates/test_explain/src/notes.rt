//! What is noted of microprograms that are accepted.

mod header_tests;
mod table;
mod worked_tests;
