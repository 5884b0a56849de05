//! Damaged input of a fixed generator: images, assembly texts and parameter pages. Only tests stand here.
#![tactic(auto)]

#[cfg(test)]
mod asm_tests;
#[cfg(test)]
mod image_tests;
#[cfg(test)]
mod page_tests;
#[cfg(test)]
mod random;
