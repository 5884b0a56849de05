//! Pages, word files, assembly, traces and run files: what no command shows of them, and files of generators. Only tests stand here.
#![tactic(auto)]

#[cfg(test)]
mod asm_tests;
#[cfg(test)]
mod check_tests;
#[cfg(test)]
mod dis_tests;
#[cfg(test)]
mod geometry_tests;
#[cfg(test)]
mod page_tests;
#[cfg(test)]
mod recorded_tests;
#[cfg(test)]
mod run_tests;
#[cfg(test)]
mod trace_tests;
#[cfg(test)]
mod word_tests;
