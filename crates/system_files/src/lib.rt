//! The files of the system, as the program's commands use them: [`RealFiles`], by the traits of `seq_files`.
#![tactic(auto)]

mod file_names;
mod real_files;

pub use real_files::RealFiles;
