//! Jobs on channels of new dies, run by workers in threads of their own: who does which job, and in which order. Only tests stand here.
#![tactic(auto)]

#[cfg(test)]
mod chance;
#[cfg(test)]
mod scene;
#[cfg(test)]
mod scene_tests;
