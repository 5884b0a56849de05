//! Jobs on channels of new dies: what stands on the bus, what each call answers, and what comes of a refusal. Only tests stand here.
#![tactic(auto)]

#[cfg(test)]
mod call_tests;
#[cfg(test)]
mod refusal_tests;
#[cfg(test)]
mod tests;
