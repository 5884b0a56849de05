//! Dies and the bus before them: what worked cycles do, and what comes of refusals. Only tests stand here.
#![tactic(auto)]

#[cfg(test)]
mod bus_tests;
#[cfg(test)]
mod die_tests;
#[cfg(test)]
mod input_tests;
#[cfg(test)]
mod output_tests;
