//! The definitions of a trace on worked examples, and beside a look back the running bus, the sequencer and runs of data: after each
//! item of made traces, and after each event of a list, the running state is what a look back at the whole trace tells. Only tests stand
//! here, so that nothing that is built on them needs the look-back.
#![tactic(auto)]

#[cfg(test)]
mod bus_tests;
#[cfg(test)]
mod core_tests;
#[cfg(test)]
mod made;
#[cfg(test)]
mod run_tests;
#[cfg(test)]
mod state_agrees;
#[cfg(test)]
mod worked;
#[cfg(test)]
mod worked_audit;
#[cfg(test)]
mod worked_content;
#[cfg(test)]
mod worked_facts;
#[cfg(test)]
mod worked_traces;
