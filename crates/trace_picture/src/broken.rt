//! Where a trace breaks a rule.

use onfi_cycle::Forbidden;
use std::fmt;

/// An item that breaks a rule, counted from 0, with its chip enable and the rule.
#[derive(Clone, Copy, Debug, PartialEq, Eq)]
pub struct Broken {
    pub ce: u8,
    pub item: usize,
    pub rule: Forbidden,
}

impl fmt::Display for Broken {
    fn fmt<W: fmt::Write>(&self, f: &mut fmt::Formatter<W>) -> fmt::Result {
        let Broken { ce: _, item, rule } = *self;
        write!(f, "{} at item {item}: {rule}", rule.code())
    }
}
