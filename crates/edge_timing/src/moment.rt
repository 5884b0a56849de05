//! The bus at a time.
ghost use Rattle.std.specs.Prelude.{◌≡◌};
ghost use Rattle.bus_capture.specs.Sampling.{level};
ghost use Rattle.edge_timing.specs.Lines.{falls, rises};
ghost use Rattle.edge_timing.specs.Watched.{changes, changes_data, line_at};

use crate::given::Given;
use crate::line::{Line, differs, falls, rises};
use bus_capture::Levels;
use bus_signals::Role;
use vcd_text::Level;

/// The bus at a time: the levels before it and after it, and which lines had been given one before.
#[derive(Clone, Copy, Debug)]
pub struct Moment {
    pub time: u64,
    pub before: Levels,
    pub after: Levels,
    pub given: Given,
}

impl Moment {
    /// The level of a line before it.
    pub fn before(&self, role: Role) -> Level
        ensures { result ≡ level self.now.before.of role }
    {
        self.before.level(role)
    }

    /// The level of a line after it.
    pub fn after(&self, role: Role) -> Level
        ensures { result ≡ level self.now.after.of role }
    {
        self.after.level(role)
    }

    /// The line had a level and gets another one.
    pub fn changes(&self, role: Role) -> bool
        ensures { result ≡ changes self.now role }
    {
        self.given.has(role) && differs(self.before(role), self.after(role))
    }

    /// It goes from low to high.
    pub fn rises(&self, role: Role) -> bool
        ensures { result ≡ rises (level self.now.before.of role) (level self.now.after.of role) }
    {
        rises(self.before(role), self.after(role))
    }

    /// It goes from high to low.
    pub fn falls(&self, role: Role) -> bool
        ensures { result ≡ falls (level self.now.before.of role) (level self.now.after.of role) }
    {
        falls(self.before(role), self.after(role))
    }

    /// A bit of DQ changes.
    pub fn changes_data(&self) -> bool
        ensures { result ≡ changes_data self.now }
    {
        self.changes(Role::Dq(0))
            || self.changes(Role::Dq(1))
            || self.changes(Role::Dq(2))
            || self.changes(Role::Dq(3))
            || self.changes(Role::Dq(4))
            || self.changes(Role::Dq(5))
            || self.changes(Role::Dq(6))
            || self.changes(Role::Dq(7))
    }

    /// A line after it.
    pub fn line(&self, line: Line, role: Role) -> Line
        ensures { result ≡ line_at self.now line role }
    {
        line.after(
            self.time,
            self.given.has(role),
            self.before(role),
            self.after(role),
        )
    }
}
