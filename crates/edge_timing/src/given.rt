//! Which lines have been given a level.
ghost use Rattle.std.specs.Prelude.{◌≡◌, false, replicate};
ghost use Rattle.edge_timing.specs.Watched.{has_level, with_given_one, with_given};

use bus_signals::{Role, Source};

/// Which lines a capture has given a level so far.
#[derive(Clone, Copy, Debug, PartialEq, Eq)]
pub struct Given {
    pub(crate) of: [bool; 68],
}

impl Given {
    /// None has one.
    pub fn none() -> Given
        ensures { result.of ≡ replicate 68 false }
    {
        Given { of: [false; 68] }
    }

    /// This line has one.
    pub fn has(&self, role: Role) -> bool
        ensures { result ≡ has_level self.now.of role }
    {
        self.of.get(role.place()).copied().unwrap_or(false)
    }

    // The line of this source is given one, where the code is its own.
    fn give_one(&mut self, source: Source, code: u64)
        ensures { self.new.of ≡ with_given_one source code self.old.of }
    {
        if source.code == code {
            self.of[source.role.place()] = true;
        }
    }

    /// The lines of a code are given one.
    pub fn give(&mut self, sources: &[Source], code: u64)
        ensures { self.new.of ≡ with_given sources.now code self.old.of }
    {
        for source in sources {
            self.give_one(*source, code);
        }
    }
}
