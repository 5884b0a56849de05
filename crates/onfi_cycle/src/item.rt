//! What happens on a channel.
ghost use Rattle.std.specs.Prelude.{◌≡◌};
ghost use Rattle.onfi_cycle.specs.Sequence.{target_of};

/// What a cycle carries, by the side that drives the bus (ONFI 4.x, Command Definition).
#[derive(Clone, Copy, Debug, PartialEq, Eq)]
pub enum Kind {
    /// A command byte to the die.
    Cmd,
    /// An address byte to the die.
    Adr,
    /// A data byte to the die.
    Din,
    /// A data byte from the die.
    Dout,
}

/// One cycle on the bus, with one chip enable active.
#[derive(Clone, Copy, Debug, PartialEq, Eq)]
pub struct Cycle {
    /// The chip enable, from 0.
    pub ce: u8,
    pub kind: Kind,
    pub byte: u8,
}

/// What a ready tells of failures.
#[derive(Clone, Copy, Debug, Default, PartialEq, Eq)]
pub struct Failures {
    /// The work that ends failed (FAIL).
    pub last: bool,
    /// The page before it failed, which a Page Cache Program left in the array (FAILC).
    pub before: bool,
}

/// What happens on a channel. A trace is a list of items.
#[derive(Clone, Copy, Debug, PartialEq, Eq)]
pub enum Item {
    /// A cycle on the bus.
    Cyc(Cycle),
    /// A busy LUN becomes ready (RDY), with failures or without.
    Rdy { ce: u8, lun: u8, fail: Failures },
    /// The array of a LUN becomes ready (ARDY) after a cache read, or after a cache program, which failed or not.
    Ard { ce: u8, lun: u8, fail: bool },
}

impl Item {
    /// Where an item happens: its chip enable.
    pub fn target(self) -> u8
        ensures { result ≡ target_of self }
    {
        match self {
            Item::Cyc(cycle) => cycle.ce,
            Item::Rdy { ce, .. } => ce,
            Item::Ard { ce, .. } => ce,
        }
    }
}
