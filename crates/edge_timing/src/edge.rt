//! The edges of a bus.

/// An edge at which a time ends.
#[derive(Clone, Copy, Debug, PartialEq, Eq)]
pub enum Edge {
    WeFalls,
    WeRises,
    ReFalls,
    ReRises,
    DqChanges,
    CleChanges,
    AleChanges,
    EnableFalls,
    EnableRises,
}

impl Edge {
    /// It in words.
    pub fn words(self) -> &'static str {
        match self {
            Edge::WeFalls => "WE# falls",
            Edge::WeRises => "WE# rises",
            Edge::ReFalls => "RE# falls",
            Edge::ReRises => "RE# rises",
            Edge::DqChanges => "DQ changes",
            Edge::CleChanges => "CLE changes",
            Edge::AleChanges => "ALE changes",
            Edge::EnableFalls => "CE# falls",
            Edge::EnableRises => "CE# rises",
        }
    }

    /// Its place among those of one time: the strobes first, then DQ, CLE, ALE and CE#.
    pub fn rank(self) -> u8 {
        match self {
            Edge::WeFalls | Edge::WeRises | Edge::ReFalls | Edge::ReRises => 0,
            Edge::DqChanges => 1,
            Edge::CleChanges => 2,
            Edge::AleChanges => 3,
            Edge::EnableFalls | Edge::EnableRises => 4,
        }
    }
}
