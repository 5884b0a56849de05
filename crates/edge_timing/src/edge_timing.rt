//! The least times that edges show.
ghost use Rattle.std.specs.Prelude.{◌≡◌, ◌<◌};
ghost use Rattle.edge_timing.specs.Codes.{fault_of};

use crate::edge_fault::EdgeFault;
use trace_timing::TimingFault;

/// A least time that edges show, in the order of the names.
#[derive(Clone, Copy, Debug, PartialEq, Eq)]
pub enum EdgeTiming {
    AddressToInput,
    AleHold,
    AleSetup,
    AleToRead,
    ColumnChange,
    EnableHigh,
    EnableHold,
    CleHold,
    CleToRead,
    CleSetup,
    EnableSetup,
    DataHold,
    DataSetup,
    ReadCycle,
    ReadHigh,
    OutputToCommand,
    ReadPulse,
    ReadyToOutput,
    ToBusy,
    WriteCycle,
    WriteHigh,
    ToOutput,
    WritePulse,
}

impl EdgeTiming {
    /// How many there are.
    pub const COUNT: usize = 23;

    /// All of them, in this order.
    pub const ALL: &'static [EdgeTiming] = &[
        EdgeTiming::AddressToInput,
        EdgeTiming::AleHold,
        EdgeTiming::AleSetup,
        EdgeTiming::AleToRead,
        EdgeTiming::ColumnChange,
        EdgeTiming::EnableHigh,
        EdgeTiming::EnableHold,
        EdgeTiming::CleHold,
        EdgeTiming::CleToRead,
        EdgeTiming::CleSetup,
        EdgeTiming::EnableSetup,
        EdgeTiming::DataHold,
        EdgeTiming::DataSetup,
        EdgeTiming::ReadCycle,
        EdgeTiming::ReadHigh,
        EdgeTiming::OutputToCommand,
        EdgeTiming::ReadPulse,
        EdgeTiming::ReadyToOutput,
        EdgeTiming::ToBusy,
        EdgeTiming::WriteCycle,
        EdgeTiming::WriteHigh,
        EdgeTiming::ToOutput,
        EdgeTiming::WritePulse,
    ];

    /// Its place among them.
    pub fn place(self) -> usize
        ensures { result < 23 }
    {
        match self {
            EdgeTiming::AddressToInput => 0,
            EdgeTiming::AleHold => 1,
            EdgeTiming::AleSetup => 2,
            EdgeTiming::AleToRead => 3,
            EdgeTiming::ColumnChange => 4,
            EdgeTiming::EnableHigh => 5,
            EdgeTiming::EnableHold => 6,
            EdgeTiming::CleHold => 7,
            EdgeTiming::CleToRead => 8,
            EdgeTiming::CleSetup => 9,
            EdgeTiming::EnableSetup => 10,
            EdgeTiming::DataHold => 11,
            EdgeTiming::DataSetup => 12,
            EdgeTiming::ReadCycle => 13,
            EdgeTiming::ReadHigh => 14,
            EdgeTiming::OutputToCommand => 15,
            EdgeTiming::ReadPulse => 16,
            EdgeTiming::ReadyToOutput => 17,
            EdgeTiming::ToBusy => 18,
            EdgeTiming::WriteCycle => 19,
            EdgeTiming::WriteHigh => 20,
            EdgeTiming::ToOutput => 21,
            EdgeTiming::WritePulse => 22,
        }
    }

    /// Its name in ONFI.
    pub fn name(self) -> &'static str {
        match self {
            EdgeTiming::AddressToInput => "tADL",
            EdgeTiming::AleHold => "tALH",
            EdgeTiming::AleSetup => "tALS",
            EdgeTiming::AleToRead => "tAR",
            EdgeTiming::ColumnChange => "tCCS",
            EdgeTiming::EnableHigh => "tCEH",
            EdgeTiming::EnableHold => "tCH",
            EdgeTiming::CleHold => "tCLH",
            EdgeTiming::CleToRead => "tCLR",
            EdgeTiming::CleSetup => "tCLS",
            EdgeTiming::EnableSetup => "tCS",
            EdgeTiming::DataHold => "tDH",
            EdgeTiming::DataSetup => "tDS",
            EdgeTiming::ReadCycle => "tRC",
            EdgeTiming::ReadHigh => "tREH",
            EdgeTiming::OutputToCommand => "tRHW",
            EdgeTiming::ReadPulse => "tRP",
            EdgeTiming::ReadyToOutput => "tRR",
            EdgeTiming::ToBusy => "tWB",
            EdgeTiming::WriteCycle => "tWC",
            EdgeTiming::WriteHigh => "tWH",
            EdgeTiming::ToOutput => "tWHR",
            EdgeTiming::WritePulse => "tWP",
        }
    }

    /// What is wrong where it isn't kept.
    pub fn fault(self) -> EdgeFault
        ensures { result ≡ fault_of self }
    {
        match self {
            EdgeTiming::WriteCycle => EdgeFault::Pause(TimingFault::WriteCycle),
            EdgeTiming::ReadCycle => EdgeFault::Pause(TimingFault::ReadCycle),
            EdgeTiming::AddressToInput => EdgeFault::Pause(TimingFault::AddressToInput),
            EdgeTiming::ToOutput => EdgeFault::Pause(TimingFault::ToOutput),
            EdgeTiming::ColumnChange => EdgeFault::Pause(TimingFault::ColumnChange),
            EdgeTiming::OutputToCommand => EdgeFault::Pause(TimingFault::OutputToCommand),
            EdgeTiming::ReadyToOutput => EdgeFault::Pause(TimingFault::ReadyToOutput),
            EdgeTiming::ToBusy => EdgeFault::Pause(TimingFault::ToBusy),
            EdgeTiming::WritePulse
            | EdgeTiming::WriteHigh
            | EdgeTiming::ReadPulse
            | EdgeTiming::ReadHigh => EdgeFault::Pulse,
            EdgeTiming::DataSetup
            | EdgeTiming::CleSetup
            | EdgeTiming::AleSetup
            | EdgeTiming::EnableSetup => EdgeFault::Setup,
            EdgeTiming::DataHold
            | EdgeTiming::CleHold
            | EdgeTiming::AleHold
            | EdgeTiming::EnableHold
            | EdgeTiming::EnableHigh => EdgeFault::Hold,
            EdgeTiming::CleToRead | EdgeTiming::AleToRead => EdgeFault::LatchToRead,
        }
    }
}
