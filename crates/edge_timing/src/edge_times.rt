//! How long the times between edges are.
ghost use Rattle.std.specs.Prelude.{◌≡◌, ◌<◌, ◌^◌};
ghost use Rattle.edge_timing.specs.Times.{AreEdgeBounded, least};

use crate::edge_timing::EdgeTiming;
use trace_timing::{PageTimes, TimingFile, TimingMode, Timings, timings_of};

// Femtoseconds in a nanosecond.
const NANOSECOND: u64 = 1_000_000;

/// The least times of a chip or of a timing mode that edges show, each in femtoseconds and below 2 to the 62.
#[derive(Clone, Copy, Debug, PartialEq, Eq)]
pub struct EdgeTimes {
    /// Those that a trace shows too, and the two pulses.
    pub shown: Timings,
    pub t_wh: u64,
    pub t_reh: u64,
    pub t_ds: u64,
    pub t_dh: u64,
    pub t_cls: u64,
    pub t_clh: u64,
    pub t_als: u64,
    pub t_alh: u64,
    pub t_cs: u64,
    pub t_ch: u64,
    pub t_ceh: u64,
    pub t_ar: u64,
    pub t_clr: u64,
}

// What differs between the modes beside what a trace shows, in nanoseconds: the high time of a strobe, the setup of DQ, that of CLE and ALE, that of CE#, the hold of DQ,
// that of the others, and the times from ALE and CLE to a read.
#[derive(Clone, Copy)]
struct ModeEdges {
    high: u8,
    data_setup: u8,
    latch_setup: u8,
    enable_setup: u8,
    data_hold: u8,
    latch_hold: u8,
    ale_to_read: u8,
    cle_to_read: u8,
}

// What the modes 1 to 5 have in common, with these.
const fn faster(
    high: u8,
    data_setup: u8,
    latch_setup: u8,
    enable_setup: u8,
    data_hold: u8,
    latch_hold: u8,
) -> ModeEdges {
    ModeEdges {
        high,
        data_setup,
        latch_setup,
        enable_setup,
        data_hold,
        latch_hold,
        ale_to_read: 10,
        cle_to_read: 10,
    }
}

// What differs. Compared with the tables of Linux 6.1 (nand_timings.c), where each of these numbers is the same.
fn edges_of(mode: TimingMode) -> ModeEdges {
    match mode {
        TimingMode::Zero => ModeEdges {
            high: 30,
            data_setup: 40,
            latch_setup: 50,
            enable_setup: 70,
            data_hold: 20,
            latch_hold: 20,
            ale_to_read: 25,
            cle_to_read: 20,
        },
        TimingMode::One => faster(15, 20, 25, 35, 10, 10),
        TimingMode::Two => faster(15, 15, 15, 25, 5, 10),
        TimingMode::Three => faster(10, 10, 10, 25, 5, 5),
        TimingMode::Four => faster(10, 10, 10, 20, 5, 5),
        TimingMode::Five => faster(7, 7, 10, 15, 5, 5),
    }
}

// A number of nanoseconds in femtoseconds.
fn femtoseconds(nanoseconds: u8) -> u64
    ensures { result < 2 ^ 62 }
{
    u64::from(nanoseconds) * NANOSECOND
}

impl EdgeTimes {
    /// Those of a timing mode, for a chip of this parameter page.
    pub fn of_mode(mode: TimingMode, page: PageTimes) -> EdgeTimes
        ensures { AreEdgeBounded result }
    {
        let edges = edges_of(mode);
        EdgeTimes {
            shown: timings_of(mode, page),
            t_wh: femtoseconds(edges.high),
            t_reh: femtoseconds(edges.high),
            t_ds: femtoseconds(edges.data_setup),
            t_dh: femtoseconds(edges.data_hold),
            t_cls: femtoseconds(edges.latch_setup),
            t_clh: femtoseconds(edges.latch_hold),
            t_als: femtoseconds(edges.latch_setup),
            t_alh: femtoseconds(edges.latch_hold),
            t_cs: femtoseconds(edges.enable_setup),
            t_ch: femtoseconds(edges.latch_hold),
            t_ceh: femtoseconds(20),
            t_ar: femtoseconds(edges.ale_to_read),
            t_clr: femtoseconds(edges.cle_to_read),
        }
    }

    /// Those of a timing file, for a chip of this parameter page.
    pub fn of_file(file: &TimingFile, page: PageTimes) -> EdgeTimes
        ensures { AreEdgeBounded result }
    {
        let base = EdgeTimes::of_mode(file.mode(), page);
        EdgeTimes {
            shown: file.timings(page),
            t_wh: file.time_named("tWH", base.t_wh),
            t_reh: file.time_named("tREH", base.t_reh),
            t_ds: file.time_named("tDS", base.t_ds),
            t_dh: file.time_named("tDH", base.t_dh),
            t_cls: file.time_named("tCLS", base.t_cls),
            t_clh: file.time_named("tCLH", base.t_clh),
            t_als: file.time_named("tALS", base.t_als),
            t_alh: file.time_named("tALH", base.t_alh),
            t_cs: file.time_named("tCS", base.t_cs),
            t_ch: file.time_named("tCH", base.t_ch),
            t_ceh: file.time_named("tCEH", base.t_ceh),
            t_ar: file.time_named("tAR", base.t_ar),
            t_clr: file.time_named("tCLR", base.t_clr),
        }
    }

    /// How long a time is at the least.
    pub fn least(self, timing: EdgeTiming) -> u64
        ensures { result ≡ least self timing }
    {
        match timing {
            EdgeTiming::AddressToInput => self.shown.t_adl,
            EdgeTiming::AleHold => self.t_alh,
            EdgeTiming::AleSetup => self.t_als,
            EdgeTiming::AleToRead => self.t_ar,
            EdgeTiming::ColumnChange => self.shown.t_ccs,
            EdgeTiming::EnableHigh => self.t_ceh,
            EdgeTiming::EnableHold => self.t_ch,
            EdgeTiming::CleHold => self.t_clh,
            EdgeTiming::CleToRead => self.t_clr,
            EdgeTiming::CleSetup => self.t_cls,
            EdgeTiming::EnableSetup => self.t_cs,
            EdgeTiming::DataHold => self.t_dh,
            EdgeTiming::DataSetup => self.t_ds,
            EdgeTiming::ReadCycle => self.shown.t_rc,
            EdgeTiming::ReadHigh => self.t_reh,
            EdgeTiming::OutputToCommand => self.shown.t_rhw,
            EdgeTiming::ReadPulse => self.shown.t_rp,
            EdgeTiming::ReadyToOutput => self.shown.t_rr,
            EdgeTiming::ToBusy => self.shown.t_wb,
            EdgeTiming::WriteCycle => self.shown.t_wc,
            EdgeTiming::WriteHigh => self.t_wh,
            EdgeTiming::ToOutput => self.shown.t_whr,
            EdgeTiming::WritePulse => self.shown.t_wp,
        }
    }
}
