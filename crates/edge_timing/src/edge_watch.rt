//! A bus, from one time to the next.
ghost use Rattle.std.specs.Prelude.{◌≡◌, ◌+◌, ◌≤◌, OnOk, Err};
ghost use Rattle.trace_timing.specs.Wanted.{AreBounded};
ghost use Rattle.bus_capture.specs.Capturing.{is_known};
ghost use Rattle.edge_timing.specs.Judged.{IsJudging};
ghost use Rattle.edge_timing.specs.Watched.{target_at, with_target, write_distances, read_distances, cycle_distances, hold_distances, lets_go, enable_distances, watch_begun, after_cycle, after_holds, after_enable, after_ready, after_lines, strobe_distances, seen_step, strobes_step, target_step, targets_step, looked, moment_step, IsStepped};

use crate::distance::{Distance, between};
use crate::edge::Edge;
use crate::edge_timing::EdgeTiming;
use crate::held::Held;
use crate::judge::{EdgeJudge, EdgeRuler};
use crate::line::Line;
use crate::moment::Moment;
use crate::since::Since;
use crate::strobed::Strobed;
use crate::target_edges::TargetEdges;
use bus_capture::{BusFault, Seen, Strobe, seen_of};
use bus_signals::Role;
use onfi_cycle::Kind;
use std::alloc::{AllocError, Allocator};
use vcd_text::Level;

/// How many targets a channel has at most.
const TARGETS: usize = 4;

/// What is known of a bus.
#[derive(Clone, Copy, Debug, PartialEq, Eq)]
pub struct EdgeWatch {
    pub we: Line,
    pub re: Line,
    pub cle: Line,
    pub ale: Line,
    /// When a bit of DQ last changed.
    pub dq: Option<u64>,
    pub targets: [TargetEdges; TARGETS],
    pub held: Held,
    /// Somebody has driven the strobes.
    pub we_driven: bool,
    pub re_driven: bool,
}

/// Why a moment isn't judged.
#[derive(Clone, Copy, Debug, PartialEq, Eq)]
pub enum WatchStop {
    /// A strobe shows no cycle that can be read.
    Bus(BusFault),
    OutOfMemory,
}

impl From<AllocError> for WatchStop {
    ghost use Rattle.std.specs.Prelude.{◌≡◌};
    ghost use Rattle.edge_timing.specs.declared.edge_watch.WatchStop.TheVariants.{OutOfMemory};

    ghost from_gives = { λ _ stop. stop ≡ OutOfMemory };

    fn from(_error: AllocError) -> WatchStop {
        WatchStop::OutOfMemory
    }
}

// A level that somebody drives.
fn is_known(level: Level) -> bool
    ensures { result ≡ is_known level }
{
    match level {
        Level::Low | Level::High => true,
        Level::Unknown => false,
    }
}

impl EdgeWatch {
    /// Nothing has been seen.
    pub fn new() -> EdgeWatch
        ensures { result ≡ watch_begun }
    {
        EdgeWatch {
            we: Line::new(),
            re: Line::new(),
            cle: Line::new(),
            ale: Line::new(),
            dq: None,
            targets: [TargetEdges::new(); TARGETS],
            held: Held::nothing(),
            we_driven: false,
            re_driven: false,
        }
    }

    // What is known of a target.
    fn target(&self, ce: u8) -> TargetEdges
        ensures { result ≡ target_at self.now.targets ce }
    {
        match self.targets.get(usize::from(ce)) {
            Some(target) => *target,
            None => TargetEdges::new(),
        }
    }

    // This is known of a target from here on.
    fn set_target(&mut self, ce: u8, target: TargetEdges)
        ensures { self.new ≡ with_target self.old ce target }
    {
        let place = usize::from(ce);
        if place < TARGETS {
            self.targets[place] = target;
        }
    }

    // What a cycle that is written ends beside pauses: the high time of WE# before it, its pulse, and setups.
    fn write_distances(&self, target: &TargetEdges, strobed: Strobed) -> [Option<Distance>; 6]
        ensures { result ≡ write_distances self.now target.now strobed }
    {
        let Strobed { fell, rose, .. } = strobed;
        let rise = Edge::WeRises;
        let end = Some(rose);
        let (dq, cle, ale) = (self.dq, self.cle.changed, self.ale.changed);
        let (high, enable) = (target.we_rose, target.enable.changed);
        [
            between(
                EdgeTiming::WriteHigh,
                Edge::WeFalls,
                Since::Rise,
                high,
                fell,
            ),
            between(EdgeTiming::WritePulse, rise, Since::Fall, fell, end),
            between(EdgeTiming::DataSetup, rise, Since::DqChange, dq, end),
            between(EdgeTiming::CleSetup, rise, Since::CleChange, cle, end),
            between(EdgeTiming::AleSetup, rise, Since::AleChange, ale, end),
            between(
                EdgeTiming::EnableSetup,
                rise,
                Since::EnableChange,
                enable,
                end,
            ),
        ]
    }

    // What an output ends beside pauses: the high time of RE# before it, the times since the latches fell, and its pulse.
    fn read_distances(&self, target: &TargetEdges, strobed: Strobed) -> [Option<Distance>; 4]
        ensures { result ≡ read_distances self.now target.now strobed }
    {
        let Strobed { fell, rose, .. } = strobed;
        let fall = Edge::ReFalls;
        let (cle, ale) = (target.latch_fall(self.cle), target.latch_fall(self.ale));
        [
            between(
                EdgeTiming::ReadHigh,
                fall,
                Since::Rise,
                target.re_rose,
                fell,
            ),
            between(EdgeTiming::CleToRead, fall, Since::CleFall, cle, fell),
            between(EdgeTiming::AleToRead, fall, Since::AleFall, ale, fell),
            between(
                EdgeTiming::ReadPulse,
                Edge::ReRises,
                Since::Fall,
                fell,
                Some(rose),
            ),
        ]
    }

    // Judges what a cycle ends beside pauses.
    fn judge_strobe<A: Allocator>(
        &self,
        judge: &mut EdgeJudge<A>,
        target: &TargetEdges,
        strobed: Strobed,
    ) -> Result<(), AllocError>
        ensures { OnOk result (IsJudging judge.old judge.new (strobe_distances strobed.cycle.kind self.now target.now strobed)) }
    {
        match strobed.cycle.kind {
            Kind::Dout => judge.take_all(&self.read_distances(target, strobed)),
            Kind::Cmd | Kind::Adr | Kind::Din => {
                judge.take_all(&self.write_distances(target, strobed))
            }
        }
    }

    // Judges what a cycle ends.
    fn judge_cycle<A: Allocator>(
        &self,
        judge: &mut EdgeJudge<A>,
        strobed: Strobed,
    ) -> Result<(), AllocError>
        requires { AreBounded judge.old.ruler.times.shown }
        ensures { OnOk result (IsJudging judge.old judge.new (cycle_distances judge.old.ruler.times.shown judge.old.ruler.one_lun self.now strobed)) }
    {
        let EdgeRuler { times, one_lun, .. } = judge.ruler;
        let target = self.target(strobed.cycle.ce);
        self.judge_strobe(judge, &target, strobed)?;
        judge.take_all(&strobed.pauses(times.shown, one_lun, target.clock))
    }

    // Once a cycle has come.
    fn go_on_by(&mut self, strobed: Strobed)
        ensures { self.new ≡ after_cycle self.old strobed }
    {
        let ce = strobed.cycle.ce;
        let target = self.target(ce).after(strobed);
        self.set_target(ce, target);
        match strobed.cycle.kind {
            Kind::Dout => {}
            Kind::Cmd | Kind::Adr | Kind::Din => self.held = Held::by(ce, strobed.rose),
        }
    }

    // Goes on by what is seen of a strobe.
    fn take_seen<A: Allocator>(
        &mut self,
        judge: &mut EdgeJudge<A>,
        seen: Seen,
        fell: Option<u64>,
        rose: u64,
    ) -> Result<(), AllocError>
        requires { AreBounded judge.old.ruler.times.shown }
        ensures watch { OnOk result (self.new ≡ (seen_step judge.old.ruler.times.shown judge.old.ruler.one_lun seen fell rose self.old).watch) }
        ensures told { OnOk result (IsJudging judge.old judge.new (seen_step judge.old.ruler.times.shown judge.old.ruler.one_lun seen fell rose self.old).distances) }
    {
        match seen {
            Seen::Nothing | Seen::Unselected => Ok(()),
            Seen::Sampled(cycle) => {
                let strobed = Strobed { cycle, fell, rose };
                self.judge_cycle(judge, strobed)?;
                self.go_on_by(strobed);
                Ok(())
            }
        }
    }

    // What is seen of the strobes.
    fn look(&self, targets: u8, moment: &Moment) -> Result<(Seen, Seen), BusFault>
        requires few { targets ≤ 4 }
        ensures { result ≡ looked targets moment.now self.now }
    {
        let (before, after) = (&moment.before, &moment.after);
        let written = seen_of(targets, Strobe::Write, self.we_driven, before, after)?;
        let read = seen_of(targets, Strobe::Read, self.re_driven, before, after)?;
        Ok((written, read))
    }

    // Goes on by what the strobes show.
    fn take_strobes<A: Allocator>(
        &mut self,
        judge: &mut EdgeJudge<A>,
        written: Seen,
        read: Seen,
        time: u64,
    ) -> Result<(), AllocError>
        requires { AreBounded judge.old.ruler.times.shown }
        ensures watch { OnOk result (self.new ≡ (strobes_step judge.old.ruler.times.shown judge.old.ruler.one_lun written read time self.old).watch) }
        ensures told { OnOk result (IsJudging judge.old judge.new (strobes_step judge.old.ruler.times.shown judge.old.ruler.one_lun written read time self.old).distances) }
    {
        let read_fell = self.re.fell;
        self.take_seen(judge, written, self.we.fell, time)?;
        self.take_seen(judge, read, read_fell, time)
    }

    // Goes on by DQ, CLE and ALE.
    fn take_holds<A: Allocator>(
        &mut self,
        judge: &mut EdgeJudge<A>,
        moment: &Moment,
    ) -> Result<(), AllocError>
        ensures watch { OnOk result (self.new ≡ after_holds self.old moment.now) }
        ensures told { OnOk result (IsJudging judge.old judge.new (hold_distances self.old.held moment.now)) }
    {
        judge.take_all(&self.held.distances(moment))?;
        self.held = self.held.after(moment);
        if moment.changes_data() {
            self.dq = Some(moment.time);
        }
        Ok(())
    }

    // The last cycle that was written is let go by the CE# of its target.
    fn lets_go(&self, moment: &Moment, ce: u8) -> bool
        ensures { result ≡ lets_go self.now.held moment.now ce }
    {
        self.held.enable && self.held.target == ce && moment.rises(Role::Enable(ce))
    }

    // What the CE# of a target ends.
    fn enable_distances(&self, moment: &Moment, ce: u8) -> [Option<Distance>; 2]
        ensures { result ≡ enable_distances self.now moment.now ce }
    {
        let end = Some(moment.time);
        let high = if moment.falls(Role::Enable(ce)) {
            let rose = self.target(ce).enable.rose;
            between(
                EdgeTiming::EnableHigh,
                Edge::EnableFalls,
                Since::Rise,
                rose,
                end,
            )
        } else {
            None
        };
        let goes = self.lets_go(moment, ce);
        let rise = Edge::EnableRises;
        [
            high,
            self.held
                .until(goes, EdgeTiming::EnableHold, rise, moment.time),
        ]
    }

    // Once the CE# of a target has changed.
    fn note_enable(&mut self, moment: &Moment, ce: u8)
        ensures { self.new ≡ after_enable self.old moment.now ce }
    {
        let target = self.target(ce);
        let enable = moment.line(target.enable, Role::Enable(ce));
        self.held.enable = self.held.enable && !self.lets_go(moment, ce);
        self.set_target(ce, TargetEdges { enable, ..target });
    }

    // Once its R/B# has risen.
    fn note_ready(&mut self, moment: &Moment, ce: u8)
        ensures { self.new ≡ after_ready self.old moment.now ce }
    {
        if moment.rises(Role::ReadyBusy(ce)) {
            let target = self.target(ce);
            let clock = target.clock.ready(Some(moment.time));
            self.set_target(ce, TargetEdges { clock, ..target });
        }
    }

    // Once the CE# and the R/B# of a target have changed.
    fn note_target(&mut self, moment: &Moment, ce: u8)
        ensures { self.new ≡ (target_step moment.now ce self.old).watch }
    {
        self.note_enable(moment, ce);
        self.note_ready(moment, ce);
    }

    // Goes on by CE# and R/B# of so many targets from this one on.
    fn take_targets<A: Allocator>(
        &mut self,
        judge: &mut EdgeJudge<A>,
        moment: &Moment,
        count: u8,
        ce: u8,
    ) -> Result<(), AllocError>
        requires few { ce + count ≤ 4 }
        ensures watch { OnOk result (self.new ≡ (targets_step moment.now count ce self.old).watch) }
        ensures told { OnOk result (IsJudging judge.old judge.new (targets_step moment.now count ce self.old).distances) }
    {
        if count == 0 {
            return Ok(());
        }
        judge.take_all(&self.enable_distances(moment, ce))?;
        self.note_target(moment, ce);
        self.take_targets(judge, moment, count - 1, ce + 1)
    }

    // Notes the edges of the strobes and of the latches.
    fn note_lines(&mut self, moment: &Moment)
        ensures { self.new ≡ after_lines self.old moment.now }
    {
        self.we_driven = self.we_driven || is_known(moment.after(Role::We));
        self.re_driven = self.re_driven || is_known(moment.after(Role::Re));
        self.we = moment.line(self.we, Role::We);
        self.re = moment.line(self.re, Role::Re);
        self.cle = moment.line(self.cle, Role::Cle);
        self.ale = moment.line(self.ale, Role::Ale);
    }

    /// Goes on by a moment of a bus of so many targets, and judges what ends there: the strobes first, by the levels before it, then DQ, CLE, ALE and CE#. `Bus` is
    /// answered where a strobe shows no cycle that can be read.
    pub fn take<A: Allocator>(
        &mut self,
        judge: &mut EdgeJudge<A>,
        targets: u8,
        moment: &Moment,
    ) -> Result<(), WatchStop>
        requires few { targets ≤ 4 }
        requires bounded { AreBounded judge.old.ruler.times.shown }
        ensures ok { OnOk result (IsStepped judge.old judge.new targets moment.now self.old self.new) }
        ensures bus { (fault : BusFault) → result ≡ Err (WatchStop.Bus fault) → moment_step judge.old.ruler.times.shown judge.old.ruler.one_lun targets moment.now self.old ≡ Err fault }
    {
        let (written, read) = match self.look(targets, moment) {
            Ok(seen) => seen,
            Err(fault) => return Err(WatchStop::Bus(fault)),
        };
        self.take_strobes(judge, written, read, moment.time)?;
        self.take_holds(judge, moment)?;
        self.take_targets(judge, moment, targets, 0)?;
        self.note_lines(moment);
        Ok(())
    }
}
