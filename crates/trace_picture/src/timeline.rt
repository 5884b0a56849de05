//! What is in a picture: boxes, the time in which LUNs work, failures, and where a rule is broken.
ghost use Rattle.std.specs.Prelude.{◌≤◌};

use crate::broken::Broken;
use crate::label::Label;
use crate::lane::Lane;
use crate::piece::{Piece, Sequence};
use crate::span::{Failure, Span, Worker};
use nand_geometry::Geometry;
use onfi_cycle::{BusState, Command, Cycle, Forbidden, Item, Kind, Lun};
use std::alloc::{AllocError, Allocator};
use trace_faults::{Beginning, Readies, TraceJudge, Verdict};

// How many LUNs a channel has at most.
const LUNS: usize = 16;

/// The timeline of a trace: what is in its picture.
#[derive(Drop)]
pub struct Timeline<A: Allocator> {
    /// The boxes.
    pub sequences: Vec<Sequence, A>,
    /// Their pieces, in the order of the trace: each cycle is in one of them.
    pub pieces: Vec<Piece, A>,
    /// The time in which LUNs work.
    pub spans: Vec<Span, A>,
    /// The failures that readies told.
    pub failures: Vec<Failure, A>,
    /// Where a rule is broken.
    pub broken: Vec<Broken, A>,
}

// What is known while a timeline is made: of each target the box that goes on, and of each LUN since when it and its array have worked.
#[derive(Clone, Copy)]
struct Running {
    lanes: [Lane; 4],
    busy: [Option<usize>; LUNS],
    array: [Option<usize>; LUNS],
}

// Since when something has worked after an item, and the time that ends with it.
fn work_on(since: Option<usize>, works: bool, item: usize) -> (Option<usize>, Option<usize>) {
    match since {
        None if works => (Some(item), None),
        None => (None, None),
        Some(from) if works => (Some(from), None),
        Some(from) => (None, Some(from)),
    }
}

// The entry at a place, if there is one.
fn entry_at(entries: &[Option<usize>], place: usize) -> Option<usize> {
    match entries.get(place) {
        None => None,
        Some(entry) => *entry,
    }
}

// The rule that an item breaks, by what is said of it.
fn broken_by(said: Verdict) -> Option<Forbidden> {
    match said {
        Verdict::Broken(rule) => Some(rule),
        Verdict::Permitted | Verdict::PassedOver | Verdict::Granted(_) | Verdict::NotShown(_) =>
            None,
    }
}

// How an item comes to the boxes of its target.
#[derive(Clone, Copy, PartialEq, Eq)]
enum Coming {
    // It breaks a rule.
    Broken,
    // It begins a sequence.
    Begins,
    // It goes on with what is there.
    GoesOn,
}

// An opener goes on with what its target has got: 31h behind a 00h and its addresses, and 85h in the data of a program.
fn goes_on_with(state: &BusState, ce: u8, command: Command) -> bool {
    match state.tail(ce) {
        None => false,
        Some(tail) => tail.goes_on_with(command),
    }
}

// The item begins a sequence on a channel of this state.
fn begins_sequence(state: &BusState, item: Item) -> bool {
    match item {
        Item::Cyc(
            Cycle {
                ce,
                kind: Kind::Cmd,
                byte,
            },
        ) => {
            let command = Command::of(byte);
            command.is_opener() && !goes_on_with(state, ce, command)
        }
        Item::Cyc(_) | Item::Rdy { .. } | Item::Ard { .. } => false,
    }
}

// How an item comes that breaks this rule or none, and begins a sequence or doesn't.
fn coming_by(rule: Option<Forbidden>, begins: bool) -> Coming {
    match rule {
        Some(_) => Coming::Broken,
        None if begins => Coming::Begins,
        None => Coming::GoesOn,
    }
}

// Puts an entry at a place, if there is one.
fn set_entry(entries: &mut [Option<usize>], place: usize, entry: Option<usize>) {
    if place < entries.len() {
        entries[place] = entry;
    }
}

impl<A: Allocator> Timeline<A> {
    // Adds the time in which a LUN or its array has worked, if it ends.
    fn push_span(
        &mut self,
        lun: Lun,
        worker: Worker,
        from: Option<usize>,
        end: Option<usize>,
    ) -> Result<(), AllocError> {
        let Some(from) = from else {
            return Ok(());
        };
        self.spans.push(Span {
            ce: lun.ce,
            lun: lun.lun,
            worker,
            from,
            end,
        })?;
        Ok(())
    }

    // What an item has done to one LUN of its target.
    fn look(
        &mut self,
        running: &mut Running,
        state: &BusState,
        lun: Lun,
        item: usize,
    ) -> Result<(), AllocError> {
        let Some(look) = state.lun_state(lun) else {
            return Ok(());
        };
        let place = usize::from(lun.ce) * 4 + usize::from(lun.lun);
        let (busy, was_busy) = work_on(entry_at(&running.busy, place), look.busy, item);
        let (array, was_array) = work_on(entry_at(&running.array, place), look.array_busy, item);
        set_entry(&mut running.busy, place, busy);
        set_entry(&mut running.array, place, array);
        self.push_span(lun, Worker::Lun, was_busy, Some(item))?;
        self.push_span(lun, Worker::Array, was_array, Some(item))
    }

    // What an item has done to the LUNs of its target.
    fn look_at_all(
        &mut self,
        running: &mut Running,
        state: &BusState,
        ce: u8,
        item: usize,
    ) -> Result<(), AllocError> {
        for lun in 0..state.geometry().parts().luns {
            self.look(running, state, Lun { ce, lun }, item)?;
        }
        Ok(())
    }

    // Begins a box.
    fn begin(&mut self, ce: u8, label: Label, item: usize) -> Result<usize, AllocError> {
        let place = self.sequences.len();
        self.sequences.push(Sequence { ce, label })?;
        self.pieces.push(Piece {
            sequence: place,
            first: item,
            end: item.saturating_add(1),
        })?;
        Ok(place)
    }

    // Adds a cycle to a box: to its last piece, if that ends there, or as a piece of its own.
    fn go_on(&mut self, sequence: usize, item: usize) -> Result<(), AllocError> {
        let end = item.saturating_add(1);
        let last = self.pieces.len();
        if last > 0 {
            let piece = self.pieces[last - 1];
            if piece.sequence == sequence && piece.end == item {
                self.pieces[last - 1] = Piece { end, ..piece };
                return Ok(());
            }
        }
        self.pieces.push(Piece {
            sequence,
            first: item,
            end,
        })?;
        Ok(())
    }

    // What stands in a box.
    fn label(&self, sequence: usize) -> Label {
        match self.sequences.get(sequence) {
            None => Label::Alone,
            Some(sequence) => sequence.label,
        }
    }

    // Writes it anew.
    fn set_label(&mut self, sequence: usize, label: Label) {
        if sequence < self.sequences.len() {
            let ce = self.sequences[sequence].ce;
            self.sequences[sequence] = Sequence { ce, label };
        }
    }

    // Adds a cycle to the box that goes on, with this label; to a box of cycles alone where none does.
    fn extend(
        &mut self,
        lane: Lane,
        ce: u8,
        label: Label,
        item: usize,
    ) -> Result<Lane, AllocError> {
        match lane.sequence {
            None => {
                let place = self.begin(ce, Label::Alone, item)?;
                Ok(Lane::begun(place, Command::Unknown))
            }
            Some(sequence) => {
                self.set_label(sequence, label);
                self.go_on(sequence, item)?;
                Ok(lane)
            }
        }
    }

    // The label of the box that goes on.
    fn label_of(&self, lane: Lane) -> Label {
        match lane.sequence {
            None => Label::Alone,
            Some(sequence) => self.label(sequence),
        }
    }

    // Adds a cycle that begins a sequence; the lane of its target then.
    fn draw_opener(&mut self, cycle: Cycle, item: usize) -> Result<Lane, AllocError> {
        let command = Command::of(cycle.byte);
        let place = self.begin(cycle.ce, Label::of_opener(command), item)?;
        Ok(Lane::begun(place, command))
    }

    // Adds a cycle that goes on with what is there; the lane of its target then.
    fn draw_cycle(
        &mut self,
        geometry: &Geometry,
        lane: Lane,
        cycle: Cycle,
        item: usize,
    ) -> Result<Lane, AllocError> {
        let Cycle { ce, kind, byte } = cycle;
        let label = self.label_of(lane);
        match kind {
            Kind::Cmd => {
                let label = label.with_command(Command::of(byte));
                self.extend(lane, ce, label, item)
            }
            Kind::Adr => {
                let lane = lane.with_address(byte);
                self.extend(lane, ce, lane.label(geometry, label), item)
            }
            Kind::Din => self.extend(lane, ce, label.with_input(), item),
            Kind::Dout => match label.with_output(byte) {
                Some(label) => self.extend(lane, ce, label, item),
                None => {
                    let place = self.begin(ce, Label::Outputs { count: 1 }, item)?;
                    Ok(Lane::begun(place, Command::Unknown))
                }
            },
        }
    }

    // Adds a cycle that breaks a rule, and is grey as what goes on with it; the lane of its target then.
    fn draw_broken(&mut self, ce: u8, item: usize) -> Result<Lane, AllocError> {
        if let Some(piece) = self.pieces.last() {
            let sequence = piece.sequence;
            let is_ours = match self.sequences.get(sequence) {
                None => false,
                Some(sequence) => sequence.ce == ce && sequence.label == Label::Unjudged,
            };
            if is_ours {
                self.go_on(sequence, item)?;
                return Ok(Lane::begun(sequence, Command::Unknown));
            }
        }
        let place = self.begin(ce, Label::Unjudged, item)?;
        Ok(Lane::begun(place, Command::Unknown))
    }

    // Adds a cycle, which comes so.
    fn draw_cycle_of(
        &mut self,
        running: &mut Running,
        geometry: &Geometry,
        cycle: Cycle,
        item: usize,
        coming: Coming,
    ) -> Result<(), AllocError> {
        let at = usize::from(cycle.ce);
        if at < 4 {
            running.lanes[at] = match coming {
                Coming::Broken => self.draw_broken(cycle.ce, item)?,
                Coming::Begins => self.draw_opener(cycle, item)?,
                Coming::GoesOn => self.draw_cycle(geometry, running.lanes[at], cycle, item)?,
            };
        }
        Ok(())
    }

    // Adds the failure of a LUN that a ready tells, if it tells one.
    fn draw_failure(&mut self, lun: Lun, failed: bool, item: usize) -> Result<(), AllocError> {
        if failed {
            self.failures.push(Failure {
                ce: lun.ce,
                lun: lun.lun,
                item,
            })?;
        }
        Ok(())
    }

    // Adds an item, which comes so.
    fn draw_item(
        &mut self,
        running: &mut Running,
        geometry: &Geometry,
        item: Item,
        place: usize,
        coming: Coming,
    ) -> Result<(), AllocError> {
        match item {
            Item::Cyc(cycle) => self.draw_cycle_of(running, geometry, cycle, place, coming),
            Item::Rdy { ce, lun, fail } if coming != Coming::Broken => {
                self.draw_failure(Lun { ce, lun }, fail.last || fail.before, place)
            }
            Item::Ard { ce, lun, fail } if coming != Coming::Broken => {
                self.draw_failure(Lun { ce, lun }, fail, place)
            }
            Item::Rdy { .. } | Item::Ard { .. } => Ok(()),
        }
    }

    // Adds the next item, behind which these come: it is judged on what those before it left, permitted or not.
    fn draw_next(
        &mut self,
        running: &mut Running,
        judge: &mut TraceJudge,
        item: Item,
        later: &[Item],
        place: usize,
    ) -> Result<(), AllocError> {
        let begins = begins_sequence(&judge.state.bus, item);
        let rule = broken_by(judge.take(Readies::Written, item, later));
        if let Some(rule) = rule {
            self.broken.push(Broken {
                ce: item.target(),
                item: place,
                rule,
            })?;
        }
        let geometry = judge.state.bus.geometry();
        let coming = coming_by(rule, begins);
        self.draw_item(running, &geometry, item, place, coming)?;
        self.look_at_all(running, &judge.state.bus, item.target(), place)
    }

    // Adds the time of what still works at the end.
    fn push_open_spans(&mut self, running: &Running) -> Result<(), AllocError> {
        for ce in 0..4u8 {
            for lun in 0..4u8 {
                let place = usize::from(ce) * 4 + usize::from(lun);
                let of = Lun { ce, lun };
                self.push_span(of, Worker::Lun, entry_at(&running.busy, place), None)?;
                self.push_span(of, Worker::Array, entry_at(&running.array, place), None)?;
            }
        }
        Ok(())
    }
}

impl<A: Allocator + Clone> Timeline<A> {
    // With nothing in it.
    fn empty(alloc: A) -> Result<Timeline<A>, AllocError> {
        Ok(Timeline {
            sequences: Vec::new(alloc.clone()?),
            pieces: Vec::new(alloc.clone()?),
            spans: Vec::new(alloc.clone()?),
            failures: Vec::new(alloc.clone()?),
            broken: Vec::new(alloc),
        })
    }

    /// The timeline of a trace on a channel of so many targets, 4 at most, of this geometry. `AllocError` is answered only where memory was refused.
    pub fn of(
        alloc: A,
        geometry: &Geometry,
        targets: u8,
        items: &[Item],
    ) -> Result<Timeline<A>, AllocError>
        requires { targets ≤ 4 }
    {
        let mut timeline = Timeline::empty(alloc)?;
        let mut judge = TraceJudge::new(geometry, targets, items, Beginning::Start);
        let mut running = Running {
            lanes: [Lane::new(); 4],
            busy: [None; LUNS],
            array: [None; LUNS],
        };
        for (place, item) in items.iter().enumerate() {
            let (_, later) = items.split_at(place);
            timeline.draw_next(&mut running, &mut judge, *item, later, place)?;
        }
        timeline.push_open_spans(&running)?;
        Ok(timeline)
    }
}
