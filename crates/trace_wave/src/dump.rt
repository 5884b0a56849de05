//! The dump of a trace, whole or in pieces.
ghost use Rattle.std.specs.Prelude.{◌≡◌, ℕ, ◌+◌, ◌<◌, ◌≤◌, ◌^◌, ◌++◌, List, [], true, IfOk, OnOk, OnErr, take};
ghost use Rattle.std.specs.Vec.{vec_len, vec_capacity};
ghost use Rattle.nand_geometry.specs.declared.parts.Parts.{Parts};
ghost use Rattle.trace_wave.specs.Keeping.{IsAt};
ghost use Rattle.trace_wave.specs.Header.{header};
ghost use Rattle.onfi_cycle.specs.declared.item.Item.TheVariants.{Cyc};
ghost use Rattle.trace_wave.specs.Wave.{Drawing, begun, after, after_all, is_ready, item_frames, frames, last_frame, dump, Grows};

use crate::bus::{write_enables_if_changed, write_rise, write_set_up, write_struck};
use crate::channel::Channel;
use crate::header::{LONGEST_HEADER, push_header};
use crate::item_count::ItemCount;
use crate::model::write_model;
use crate::room::{ROOM, Room};
use crate::text::push_bytes;
use crate::told::{Told, first_told};
use bus_lines::Lines;
use nand_geometry::Geometry;
use onfi_cycle::{Cycle, Item};
use std::alloc::{AllocError, Allocator};

// How many bytes an item adds at most: two frames of the bus, and one of all lines.
const LONGEST_ITEM: usize = 384;

// How many items a dump has at most, so that their times can be written.
const MOST_ITEMS: u64 = 1 << 60;

// Empties a room that is all but full; the place in it where the next item is written.
#[inline(always)]
fn make_room<A: Allocator>(
    out: &mut Vec<u8, A>,
    room: &Room,
    place: usize,
) -> Result<usize, AllocError>
    requires { place ≤ 1024 }
    ensures kept { IfOk result (λ next. out.new.items ++ take next room.now ≡ out.old.items ++ take place room.now) }
    ensures places { IfOk result (λ next. next + 384 ≤ 1024) }
    ensures grows { Grows out.old.items out.new.items }
{
    if place + LONGEST_ITEM <= ROOM {
        return Ok(place);
    }
    out.extend_from_slice(&room[..place])?;
    Ok(0)
}

/// A dump that is being written, in pieces: it is begun ([`begin`](Dump::begin)), takes items ([`draw`](Dump::draw), [`draw_all`](Dump::draw_all)) and is
/// ended ([`end`](Dump::end)). Each call adds what it writes to a `Vec`, which the caller may empty after any of them: all that was added, one after the
/// other, is the dump ([`write_dump`]).
#[derive(Drop)]
pub struct Dump {
    pub channel: Channel,
    pub rule: u8,
    pub lines: Lines,
    pub items: ItemCount,
    pub kept: Told,
}

impl Dump {
    /// Begins the dump of a trace on a channel of so many targets, 4 at most, of this geometry: adds the header. `AllocError` is answered only where
    /// memory was refused, and then nothing is added.
    pub fn begin<A: Allocator>(
        geometry: &Geometry,
        targets: u8,
        out: &mut Vec<u8, A>,
    ) -> Result<Dump, AllocError>
        requires { targets ≤ 4 }
        ensures header { OnOk result (out.new.items ≡ out.old.items ++ header geometry.now targets) }
        ensures begun { IfOk result (IsAt geometry.now targets begun) }
        ensures refused { OnErr result (out.new.items ≡ out.old.items) }
    {
        out.reserve(LONGEST_HEADER)?;
        let channel = Channel::new(geometry, targets);
        push_header(out, &channel);
        let kept = first_told(&channel);
        Ok(Dump {
            channel,
            rule: 0,
            lines: Lines::idle(),
            items: ItemCount::none(),
            kept,
        })
    }

    // Writes the frames of a cycle; the place behind them.
    #[inline(always)]
    fn write_cycle(&mut self, room: &mut Room, place: usize, cycle: Cycle) -> usize
        requires few { self.old.items < 2 ^ 60 }
        requires places { place + 384 ≤ 1024 }
        ensures drawn { (g : Parts) (targets : ℕ) (d : Drawing) → IsAt g targets d self.old
            → take result room.new ≡ take place room.old ++ item_frames g targets d (Cyc cycle) }
        ensures goes_on { (g : Parts) (targets : ℕ) (d : Drawing) → IsAt g targets d self.old → IsAt g targets (after g targets d (Cyc cycle)) self.new }
        ensures len { result ≤ place + 384 }
    {
        let item = Item::Cyc(cycle);
        let targets = self.channel.targets();
        let set_up = self.lines.set_up(cycle);
        let place = write_set_up(room, place, &self.items, targets, self.lines, cycle);
        let place = write_struck(room, place, &self.items, targets, set_up, cycle);
        let place = write_rise(room, place, &self.items, targets, cycle);
        let place = write_model(
            room,
            place,
            &mut self.channel,
            &mut self.kept,
            &mut self.rule,
            item,
        );
        self.lines = self.lines.after(item);
        self.items.count_up();
        place
    }

    // Writes the frame of a ready, if anything changes in it; the place behind it.
    fn write_ready(&mut self, room: &mut Room, place: usize, item: Item) -> usize
        requires few { self.old.items < 2 ^ 60 }
        requires places { place + 384 ≤ 1024 }
        ensures drawn { (g : Parts) (targets : ℕ) (d : Drawing) → IsAt g targets d self.old → is_ready item ≡ true
            → take result room.new ≡ take place room.old ++ item_frames g targets d item }
        ensures goes_on { (g : Parts) (targets : ℕ) (d : Drawing) → IsAt g targets d self.old → is_ready item ≡ true → IsAt g targets (after g targets d item) self.new }
        ensures len { result ≤ place + 384 }
    {
        let start = self.items.write_time(room, place, 6);
        let end = write_model(
            room,
            start,
            &mut self.channel,
            &mut self.kept,
            &mut self.rule,
            item,
        );
        self.items.count_up();
        if end == start { place } else { end }
    }

    // Writes the frames of an item; the place behind them.
    #[inline(always)]
    fn write_item(&mut self, room: &mut Room, place: usize, item: Item) -> usize
        requires few { self.old.items < 2 ^ 60 }
        requires places { place + 384 ≤ 1024 }
        ensures drawn { (g : Parts) (targets : ℕ) (d : Drawing) → IsAt g targets d self.old
            → take result room.new ≡ take place room.old ++ item_frames g targets d item }
        ensures goes_on { (g : Parts) (targets : ℕ) (d : Drawing) → IsAt g targets d self.old → IsAt g targets (after g targets d item) self.new }
        ensures len { result ≤ place + 384 }
    {
        match item {
            Item::Cyc(cycle) => self.write_cycle(room, place, cycle),
            Item::Rdy { .. } | Item::Ard { .. } => self.write_ready(room, place, item),
        }
    }

    /// Adds the frames of an item. One that breaks a rule is drawn too (`specs/Wave`). `AllocError` is answered where memory was refused, or after 2^60
    /// items, and then nothing is added and nothing changes.
    pub fn draw<A: Allocator>(&mut self, out: &mut Vec<u8, A>, item: Item) -> Result<(), AllocError>
        ensures drawn { (g : Parts) (targets : ℕ) (d : Drawing) → IsAt g targets d self.old
            → OnOk result (out.new.items ≡ out.old.items ++ item_frames g targets d item) }
        ensures goes_on { (g : Parts) (targets : ℕ) (d : Drawing) → IsAt g targets d self.old → OnOk result (IsAt g targets (after g targets d item) self.new) }
        ensures refused { OnErr result ((out.new.items ≡ out.old.items) × (self.new ≡ self.old)) }
    {
        if self.items.number() >= MOST_ITEMS {
            return Err(AllocError);
        }
        out.reserve(LONGEST_ITEM)?;
        let mut room = [0; ROOM];
        let end = self.write_item(&mut room, 0, item);
        push_bytes(out, &room[..end]);
        Ok(())
    }

    // Adds the frames of items, one after the other. After an error those of some first items may have been added.
    fn draw_each<A: Allocator>(
        &mut self,
        out: &mut Vec<u8, A>,
        items: &[Item],
    ) -> Result<(), AllocError>
        ensures drawn { (g : Parts) (targets : ℕ) (d : Drawing) → IsAt g targets d self.old
            → OnOk result (out.new.items ≡ out.old.items ++ frames g targets d items.now) }
        ensures goes_on { (g : Parts) (targets : ℕ) (d : Drawing) → IsAt g targets d self.old
            → OnOk result (IsAt g targets (after_all g targets d items.now) self.new) }
        ensures grows { Grows out.old.items out.new.items }
    {
        let mut room = [0; ROOM];
        let mut place = 0;
        let mut rest = items;
        'items: while let Some((item, behind)) = rest.split_first() {
            if self.items.number() >= MOST_ITEMS {
                return Err(AllocError);
            }
            place = make_room(out, &room, place)?;
            place = self.write_item(&mut room, place, *item);
            rest = behind;
        }
        out.extend_from_slice(&room[..place])
    }

    /// Adds the frames of items, one after the other. `AllocError` is answered where memory was refused, or after 2^60 items; then nothing is added, and the
    /// dump can't be gone on with.
    pub fn draw_all<A: Allocator>(
        &mut self,
        out: &mut Vec<u8, A>,
        items: &[Item],
    ) -> Result<(), AllocError>
        ensures drawn { (g : Parts) (targets : ℕ) (d : Drawing) → IsAt g targets d self.old
            → OnOk result (out.new.items ≡ out.old.items ++ frames g targets d items.now) }
        ensures goes_on { (g : Parts) (targets : ℕ) (d : Drawing) → IsAt g targets d self.old
            → OnOk result (IsAt g targets (after_all g targets d items.now) self.new) }
        ensures refused { OnErr result (out.new.items ≡ out.old.items) }
    {
        let written = out.len();
        match self.draw_each(out, items) {
            Ok(()) => Ok(()),
            Err(refused) => {
                out.truncate(written);
                Err(refused)
            }
        }
    }

    /// Ends the dump: its last time, at which no chip is enabled any more. `AllocError` is answered only where memory was refused, and then nothing is added.
    pub fn end<A: Allocator>(self, out: &mut Vec<u8, A>) -> Result<(), AllocError>
        ensures drawn { (g : Parts) (targets : ℕ) (d : Drawing) → IsAt g targets d self
            → OnOk result (out.new.items ≡ out.old.items ++ last_frame g targets d) }
        ensures refused { OnErr result (out.new.items ≡ out.old.items) }
    {
        out.reserve(LONGEST_ITEM)?;
        let mut room = [0; ROOM];
        let targets = self.channel.targets();
        let start = self.items.write_time(&mut room, 0, 0);
        let end = write_enables_if_changed(&mut room, start, self.lines.enabled, None, targets);
        push_bytes(out, &room[..end]);
        Ok(())
    }
}

/// The dump of a trace on a channel of so many targets, 4 at most, of this geometry. What breaks a rule is drawn too (`specs/Wave`). `AllocError` is
/// answered where memory was refused, or for more than 2^60 items.
pub fn write_dump<A: Allocator>(
    alloc: A,
    geometry: &Geometry,
    targets: u8,
    items: &[Item],
) -> Result<Vec<u8, A>, AllocError>
    requires { targets ≤ 4 }
    ensures { IfOk result (λ written. written.items ≡ dump geometry.now targets items.now) }
{
    let mut out = Vec::new(alloc);
    let mut dump = Dump::begin(geometry, targets, &mut out)?;
    dump.draw_all(&mut out, items)?;
    dump.end(&mut out)?;
    Ok(out)
}
