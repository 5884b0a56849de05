//! What a word leaves of what is known before it.
ghost use Rattle.std.specs.Prelude.{◌≡◌, ◌%◌};
ghost use Rattle.micro_claims.specs.Accepts.{word_leaves, state_after};
ghost use Rattle.micro_claims.specs.Leaves.{polled, found_ready, handed_over, drift_more, drift_set, moved_by, index_moved, page_plus, get_leaves, span_more, with_target, features_put, put_leaves};
ghost use Rattle.micro_claims.specs.Spans.{exactly, plus, only};

use crate::copies::parity_of;
use crate::drift::{IndexMove, NO_DISTANCE};
use crate::known_target::KnownTarget;
use crate::page_range::PageRange;
use crate::place::Place;
use crate::planes::Planes;
use crate::reasons::cost;
use crate::shown::{ANY_DRIVER, STATUS_SHOWN};
use crate::span::Span;
use crate::state::State;
use micro_word::Word;
use nand_geometry::Geometry;
use onfi_cycle::{Command, FEATURE_BYTES};

impl State {
    // After so many outputs.
    fn take_outputs(&mut self, len: u32)
        ensures { self.new ≡ get_leaves self.old len }
    {
        let shows = self.target.shows;
        self.lun.column = self.lun.column_read(shows, len);
        self.registers = self.registers.moved(len);
        self.target = KnownTarget::closed(shows);
    }

    // After so many of the four bytes of a Set Features.
    fn give_features(&mut self, inputs: u64)
        ensures { self.new ≡ features_put self.old inputs }
    {
        if inputs < FEATURE_BYTES as u64 {
            self.target.tail = Place::InFeatures {
                inputs: inputs as u8,
            };
        } else {
            self.start_work(self.lun.queue);
        }
    }

    // After so many inputs of a program.
    fn give_data(&mut self, len: u32)
        ensures { self.new ≡ with_target self.old (record self.old.target { column = span_more len self.old.target.column }) }
    {
        self.target.column = match self.target.column {
            None => None,
            Some(column) => Some(column.plus(u64::from(len))),
        };
    }

    // After so many inputs.
    fn give_inputs(&mut self, len: u32)
        ensures { self.new ≡ put_leaves self.old len }
    {
        match self.target.tail {
            Place::InFeatures { inputs } => self.give_features(u64::from(inputs) + u64::from(len)),
            _ => self.give_data(len),
        }
        self.registers = self.registers.moved(len);
    }

    // After a status poll.
    fn poll(&mut self)
        ensures { self.new ≡ polled self.old }
    {
        self.registers.polled = true;
        self.target = KnownTarget::closed(STATUS_SHOWN);
        self.lun.column = self.lun.unread();
    }

    // After a poll that says ready.
    fn find_ready(&mut self)
        ensures { self.new ≡ found_ready (polled self.old) }
    {
        self.poll();
        self.lun.busy = false;
    }

    // Where others may have the bus.
    fn hand_over(&mut self, geometry: &Geometry)
        ensures { self.new ≡ handed_over geometry.now self.old }
    {
        if geometry.parts().luns > 1 {
            self.target = KnownTarget::closed(ANY_DRIVER);
            self.lun.column = self.lun.unread();
        }
    }

    // After a move of the index register.
    fn move_index(&mut self, geometry: &Geometry, by: IndexMove, index: Span, page: PageRange)
        ensures { self.new ≡ index_moved geometry.now.pages (moved_by by) index page self.old }
    {
        self.registers.index = index;
        self.registers.page = page;
        self.target.named = match self.target.named {
            None => None,
            Some(row) => Some(row.after(by)),
        };
        self.lun.queue = self.lun.queue.after(by);
        let parity = parity_of(geometry.parts().pages, NO_DISTANCE.after(by));
        self.lun.copies = self.lun.copies.moved(parity);
    }

    // After `rowadd`.
    fn add_rows(&mut self, geometry: &Geometry, rows: u16)
        ensures { self.new ≡ index_moved geometry.now.pages (drift_more rows) (plus self.old.registers.index rows)
            (page_plus geometry.now.pages rows self.old.registers.page) self.old }
    {
        let more = u64::from(rows);
        let index = self.registers.index.plus(more);
        let page = self.registers.page.after_rows(geometry, rows);
        self.move_index(geometry, IndexMove::On { rows: more }, index, page);
    }

    // After `row`.
    fn set_row(&mut self, geometry: &Geometry, row: u16)
        ensures { self.new ≡ index_moved geometry.now.pages (drift_set (only self.old.registers.index) row) (exactly row)
            (record { lo = row % geometry.now.pages; hi = row % geometry.now.pages }) self.old }
    {
        let page = u32::from(row) % geometry.parts().pages;
        let row = u64::from(row);
        let from = self.registers.index.only();
        self.move_index(
            geometry,
            IndexMove::To { from, row },
            Span::exactly(row),
            PageRange { lo: page, hi: page },
        );
    }

    // What a word leaves, its cost apart.
    fn leave(&mut self, geometry: &Geometry, word: Word)
        ensures { self.new ≡ word_leaves geometry.now self.old word }
    {
        match word {
            Word::Command { byte } => self.take_command(geometry, Command::of(byte)),
            Word::Address { from, count } => self.take_addresses(geometry, from, count),
            Word::Get { len } => self.take_outputs(len),
            Word::Put { len } => self.give_inputs(len),
            Word::Seek { place } => self.registers.place = Span::exactly(u64::from(place)),
            Word::Column { column } => self.registers.column = Span::exactly(u64::from(column)),
            Word::RowAdd { rows } => self.add_rows(geometry, rows),
            Word::Row { row } => self.set_row(geometry, row),
            Word::Plane { plane } => self.registers.planes = Planes::just(plane),
            Word::Wait => self.find_ready(),
            Word::Yield => self.hand_over(geometry),
            Word::ReadStatus => self.poll(),
            _ => {}
        }
    }

    /// What is known after a word.
    #[tactic(auto, unfolding(crate::specs::Accepts::state_after))]
    pub fn after(&self, geometry: &Geometry, word: Word) -> State
        ensures { result ≡ state_after geometry.now self.now word }
    {
        let mut state = *self;
        state.leave(geometry, word);
        state.registers = state.registers.paid(cost(geometry, word));
        state
    }
}
