//! What is known of a program before a word: the state of the verifier. Each field says what it claims; what is not claimed
//! may be anything.
ghost use Rattle.std.specs.Prelude.{◌≡◌};
ghost use Rattle.micro_claims.specs.Against.{may_be_open};
ghost use Rattle.micro_claims.specs.Joins.{joined};
ghost use Rattle.micro_claims.specs.Order.{is_state_within, state_at_head, state_at_heads, state_after_turns, span_in_loop, state_by};
ghost use Rattle.micro_claims.specs.State.{first_state};

use crate::cached_page::{CachedPage, not_cached};
use crate::copies::Copies;
use crate::known_lun::KnownLun;
use crate::known_target::KnownTarget;
use crate::last_closer::LastCloser;
use crate::loop_place::LoopPlace;
use crate::output_column::output_in_loop;
use crate::page_range::{ANY_PAGE, PageRange};
use crate::place::Place;
use crate::planes::Planes;
use crate::queued_rows::QueuedRows;
use crate::registers::Registers;
use crate::span::{Span, any_number, column_in_loop};

/// What is known before a word.
#[derive(Clone, Copy)]
pub struct State {
    pub registers: Registers,
    pub target: KnownTarget,
    pub lun: KnownLun,
}

impl State {
    /// Before the first word: the registers are 0; nothing is open, the LUN is ready, its queue is empty, and it neither reads a cache nor
    /// programs one.
    pub fn first() -> State
        ensures { result ≡ first_state }
    {
        State {
            registers: Registers {
                column: Span::exactly(0),
                planes: Planes::just(0),
                index: Span::exactly(0),
                page: PageRange { lo: 0, hi: 0 },
                place: Span::exactly(0),
                cost: Span::exactly(0),
                polled: false,
            },
            target: KnownTarget::closed(None),
            lun: KnownLun {
                busy: false,
                register: None,
                column: None,
                queue: QueuedRows::NoRows,
                last: LastCloser::ANY_BUT_CACHE,
                cached: not_cached(),
                held: Planes::none(),
                array: Planes::none(),
                copies: Copies::uncopied(),
                programming: false,
            },
        }
    }

    /// Nothing is known.
    pub fn unknown() -> State {
        State {
            registers: Registers {
                column: any_number(),
                planes: Planes::ANY,
                index: any_number(),
                page: ANY_PAGE,
                place: any_number(),
                cost: any_number(),
                polled: false,
            },
            target: KnownTarget {
                tail: Place::Unknown,
                column: None,
                named: None,
                shows: None,
            },
            lun: KnownLun {
                busy: true,
                register: None,
                column: None,
                queue: QueuedRows::AnyRows,
                last: LastCloser::ANY,
                cached: not_cached(),
                held: Planes::none(),
                array: Planes::none(),
                copies: Copies::uncopied(),
                programming: true,
            },
        }
    }

    /// A sequence may be open.
    pub fn may_be_open(&self) -> bool
        ensures { result ≡ may_be_open self.now }
    {
        self.target.tail.is_open()
    }

    /// It claims at least what the other claims.
    #[tactic(auto, unfolding(crate::specs::Order::is_state_within))]
    pub fn is_within(&self, other: &State) -> bool
        ensures { result ≡ is_state_within self.now other.now }
    {
        self.registers.are_within(&other.registers)
            && self.target.is_within(&other.target)
            && self.lun.is_within(&other.lun)
    }

    // At a place of a loop that is entered from this state, and whose turns end with `end`: what doesn't grow is as the last turn left it.
    fn in_loop(&self, end: &State, place: LoopPlace) -> State
        ensures { result ≡ state_by (span_in_loop place) self.now end.now }
    {
        State {
            registers: self.registers.in_loop(&end.registers, place),
            target: KnownTarget {
                column: column_in_loop(self.target.column, end.target.column, place),
                ..end.target
            },
            lun: KnownLun {
                column: output_in_loop(self.lun.column, end.lun.column, place),
                cached: CachedPage {
                    index: place.number(self.lun.cached.index, end.lun.cached.index),
                    page: place.number(self.lun.cached.page, end.lun.cached.page),
                },
                ..end.lun
            },
        }
    }

    /// Where a turn of a loop begins that is entered from this state.
    #[tactic(auto, unfolding(crate::specs::Order::state_at_head))]
    pub fn at_head(&self) -> State
        ensures { result ≡ state_at_head self.now }
    {
        self.in_loop(self, LoopPlace::Head)
    }

    /// Where a turn but the first begins.
    #[tactic(auto, unfolding(crate::specs::Order::state_at_heads))]
    pub fn at_heads(&self, end: &State, turns: u16) -> State
        ensures { result ≡ state_at_heads self.now end.now turns }
    {
        self.in_loop(end, LoopPlace::Heads { turns })
    }

    /// After the last turn.
    #[tactic(auto, unfolding(crate::specs::Order::state_after_turns))]
    pub fn after_turns(&self, end: &State, turns: u16) -> State
        ensures { result ≡ state_after_turns self.now end.now turns }
    {
        self.in_loop(end, LoopPlace::After { turns })
    }

    /// What both claim.
    #[tactic(auto, unfolding(crate::specs::Joins::joined))]
    pub fn join(&self, other: &State) -> State
        ensures { result ≡ joined self.now other.now }
    {
        State {
            registers: self.registers.join(&other.registers),
            target: self.target.join(&other.target),
            lun: self.lun.join(&other.lun),
        }
    }

    /// What both claim, with no bound for a number that the other takes past it.
    pub fn widen(&self, other: &State) -> State {
        let joined = self.join(other);
        State {
            registers: self.registers.widen(&joined.registers),
            target: self.target.widen(&joined.target),
            lun: self.lun.widen(&joined.lun),
        }
    }
}
