//! A job as a record in the caller's memory.
ghost use Rattle.std.specs.Prelude.{◌≡◌, ◌≤◌, ◌<◌, ◌^◌, true};
ghost use Rattle.seq_core.specs.Progress.{reaches};
ghost use Rattle.onfiseq_live_c.specs.Job.{code_in, registers_in, lun_in, job_view, is_whole, opens_loop, fresh_job, job_done, job_behind};

use crate::loops::{OnfiseqLoops, go_behind, no_loops};
use micro_word::Word;
use onfi_cycle::Lun;
use seq_core::Registers;
use seq_core::outcome::{code_of, is_done, outcome_of};

// What stands first in a record that a call left: `OJOB`.
const MAGIC: u32 = 0x424f_4a4f;

/// A program in progress on a LUN: where it is in its file, the loops around that, and its registers. Between calls it may be copied and kept as the caller
/// likes, but only a call of this library changes it.
#[repr(C)]
#[derive(Clone, Copy)]
pub struct OnfiseqJob {
    pub magic: u32,
    pub ce: u8,
    pub lun: u8,
    /// 0 while it goes on.
    pub has_ended: u8,
    /// The code with which it has ended.
    pub code: u8,
    /// The row index that it begins at.
    pub base: u32,
    /// The length of its buffer in bytes.
    pub buffer: u32,
    pub index: u32,
    pub place: u32,
    pub column: u16,
    /// The number of its next word.
    pub at: u16,
    pub plane: u8,
    pub status: u8,
    pub loops: OnfiseqLoops,
}

impl OnfiseqJob {
    /// A program before its first word.
    pub(crate) fn fresh(lun: Lun, base: u32, buffer: u32) -> OnfiseqJob
        ensures value { job_view result ≡ fresh_job lun base buffer }
        ensures whole { is_whole result ≡ true }
    {
        OnfiseqJob {
            magic: MAGIC,
            ce: lun.ce,
            lun: lun.lun,
            has_ended: 0,
            code: 0,
            base,
            buffer,
            index: base,
            place: 0,
            column: 0,
            at: 0,
            plane: 0,
            status: 0,
            loops: no_loops(),
        }
    }

    /// Whether the record is one that a call left, as far as it can be told.
    pub(crate) fn is_whole(&self) -> bool
        ensures { result ≡ is_whole self.now }
    {
        self.magic == MAGIC && self.loops.depth <= 4
    }

    /// The LUN that it runs on.
    pub(crate) fn on(&self) -> Lun
        ensures { result ≡ lun_in self.now }
    {
        Lun {
            ce: self.ce,
            lun: self.lun,
        }
    }

    /// What its words have set.
    pub(crate) fn registers(&self) -> Registers
        ensures { result ≡ registers_in self.now }
    {
        Registers {
            column: self.column,
            index: self.index,
            plane: self.plane,
            place: self.place,
            status: self.status,
        }
    }

    /// The code with which it has ended, if it has.
    pub(crate) fn ended(&self) -> Option<u8>
        ensures { result ≡ code_in self.now.has_ended self.now.code }
    {
        if self.has_ended == 0 {
            None
        } else {
            Some(self.code)
        }
    }

    // It is behind a word that is done.
    fn done(&self, word: Word, status: u8) -> OnfiseqJob
        requires reach { reaches self.now.place word < 2 ^ 32 }
        requires inside { self.now.at < 1024 }
        requires few { self.now.loops.depth ≤ 4 }
        requires room { opens_loop word ≡ true → self.now.loops.depth < 4 }
        ensures value { job_view result ≡ job_done (job_view self.now) word status }
        ensures whole { (result.magic ≡ self.now.magic) × (result.loops.depth ≤ 4) }
    {
        let standing = go_behind(self.at, self.loops, self.status, word);
        let registers = self.registers().after(self.base, word, status);
        let code = code_of(word);
        OnfiseqJob {
            magic: self.magic,
            ce: self.ce,
            lun: self.lun,
            has_ended: u8::from(code.is_some()),
            code: code.unwrap_or(0),
            base: self.base,
            buffer: self.buffer,
            index: registers.index,
            place: registers.place,
            column: registers.column,
            at: standing.at,
            plane: registers.plane,
            status: registers.status,
            loops: standing.loops,
        }
    }

    /// Goes on behind a word that brought this status, if that is done.
    pub(crate) fn go_on(&mut self, word: Word, status: u8)
        requires reach { reaches self.old.place word < 2 ^ 32 }
        requires inside { self.old.at < 1024 }
        requires few { self.old.loops.depth ≤ 4 }
        requires room { opens_loop word ≡ true → self.old.loops.depth < 4 }
        ensures value { job_view self.new ≡ job_behind (job_view self.old) word status }
        ensures whole { (self.new.magic ≡ self.old.magic) × (self.new.loops.depth ≤ 4) }
    {
        if is_done(outcome_of(word, status)) {
            *self = self.done(word, status);
        }
    }
}
