//! A slot: a program in progress on its LUN.
ghost use Rattle.std.specs.Prelude.{◌≡◌, ◌+◌, ◌<◌, ◌^◌, ◌≤◌, List, Some, None, IfOk, OnOk, OnErr, length, slice_get};
ghost use Rattle.onfi_cycle.specs.declared.item.Item.{Item};
ghost use Rattle.onfi_cycle.specs.Channel.{Channel};
ghost use Rattle.onfi_cycle.specs.Content.{written};
ghost use Rattle.micro_program.specs.Places.{IsShaped};
ghost use Rattle.micro_program.specs.Program.{Job as JobValue};
ghost use Rattle.target_bus.specs.Bus.{Traced, channel_of};
ghost use Rattle.seq_core.specs.Event.{IsVerified};
ghost use Rattle.seq_core.specs.Loops.{loops_behind};
ghost use Rattle.seq_core.specs.Progress.{fresh_progress, reaches, outcome_of, with_buffer, behind_word};
ghost use Rattle.seq_core.specs.Calls.{CanStep, DidPlay, Steps};
ghost use Rattle.seq_core.specs.Playing.{EndsWithFive, IsSame, IsUntouched};

use crate::job::Job;
use crate::loops::{DEPTH, OpenLoop, go_behind};
use crate::outcome::{code_of, is_done, outcome_of};
use crate::playing::play;
use crate::registers::Registers;
use crate::stepped::Stepped;
use arrayvec::ArrayVec;
use micro_program::Verified;
use micro_word::Word;
use onfi_cycle::Lun;
use std::alloc::{AllocError, Allocator};
use std::marker::Model;
use target_bus::Bus;

/// How far a program is: the place of its next word, the loops around that, its registers, and its code if it has ended.
#[derive(Drop)]
struct Position {
    at: usize,
    loops: ArrayVec<OpenLoop, DEPTH>,
    registers: Registers,
    code: Option<u8>,
}

/// A job in progress: its buffer as it is now, and how far it is.
#[derive(Drop)]
pub struct Slot<A: Allocator> {
    lun: Lun,
    base: u32,
    verified: Verified<A>,
    buffer: Vec<u8, A>,
    position: Position,
}

// A word that was played, and the status that its poll brought, 0 for a word without a poll.
#[derive(Clone, Copy)]
struct PlayedWord {
    word: Word,
    status: u8,
}

impl<A: Allocator> Model for Slot<A> {
    ghost use Rattle.std.specs.Prelude.{reverse};
    ghost use Rattle.micro_program.specs.Places.{IsShaped};
    ghost use Rattle.seq_core.specs.Event.{IsVerified};
    ghost use Rattle.seq_core.specs.Job.{job_of};
    ghost use Rattle.seq_core.specs.Progress.{Progress};

    ghost Value = { Progress };

    ghost view = { λ s. record { job = job_of s.lun s.base s.verified s.buffer.items; at = s.position.at; loops = reverse s.position.loops.items; registers = s.position.registers; code = s.position.code } };

    ghost invariant = { λ s. IsVerified (job_of s.lun s.base s.verified s.buffer.items) × IsShaped s.verified.text.words };
}

impl<A: Allocator> Slot<A> {
    /// A job before its first word.
    pub fn new(job: Job<A>) -> Slot<A>
        ensures value { result ≡ fresh_progress job }
        ensures verified { IsVerified job }
        ensures shaped { IsShaped job.text.words }
        ensures base { job.base < 2 ^ 32 }
    {
        let Job {
            lun,
            base,
            verified,
            buffer,
        } = job;
        Slot {
            lun,
            base,
            verified,
            buffer,
            position: Position {
                at: 0,
                loops: ArrayVec::new(),
                registers: Registers::fresh(base),
                code: None,
            },
        }
    }

    /// The code with which it has ended, if it has.
    pub fn code(&self) -> Option<u8>
        ensures { result ≡ self.now.code }
    {
        self.position.code
    }

    /// The LUN that it runs on.
    pub fn lun(&self) -> Lun
        ensures { result ≡ self.now.job.lun }
    {
        self.lun
    }

    /// What its words have set.
    pub fn registers(&self) -> Registers
        ensures { result ≡ self.now.registers }
    {
        self.position.registers
    }

    /// Its buffer as it is now.
    pub fn buffer(&self) -> &[u8]
        ensures value { result.now ≡ self.now.job.buffer }
        ensures verified { IsVerified self.now.job }
    {
        &self.buffer
    }

    /// Puts bytes that were taken from a die into its buffer, from a place on.
    pub fn put_taken(&mut self, place: usize, bytes: &[u8])
        requires { place + length bytes.now ≤ length self.old.job.buffer }
        ensures { self.new ≡ with_buffer self.old (written bytes.now place self.old.job.buffer) }
    {
        let (_, rest) = self.buffer.as_mut_slice().split_at_mut(place);
        let (part, _) = rest.split_at_mut(bytes.len());
        part.copy_from_slice(bytes);
    }

    /// The job, with the buffer as it is now.
    pub fn into_job(self) -> Job<A>
        ensures { result ≡ self.job }
    {
        Job {
            lun: self.lun,
            base: self.base,
            verified: self.verified,
            buffer: self.buffer,
        }
    }

    /// The next word of a job that goes on.
    pub fn next_word(&self) -> Word
        requires { (word : Word) × (slice_get self.now.job.text.words self.now.at ≡ Some word) }
        ensures word { slice_get self.now.job.text.words self.now.at ≡ Some result }
        ensures inside { self.now.at < 1024 }
        ensures range { EndsWithFive result }
        ensures buffer { length self.now.job.buffer < 2 ^ 32 }
    {
        self.verified.text().words()[self.position.at]
    }

    /// Goes on after a word that brought this status, if that is done.
    pub fn go_on(&mut self, word: Word, status: u8) -> Stepped
        requires place { reaches self.old.registers.place word < 2 ^ 32 }
        requires inside { self.old.at < 1024 }
        requires room { length (loops_behind self.old.at self.old.loops word) ≤ 4 }
        ensures answer { result ≡ outcome_of word status }
        ensures slot { self.new ≡ behind_word self.old word status }
    {
        let answer = outcome_of(word, status);
        if is_done(answer) {
            let position = &mut self.position;
            position.at = go_behind(
                position.at,
                &mut position.loops,
                position.registers.status,
                word,
            );
            position.registers = position.registers.after(self.base, word, status);
            position.code = code_of(word);
        }
        answer
    }
}

impl<A: Allocator + Copy> Slot<A> {
    // Plays the next word.
    fn play_next(&mut self, bus: &mut Bus<A>) -> Result<PlayedWord, AllocError>
        requires { CanStep (channel_of bus.old) bus.old.past self.old }
        ensures same { IsSame bus.old bus.new }
        ensures word { IfOk result (λ r. slice_get self.old.job.text.words self.old.at ≡ Some r.word) }
        ensures played { IfOk result (λ r. DidPlay (channel_of bus.old) bus.old.past self.old.job.lun self.old.job.buffer
            self.old.registers r.word bus.new.past self.new.job.buffer r.status) }
        ensures slot { OnOk result (self.new ≡ with_buffer self.old self.new.job.buffer) }
        ensures place { IfOk result (λ r. reaches self.old.registers.place r.word < 2 ^ 32) }
        ensures inside { OnOk result (self.new.at < 1024) }
        ensures room { IfOk result (λ r. length (loops_behind self.new.at self.new.loops r.word) ≤ 4) }
        ensures err { OnErr result (IsUntouched bus.old bus.new × (self.new ≡ self.old)) }
    {
        let word = self.next_word();
        let status = play(
            bus,
            self.lun,
            self.position.registers,
            self.buffer.as_mut_slice(),
            word,
        )?;
        Ok(PlayedWord { word, status })
    }

    /// Steps the next word. Without memory for it all stays as it was.
    pub(crate) fn step(&mut self, bus: &mut Bus<A>) -> Result<Stepped, AllocError>
        requires { CanStep (channel_of bus.old) bus.old.past self.old }
        ensures same { IsSame bus.old bus.new }
        ensures ok { IfOk result (λ answer. Steps (channel_of bus.old) bus.old.past self.old answer bus.new.past self.new) }
        ensures err { OnErr result (IsUntouched bus.old bus.new × (self.new ≡ self.old)) }
    {
        let PlayedWord { word, status } = self.play_next(bus)?;
        Ok(self.go_on(word, status))
    }
}
