//! Reading a vendor file.
ghost use Rattle.std.specs.Prelude.{◌≡◌, ◌∷◌, ◌++◌, ◌+◌, ◌<◌, ◌≤◌, ◌^◌, [], replicate, length, List, Some, Ok, Err, IfOk, IfErr, OnOk};
ghost use Rattle.micro_asm.specs.Line.{fields};
ghost use Rattle.onfi_cycle.specs.Command.{command};
ghost use Rattle.vendor_file.specs.Tokens.{byte_of};
ghost use Rattle.vendor_file.specs.Lines.{is_ready, is_any_number, may_go_on, with_token, steps_from, begun_by, sequence_by, is_profile, is_other, begins_otherwise, is_free, is_same_address, begin_alike, stands_in, line_after, read_from, sequences_in};
ghost use Rattle.vendor_file.specs.Reading.{IsLine, IsRefusalOf, written};

use crate::fault::{VendorFault, VendorFileFault, VendorRefusal};
use crate::step::Step;
use crate::token::{Token, byte_of, token_of};
use micro_asm::{before_comment, next_field, next_line};
use nand_geometry::Profile;
use onfi_cycle::Command;
use std::alloc::{AllocError, Allocator};

// Why a line isn't read.
#[derive(Clone, Copy)]
pub(crate) enum LineStop {
    Fault(VendorFault),
    OutOfMemory,
}

impl Step {
    pub(crate) fn is_ready(self) -> bool
        ensures { result ≡ is_ready self }
    {
        matches!(self, Step::Ready)
    }

    pub(crate) fn is_any_number(self) -> bool
        ensures { result ≡ is_any_number self }
    {
        matches!(self, Step::Inputs | Step::Outputs)
    }

    // A ready is the last step, and any number of data cycles is the last but for that.
    fn may_go_on(self, next: Step) -> bool
        ensures { result ≡ may_go_on self next }
    {
        !self.is_ready() && (!self.is_any_number() || next.is_ready())
    }
}

// Adds a step so many times.
fn push_steps<A: Allocator>(
    steps: &mut Vec<Step, A>,
    step: Step,
    count: usize,
) -> Result<(), LineStop>
    ensures ok { OnOk result (steps.new.items ≡ steps.old.items ++ replicate count step) }
    ensures err { IfErr result (λ e. e ≡ LineStop.OutOfMemory) }
{
    let mut left = count;
    'left: while left > 0 {
        if steps.push(step).is_err() {
            return Err(LineStop::OutOfMemory);
        }
        left -= 1;
    }
    Ok(())
}

// Adds what a word stands for behind this step.
fn push_token<A: Allocator>(
    steps: &mut Vec<Step, A>,
    last: Step,
    token: Option<Token>,
) -> Result<Step, LineStop>
    ensures ok { IfOk result (λ last_now. with_token (written steps.old.items last) token ≡ Ok (written steps.new.items last_now)) }
    ensures err { IfErr result (λ e. IsRefusalOf e (with_token (written steps.old.items last) token)) }
{
    let Some(token) = token else {
        return Err(LineStop::Fault(VendorFault::BadForm));
    };
    if !last.may_go_on(token.step) {
        return Err(LineStop::Fault(VendorFault::BadForm));
    }
    push_steps(steps, token.step, token.count)?;
    Ok(token.step)
}

// Adds what the words of a text stand for behind this step.
fn push_words<A: Allocator>(
    steps: &mut Vec<Step, A>,
    first: Step,
    text: &[u8],
) -> Result<(), LineStop>
    ensures ok { OnOk result (steps_from (written steps.old.items first) (fields text.now) ≡ Ok steps.new.items) }
    ensures err { IfErr result (λ e. IsRefusalOf e (steps_from (written steps.old.items first) (fields text.now))) }
{
    let mut last = first;
    let mut rest = text;
    'words: while let Some((field, after)) = next_field(rest) {
        match push_token(steps, last, token_of(field)) {
            Ok(step) => last = step,
            Err(stop) => return Err(stop),
        }
        rest = after;
    }
    Ok(())
}

// The steps of the line that begins with this word, and goes on with these.
fn steps_of<A: Allocator>(alloc: A, first: &[u8], words: &[u8]) -> Result<Vec<Step, A>, LineStop>
    ensures ok { IfOk result (λ steps. sequence_by (byte_of first.now) (fields words.now) ≡ Ok steps.items) }
    ensures err { IfErr result (λ e. IsRefusalOf e (sequence_by (byte_of first.now) (fields words.now))) }
{
    let Some(byte) = byte_of(first) else {
        return Err(LineStop::Fault(VendorFault::BadForm));
    };
    let mut steps = Vec::new(alloc);
    if steps.push(Step::Begin(byte)).is_err() {
        return Err(LineStop::OutOfMemory);
    }
    match push_words(&mut steps, Step::Begin(byte), words) {
        Ok(()) => Ok(steps),
        Err(stop) => Err(stop),
    }
}

/// The command is one of the profile, declared or not.
pub(crate) fn is_profile(profile: Profile, byte: u8) -> bool
    ensures { result ≡ is_profile profile byte }
{
    match profile {
        Profile::Base => Command::of(byte).is_of_base(),
        Profile::Onfi => Command::of(byte).is_known(),
    }
}

// An address that the profile hasn't of 90, EC or ED.
fn is_other(profile: Profile, command: Command, byte: u8) -> bool
    ensures { result ≡ is_other profile command byte }
{
    match (profile, command) {
        (Profile::Base, Command::ReadId) => byte != 0x20,
        _ => !command.takes_address(byte),
    }
}

fn begins_otherwise(profile: Profile, command: Command, steps: &[Step]) -> bool
    ensures { result ≡ begins_otherwise profile command steps.now }
{
    match steps {
        [Step::Address(byte), ..] => is_other(profile, command, *byte),
        _ => false,
    }
}

// A command of the profile begins no sequence but with such an address.
fn is_free(profile: Profile, line: &[Step]) -> bool
    ensures { result ≡ is_free profile line.now }
{
    match line {
        [Step::Begin(byte), steps @ ..] => {
            !is_profile(profile, *byte) || begins_otherwise(profile, Command::of(*byte), steps)
        }
        _ => false,
    }
}

fn is_same_address(first: &[Step], second: &[Step]) -> bool
    ensures { result ≡ is_same_address first.now second.now }
{
    match first {
        [Step::Address(one), ..] => match second {
            [Step::Address(other), ..] => *one == *other,
            _ => false,
        },
        _ => false,
    }
}

// Two sequences begin with one command, and where that is one of the profile's with one address.
fn begin_alike(profile: Profile, first: &[Step], second: &[Step]) -> bool
    ensures { result ≡ begin_alike profile first.now second.now }
{
    match first {
        [Step::Begin(one), others @ ..] => match second {
            [Step::Begin(other), rest @ ..] => {
                *one == *other && (!is_profile(profile, *one) || is_same_address(others, rest))
            }
            _ => false,
        },
        _ => false,
    }
}

// A sequence that begins so is there.
fn stands_in(profile: Profile, line: &[Step], before: &[Step]) -> bool
    ensures { result ≡ stands_in profile line.now before.now }
{
    let mut rest = before;
    'rest: while let [_, after @ ..] = rest {
        if begin_alike(profile, line, rest) {
            return true;
        }
        rest = after;
    }
    false
}

// Adds the sequence of a line that begins with this word, and goes on with these.
fn push_sequence<A: Allocator + Clone>(
    alloc: &A,
    profile: Profile,
    steps: &mut Vec<Step, A>,
    first: &[u8],
    words: &[u8],
) -> Result<(), LineStop>
    ensures ok { OnOk result (line_after profile steps.old.items (first.now ∷ fields words.now) ≡ Ok steps.new.items) }
    ensures err { IfErr result (λ e. IsRefusalOf e (line_after profile steps.old.items (first.now ∷ fields words.now))) }
{
    let Ok(copy) = alloc.clone() else {
        return Err(LineStop::OutOfMemory);
    };
    let line = match steps_of(copy, first, words) {
        Ok(line) => line,
        Err(stop) => return Err(stop),
    };
    if !is_free(profile, line.as_slice()) {
        return Err(LineStop::Fault(VendorFault::KnownCommand));
    }
    if stands_in(profile, line.as_slice(), steps.as_slice()) {
        return Err(LineStop::Fault(VendorFault::Twice));
    }
    match steps.extend_from_slice(line.as_slice()) {
        Ok(()) => Ok(()),
        Err(_) => Err(LineStop::OutOfMemory),
    }
}

// Adds the sequence of a line, if it has one.
fn push_line<A: Allocator + Clone>(
    alloc: &A,
    profile: Profile,
    steps: &mut Vec<Step, A>,
    line: &[u8],
) -> Result<(), LineStop>
    ensures { IsLine profile steps.old.items line.now result steps.new.items }
{
    match next_field(before_comment(line)) {
        None => Ok(()),
        Some((first, words)) => push_sequence(alloc, profile, steps, first, words),
    }
}

/// The sequences of a vendor file for a profile, one after the other, each as its first command and its steps. A file that isn't of this form is refused by its first
/// faulty line; `OutOfMemory` is answered only where memory was refused.
pub fn read_sequences<A: Allocator + Clone>(
    alloc: A,
    profile: Profile,
    text: &str,
) -> Result<Vec<Step, A>, VendorRefusal>
    ensures ok { IfOk result (λ steps. sequences_in profile text.now ≡ Ok steps.items) }
    ensures fault { (fault : VendorFileFault) → result ≡ Err (VendorRefusal.Fault fault) → sequences_in profile text.now ≡ Err fault }
{
    let Ok(copy) = alloc.clone() else {
        return Err(VendorRefusal::OutOfMemory);
    };
    let mut steps = Vec::new(copy);
    let mut rest = text.as_bytes();
    let mut number = 1;
    'lines: while let Some((line, after)) = next_line(rest) {
        match push_line(&alloc, profile, &mut steps, line) {
            Ok(()) => {}
            Err(LineStop::Fault(fault)) => {
                return Err(VendorRefusal::Fault(VendorFileFault {
                    fault,
                    line: number,
                }));
            }
            Err(LineStop::OutOfMemory) => return Err(VendorRefusal::OutOfMemory),
        }
        number += 1;
        rest = after;
    }
    Ok(steps)
}
