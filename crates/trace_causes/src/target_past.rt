//! What a trace did to a target, as far as a message names it.

use crate::cause::Undriven;
use crate::open_sequence::CommandAt;
use crate::target_look::{MOST_LUNS, TargetLook};
use onfi_cycle::{Command, LunState, TailFacts};

/// Where in a trace a target came to what it does now.
#[derive(Clone, Copy)]
pub struct TargetPast {
    /// Its last opener.
    pub opener: Option<CommandAt>,
    /// The last command that asked for its status.
    pub asked: Option<CommandAt>,
    /// Since when none of its LUNs drives the bus, where none does.
    pub undriven: Undriven,
    // The last command, with which a LUN may begin its work.
    last: Option<CommandAt>,
    /// Of each LUN that works, the command with which it began.
    pub work: [Option<CommandAt>; MOST_LUNS],
}

// The command with which a LUN began the work that it does, if it does some.
fn work_after(
    before: Option<CommandAt>,
    last: Option<CommandAt>,
    lun: Option<LunState>,
) -> Option<CommandAt> {
    if lun?.busy { before.or(last) } else { None }
}

impl TargetPast {
    /// What the state of a target alone tells: its opener, and of each LUN the command with which the work began that it does.
    pub fn told_by(
        opener: Option<CommandAt>,
        undriven: Undriven,
        work: [Option<CommandAt>; MOST_LUNS],
    ) -> TargetPast {
        TargetPast {
            opener,
            asked: None,
            undriven,
            last: None,
            work,
        }
    }

    /// Nothing has happened.
    pub fn nothing() -> TargetPast {
        TargetPast {
            opener: None,
            asked: None,
            undriven: Undriven::NothingRead,
            last: None,
            work: [None; MOST_LUNS],
        }
    }

    /// Goes on by a command that the target took, behind which its tail has these facts. A 31h that closes a 00h is no opener, nor is an 85h
    /// in the data of a program.
    pub fn note_command(&mut self, command: CommandAt, tail: TailFacts) {
        self.last = Some(command);
        if Command::of(command.byte).is_opener() && tail.opening.is_some() {
            self.opener = self.last;
        }
        match Command::of(command.byte) {
            Command::ReadStatus | Command::ReadStatusEnhanced => self.asked = self.last,
            Command::Reset => {
                self.undriven = Undriven::Reset(command);
                self.work = [None; MOST_LUNS];
            }
            _ => {}
        }
    }

    /// Whether its last command was Read Parameter Page.
    pub fn is_reading_parameters(self) -> bool {
        match self.last {
            None => false,
            Some(command) => Command::of(command.byte) == Command::ReadParameterPage,
        }
    }

    /// Goes on to what its LUNs do now.
    pub fn note_work(&mut self, target: TargetLook) {
        let [zeroth, first, second, third] = self.work;
        let [lun0, lun1, lun2, lun3] = target.luns;
        let last = self.last;
        self.work = [
            work_after(zeroth, last, lun0),
            work_after(first, last, lun1),
            work_after(second, last, lun2),
            work_after(third, last, lun3),
        ];
    }
}
