//! Which rows are programmed and erased on the way that takes no branch.

use crate::misordered::Misordered;
use crate::note::Note;
use crate::programmed::{Programmed, ProgrammedRow};
use crate::rewritten::Rewritten;
use crate::row_at::RowAt;
use crate::turning::Loops;
use micro_explain::command_of;
use micro_word::Word;
use nand_geometry::Geometry;
use onfi_cycle::Command;
use std::alloc::{AllocError, Allocator};

// Each of 1,024 words is walked twice for each of four loops around it at most.
const MOST_STEPS: usize = 16_384;

// A walk along the way that takes no branch. Of each loop it takes two turns.
#[derive(Drop)]
struct RowWalk<'a, B: Allocator> {
    words: &'a [Word],
    at: usize,
    loops: Loops,
    // The registers of the program.
    row: u64,
    plane: u8,
    several_planes: bool,
    // The row of the last address that has one.
    named: Option<RowAt>,
    // A branch was passed.
    branched: bool,
    programmed: Programmed<B>,
    notes: Vec<Note, B>,
}

// The command erases a block.
fn erases(command: Command) -> bool {
    matches!(
        command,
        Command::BlockEraseConfirm | Command::BlockErasePlane
    )
}

// The command programs a page.
fn programs(command: Command) -> bool {
    matches!(
        command,
        Command::ProgramConfirm | Command::ProgramPlane | Command::ProgramCache
    )
}

// A note of the word is there already.
fn has_note_of(notes: &[Note], word: usize) -> bool {
    notes.iter().any(|note| note.word() == Some(word))
}

// Some word of these erases a block.
fn some_erase(words: &[Word]) -> bool {
    words.iter().any(|word| match command_of(*word) {
        None => false,
        Some(command) => erases(command),
    })
}

// The words from one place to another.
fn part(words: &[Word], from: usize, to: usize) -> &[Word] {
    words.get(from..to).unwrap_or(&[])
}

impl<B: Allocator> RowWalk<'_, B> {
    // The row of the registers.
    fn row_now(&self) -> RowAt {
        RowAt {
            row: self.row,
            plane: self.plane,
            several: self.several_planes,
        }
    }

    // What is wrong with the program of a row by the word where the walk is.
    fn note_of(&self, at: RowAt) -> Option<Note> {
        let (word, branched) = (self.at, self.branched);
        if let Some(before) = self.programmed.of(at) {
            return Some(Note::Rewritten(Rewritten {
                word,
                before: before.word,
                row: at,
                branched,
            }));
        }
        let before = self.programmed.after(at)?;
        Some(Note::Misordered(Misordered {
            word,
            before: before.word,
            row: at,
            higher: before.at,
            branched,
        }))
    }

    // The row is programmed.
    fn program(&mut self, at: RowAt) -> Result<(), AllocError> {
        if let Some(note) = self.note_of(at) {
            if !has_note_of(self.notes.as_slice(), self.at) {
                self.notes.push(note)?;
            }
        }
        self.programmed.add(ProgrammedRow { at, word: self.at })
    }

    // A command comes.
    fn take_command(&mut self, command: Command) -> Result<(), AllocError> {
        let Some(named) = self.named else {
            return Ok(());
        };
        if erases(command) {
            self.programmed.erase(named);
        } else if programs(command) {
            self.program(named)?;
        }
        Ok(())
    }

    // At a `next`: the loop once more, or on, with what its other turns do to the row and to what is programmed.
    fn turn(&mut self) {
        if let Some(head) = self.loops.turn(self.row) {
            self.at = head;
            return;
        }
        if let Some(turning) = self.loops.leave() {
            if turning.is_cut() && some_erase(part(self.words, turning.head, self.at)) {
                self.programmed.forget();
            }
            self.row = turning.row_after(self.row);
        }
        self.go_on();
    }

    fn go_on(&mut self) {
        self.at = self.at.saturating_add(1);
    }

    // A word that leads on.
    fn take(&mut self, word: Word) -> Result<(), AllocError> {
        match word {
            Word::Command { byte } => self.take_command(Command::of(byte))?,
            Word::Address { from, count } => {
                if u32::from(from) + u32::from(count) >= 5 {
                    self.named = Some(self.row_now());
                }
            }
            Word::RowAdd { rows } => self.row = self.row.saturating_add(u64::from(rows)),
            Word::Row { row } => self.row = u64::from(row),
            Word::Plane { plane } => self.plane = plane,
            Word::BranchOnStatus { .. } => self.branched = true,
            Word::Loop { turns } => self.loops.enter(self.at.saturating_add(1), turns),
            Word::End { .. }
            | Word::Get { .. }
            | Word::Put { .. }
            | Word::Seek { .. }
            | Word::Column { .. }
            | Word::Wait
            | Word::Yield
            | Word::ReadStatus
            | Word::Next
            | Word::Jump { .. } => {}
        }
        Ok(())
    }

    // One word more. Whether the way goes on.
    fn step(&mut self) -> Result<bool, AllocError> {
        let Some(word) = self.words.get(self.at) else {
            return Ok(false);
        };
        match *word {
            Word::End { .. } => return Ok(false),
            Word::Next => self.turn(),
            Word::Jump { target } => self.at = usize::from(target),
            word => {
                self.take(word)?;
                self.go_on();
            }
        }
        Ok(true)
    }
}

/// The notes of words that program a row twice, or the pages of a block out of order, on the way that takes no branch: one a word at most.
pub(crate) fn row_notes<B: Allocator + Clone>(
    alloc: B,
    words: &[Word],
    geometry: &Geometry,
) -> Result<Vec<Note, B>, AllocError> {
    let mut walk = RowWalk {
        words,
        at: 0,
        loops: Loops::none(),
        row: 0,
        plane: 0,
        several_planes: geometry.planes() > 1,
        named: None,
        branched: false,
        programmed: Programmed::new(alloc.clone()?, u64::from(geometry.parts().pages)),
        notes: Vec::new(alloc),
    };
    for _ in 0..MOST_STEPS {
        if !walk.step()? {
            break;
        }
    }
    Ok(walk.notes)
}
