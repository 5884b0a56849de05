//! Making one file of another, piece by piece.
ghost use Rattle.std.specs.Prelude.{◌≡◌, ◌++◌, ◌<◌, true, Ok, List, [], ℕ, length, IfOk, IfErr, OnOk};
ghost use Rattle.std.specs.Io.KnownBytes.{Appends, Consumes, IsAtEnd};
ghost use Rattle.seq_files.specs.Converting.{AreLeft, GoesOn, HasGoneOn, IsMade, IsNotRefused, IsRefused};

use crate::error::{FileError, FileFault};
use crate::input::after_failure;
use std::alloc::Allocator;
use std::io::{Read, Write};

/// How many bytes of an input are read at once.
const PIECE: usize = 65_536;

/// What makes an output of an input, piece by piece. After a refusal nothing more is to be asked of it.
pub trait Convert {
    /// Why nothing is made of an input.
    type Refusal;

    /// What is to hold between two pieces.
    ghost is_ready: { Self → Type 0 };

    /// Of the rest of an input these bytes are made.
    ghost makes: { Self → List ℕ → List ℕ → Type 0 };

    /// The rest of an input is refused for this.
    ghost refuses: { Self → List ℕ → Self.Refusal → Type 0 };

    /// Goes on by a piece of the input, and adds what is made of it.
    fn take<A: Allocator>(
        &mut self,
        piece: &[u8],
        output: &mut Vec<u8, A>,
    ) -> Result<(), Self::Refusal>
        requires ready { is_ready self.old }
        ensures ready { OnOk result (is_ready self.new) }
        ensures made { OnOk result ((made : List ℕ) × (output.new.items ≡ output.old.items ++ made)
            × GoesOn (makes self.old) (makes self.new) (refuses self.old) (refuses self.new) piece.now made) }
        ensures refused { IfErr result (λ why. (rest : List ℕ) → refuses self.old (piece.now ++ rest) why) };

    /// Adds what is left where the input ends.
    fn finish<A: Allocator>(&mut self, output: &mut Vec<u8, A>) -> Result<(), Self::Refusal>
        requires ready { is_ready self.old }
        ensures made { OnOk result ((made : List ℕ) × (output.new.items ≡ output.old.items ++ made) × makes self.old [] made) }
        ensures refused { IfErr result (λ why. refuses self.old [] why) };
}

/// Why no output is made of an input.
#[derive(Clone, Copy, Debug, PartialEq, Eq)]
pub enum NotConverted<R> {
    /// The input can't be read.
    Input(FileError),
    /// The output can't be written.
    Output(FileError),
    /// The converter refuses the input.
    Refused(R),
}

// Where a piece of the input stands, and what is made of it.
#[derive(Drop)]
struct Room<A: Allocator> {
    piece: Vec<u8, A>,
    made: Vec<u8, A>,
}

impl<A: Allocator + Clone> Room<A> {
    fn new(alloc: A) -> Result<Room<A>, FileError>
        ensures { IfOk result (λ room. (0 < length room.piece.items) × (room.made.items ≡ [])) }
    {
        let copy = alloc.clone()?;
        Ok(Room {
            piece: vec![in copy; 0; PIECE]?,
            made: Vec::new(alloc),
        })
    }
}

// Writes what was made.
fn write_made<W: Write, A: Allocator, R>(
    output: &mut W,
    made: &mut Vec<u8, A>,
) -> Result<(), NotConverted<R>>
    ensures written { OnOk result (Appends (W.contents output.old) (W.contents output.new) made.old.items) }
    ensures empty { OnOk result (made.new.items ≡ []) }
    ensures err { IfErr result (λ e. IsNotRefused e) }
{
    match output.write_all(made.as_slice()) {
        Ok(()) => {
            made.clear();
            Ok(())
        }
        Err(error) => Err(NotConverted::Output(FileError::of(&error))),
    }
}

// One read of the input: what is made of it is written. Whether the input is at its end.
fn convert_piece<A: Allocator, R: Read, W: Write, C: Convert>(
    room: &mut Room<A>,
    input: &mut R,
    output: &mut W,
    converter: &mut C,
) -> Result<bool, NotConverted<C::Refusal>>
    requires room { (0 < length room.old.piece.items) × (room.old.made.items ≡ []) }
    requires ready { C.is_ready converter.old }
    ensures room { OnOk result ((0 < length room.new.piece.items) × (room.new.made.items ≡ [])) }
    ensures ready { OnOk result (C.is_ready converter.new) }
    ensures more { OnOk result (HasGoneOn (R.remaining input.old) (R.remaining input.new) (W.contents output.old) (W.contents output.new)
        (C.makes converter.old) (C.makes converter.new) (C.refuses converter.old) (C.refuses converter.new)) }
    ensures end { result ≡ Ok true → IsAtEnd (R.remaining input.new) }
    ensures refused { IfErr result (IsRefused (AreLeft (R.remaining input.old)) (C.refuses converter.old)) }
{
    match input.read(room.piece.as_mut_slice()) {
        Ok(count) => {
            match converter.take(&room.piece[..count], &mut room.made) {
                Ok(()) => {}
                Err(why) => return Err(NotConverted::Refused(why)),
            }
            match write_made(output, &mut room.made) {
                Ok(()) => Ok(count == 0),
                Err(error) => Err(error),
            }
        }
        Err(error) => match after_failure(&error) {
            Ok(ended) => Ok(ended),
            Err(error) => Err(NotConverted::Input(error)),
        },
    }
}

// Writes what is made at the end of the input.
fn convert_end<A: Allocator, W: Write, C: Convert>(
    room: &mut Room<A>,
    output: &mut W,
    converter: &mut C,
) -> Result<(), NotConverted<C::Refusal>>
    requires room { room.old.made.items ≡ [] }
    requires ready { C.is_ready converter.old }
    ensures made { OnOk result ((made : List ℕ) × Appends (W.contents output.old) (W.contents output.new) made × C.makes converter.old [] made) }
    ensures refused { IfErr result (IsRefused (λ input. input ≡ []) (C.refuses converter.old)) }
{
    match converter.finish(&mut room.made) {
        Ok(()) => write_made(output, &mut room.made),
        Err(why) => Err(NotConverted::Refused(why)),
    }
}

/// Writes what a converter makes of an input, piece by piece. A read or a write that a signal interrupts is tried again. Where that fails, a part of it may be written.
#[tactic(auto, using(crate::proofs::Converted::begun))]
pub fn convert_all<A: Allocator + Clone, R: Read, W: Write, C: Convert>(
    alloc: A,
    input: &mut R,
    output: &mut W,
    converter: &mut C,
) -> Result<(), NotConverted<C::Refusal>>
    requires ready { C.is_ready converter.old }
    ensures made { OnOk result ((made : List ℕ) × Appends (W.contents output.old) (W.contents output.new) made
        × IsMade (AreLeft (R.remaining input.old)) (C.makes converter.old) made) }
    ensures refused { IfErr result (IsRefused (AreLeft (R.remaining input.old)) (C.refuses converter.old)) }
{
    let mut room = match Room::new(alloc) {
        Ok(room) => room,
        Err(error) => return Err(NotConverted::Input(error)),
    };
    for _ in 0..usize::MAX {
        match convert_piece(&mut room, input, output, converter) {
            Ok(true) => return convert_end(&mut room, output, converter),
            Ok(false) => {}
            Err(error) => return Err(error),
        }
    }
    Err(NotConverted::Input(FileError::Fault(FileFault::NoEnd)))
}
