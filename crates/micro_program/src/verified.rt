//! Texts that are verified.
ghost use Rattle.std.specs.Prelude.{◌≡◌, ◌≤◌, ◌*◌, length};
ghost use Rattle.micro_program.specs.Verified.{NestsTwoDeep, IsFewWalked};
ghost use Rattle.micro_program.specs.Safe.{IsSafe};
ghost use Rattle.micro_program.specs.Places.{IsShaped};

use micro_word::Text;
use nand_geometry::Geometry;
use std::alloc::{Allocator, Global};
use std::marker::Model;

/// A text that is safe for a geometry: on every channel of that geometry, whatever the other LUNs do, each of its cycles is
/// permitted where it comes and is its LUN's own, and it stays inside its buffer and its budget. Only
/// who shows all that ([`Verified::of`]) makes one.
#[derive(Drop)]
pub struct Verified<A: Allocator = Global> {
    pub(crate) text: Text<A>,
    pub(crate) geometry: Geometry,
    pub(crate) walked: u64,
}

impl<A: Allocator> Model for Verified<A> {
    ghost use Rattle.micro_program.specs.Verified.{VerifiedText, IsFewWalked};
    ghost use Rattle.micro_program.specs.Safe.{IsSafe};
    ghost use Rattle.micro_program.specs.Places.{IsShaped};

    ghost Value = { VerifiedText };

    ghost view = { λ v. record { text = v.text; geometry = v.geometry } };

    ghost invariant = { λ v. IsSafe v.text v.geometry × IsShaped v.text.words × IsFewWalked v.text.words v.walked };
}

impl<A: Allocator> Verified<A> {
    /// A text that is shown to be safe and shaped, for whoever verifies texts and proves it. `walked` is how many words that walked.
    pub fn of(text: Text<A>, geometry: Geometry, walked: u64) -> Verified<A>
        requires safe { IsSafe text geometry }
        requires shaped { IsShaped text.words }
        requires few { IsFewWalked text.words walked }
        ensures { (result.text ≡ text) × (result.geometry ≡ geometry) }
    {
        Verified {
            text,
            geometry,
            walked,
        }
    }

    /// The text. Its loops pair, four deep at most, and its branches lead on inside their loop.
    pub fn text(&self) -> &Text<A>
        ensures value { result.now ≡ self.now.text }
        ensures safe { IsSafe self.now.text self.now.geometry }
        ensures shaped { IsShaped self.now.text.words }
    {
        &self.text
    }

    /// The geometry that it was verified for.
    pub fn geometry(&self) -> &Geometry
        ensures { result.now ≡ self.now.geometry }
    {
        &self.geometry
    }

    /// How many words were walked to verify it: each word of a text without loops at most once, and those of a loop at most 16 times for
    /// each time that the walk comes to it, however many turns the loop has. None for a text that comes with its certificate.
    pub fn walked(&self) -> u64
        ensures few { result ≤ 65536 * length self.now.text.words }
        ensures fewer { NestsTwoDeep self.now.text.words → result ≤ 256 * length self.now.text.words }
    {
        self.walked
    }
}
