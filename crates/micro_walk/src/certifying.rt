//! Texts with branches and loops: claims for their places, found by a search, and the check that they are a certificate.
ghost use Rattle.std.specs.Prelude.{◌≡◌, ◌↔◌, true, IsOk, IfOk, IfErr};
ghost use Rattle.micro_claims.specs.Certificate.{is_certified};
ghost use Rattle.micro_claims.specs.Order.{machine};
ghost use Rattle.micro_walk.specs.Searched.{is_found};
ghost use Rattle.micro_walk.specs.Certified.{is_shown};
ghost use Rattle.micro_claims.specs.State.{bounds_of};

use crate::check::is_certified;
use crate::claim_table::nothing_known;
use crate::examining::bounds_of;
use crate::search::find;
use crate::shape::shape_fault;
use arrayvec::ArrayVec;
use micro_claims::State;
use micro_program::Verified;
use micro_word::{MAX_WORDS, Text};
use nand_geometry::Geometry;
use std::alloc::Allocator;
use std::marker::Model;

// How many words the search walks at most: 65,536 for each of 1,024 words.
pub(crate) const MOST_WALKED: u32 = 67_108_864;

/// What is claimed before each word of a text; nothing where no way leads. It stands where it is put, and takes no memory.
#[derive(Drop)]
pub struct Claims {
    claims: ArrayVec<Option<State>, MAX_WORDS>,
}

impl Model for Claims {
    ghost use Rattle.std.specs.Prelude.{List, Option};
    ghost use Rattle.micro_claims.specs.declared.state.State.{State};

    ghost Value = { List (Option State) };

    ghost view = { λ c. c.claims.items };
}

impl Claims {
    /// Looks for claims of a text for a geometry; [`certify`] tells whether they are a certificate. Where the search finds something
    /// against a word, the claims after it are missing.
    pub fn find<A: Allocator>(text: &Text<A>, geometry: &Geometry) -> Claims
        // They are a certificate of a text of which the search finds one.
        ensures { is_found geometry.now (bounds_of text.now) text.now.words ≡ true → is_certified (machine geometry.now (bounds_of text.now)) text.now.words result ≡ true }
    {
        let words = text.words();
        let mut claims = nothing_known(words.len());
        // How far the search came and where it stopped says nothing of the claims.
        let _ = find(
            geometry,
            bounds_of(text),
            words,
            claims.as_mut_slice(),
            MOST_WALKED,
        );
        Claims { claims }
    }
}

// Whether the claims are a certificate of a text whose loops and branches are nested.
fn is_shown<A: Allocator>(text: &Text<A>, geometry: &Geometry, claims: &Claims) -> bool
    ensures { result ≡ is_shown geometry.now text.now claims.now }
{
    let words = text.words();
    shape_fault(words).is_none()
        && is_certified(geometry, bounds_of(text), words, claims.claims.as_slice())
}

// A text with its certificate, as one that is verified.
fn shown_by<A: Allocator>(text: Text<A>, geometry: Geometry, claims: &Claims) -> Verified<A>
    requires { is_shown geometry text claims.now ≡ true }
    ensures { (result.text ≡ text) × (result.geometry ≡ geometry) }
{
    // The calls hand out what the proof needs: that the words fit their format, and that the geometry is within its limits.
    let _ = text.words();
    let _ = geometry.parts();
    Verified::of(text, geometry, 0)
}

/// Verifies a text with branches and loops for a geometry, by claims for its places: exactly when its loops pair, four deep at most, its
/// branches lead on inside their loop, and the claims are a certificate (docs/model/PROOF.md). Else the text is handed back. Takes no
/// memory. What is verified so is safe like all that the verifier accepts, whoever made the claims.
pub fn certify<A: Allocator>(
    text: Text<A>,
    geometry: Geometry,
    claims: &Claims,
) -> Result<Verified<A>, Text<A>>
    ensures accepted { IsOk result ↔ (is_shown geometry text claims.now ≡ true) }
    ensures value { IfOk result (λ v. (v.text ≡ text) × (v.geometry ≡ geometry)) }
    ensures refused { IfErr result (λ e. e ≡ text) }
{
    if is_shown(&text, &geometry, claims) {
        Ok(shown_by(text, geometry, claims))
    } else {
        Err(text)
    }
}
