//! Laws of plain operations, each a statement of `specs/`.

ghost use Rattle.micro_verify.specs.Plain.{PlainTextsAreFaultless};

/// The verifier finds no fault in the text of operations that aren't refused.
pub fn plain_texts_are_faultless()
    ensures { PlainTextsAreFaultless }
{}

ghost use Rattle.micro_verify.specs.Plain.{PlainTextsAreAccepted};

/// Nothing that a verifier may tell is against the text of operations that aren't refused.
pub fn plain_texts_are_accepted()
    ensures { PlainTextsAreAccepted }
{}
