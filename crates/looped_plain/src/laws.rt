//! Laws of plain operations in a loop: each function here does nothing, and its contract is a law.

ghost use Rattle.looped_plain.specs.Looped.{LoopedTextsAreFound};

/// The search finds a certificate of the text of operations in a loop, if [`plain`](micro_verify::plain) doesn't refuse them: so no verifier refuses it.
pub fn looped_texts_are_found()
    ensures { LoopedTextsAreFound }
{}

ghost use Rattle.looped_plain.specs.Looped.{LoopedTextsAreFaultless};

/// Such a text has no fault.
pub fn looped_texts_are_faultless()
    ensures { LoopedTextsAreFaultless }
{}

ghost use Rattle.looped_plain.specs.Looped.{LoopedTextsFit};

/// There is such a text of each such list that leaves room for three words more, and for each number of turns whose budget fits.
pub fn looped_texts_fit()
    ensures { LoopedTextsFit }
{}
