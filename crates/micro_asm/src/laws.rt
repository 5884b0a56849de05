//! What holds of the definitions: the contract of a function that does nothing.

ghost use Rattle.micro_asm.specs.Again.{WordsAreSpelled, HeadersAreSpelled, LabelsAreSpelled, WrittenIsRead, ReadIsWrittenAgain};
ghost use Rattle.micro_asm.specs.Codes.{AsmFaultsAreNumbered};

/// The line that is written for a word is read as that word; a branch is read with the label that is written of its place.
pub fn words_are_spelled()
    ensures { WordsAreSpelled }
{}

/// Each of the three header lines that are written is read as that header line.
pub fn headers_are_spelled()
    ensures { HeadersAreSpelled }
{}

/// The line that is written for the label of a place is read as that label.
pub fn labels_are_spelled()
    ensures { LabelsAreSpelled }
{}

/// The text that is written of a microprogram is read as this microprogram.
pub fn written_is_read()
    ensures { WrittenIsRead }
{}

/// What a text spells, written anew, is read as the same.
pub fn read_is_written_again()
    ensures { ReadIsWrittenAgain }
{}

/// Each fault of an assembly text is that of its number.
pub fn asm_faults_are_numbered()
    ensures { AsmFaultsAreNumbered }
{}
