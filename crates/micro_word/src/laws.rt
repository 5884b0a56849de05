//! Laws of the definitions, for the crates above: each is the contract of a function that does nothing.
ghost use Rattle.micro_word.specs.Codes.{WordFaultsAreNumbered};

/// Each fault of a word file is that of its number.
pub fn word_faults_are_numbered()
    ensures { WordFaultsAreNumbered }
{}
