//! The law of reading in place.
ghost use Rattle.word_file.specs.Words.{WordsAreRead};

/// What is read of a file of a text are the words of that text.
pub fn words_are_read()
    ensures { WordsAreRead }
{}
