//! The words of a line in a recorded text: what stands between blanks, up to a comment.

ghost use Rattle.std.specs.Prelude.{◌≡◌, ◌<◌, ◌≤◌, ◌||◌, [], false, length, take, drop, IfSome, IfNone};
ghost use Rattle.std.specs.Option.{option_copied};
ghost use Rattle.std.specs.Str.Lines.{strip_carriage_return};
ghost use Rattle.trace_text.specs.Recorded.{is_blank, begins_comment, ended, words_from, words};
ghost use Rattle.trace_text.specs.RecordedLines.{words_left, with_word, StartsWord};

// A space or a tab.
fn is_blank(byte: u8) -> bool
    ensures { result ≡ is_blank byte }
{
    byte == b' ' || byte == b'\t'
}

fn begins_comment(byte: u8) -> bool
    ensures { result ≡ begins_comment byte }
{
    byte == b'#' || byte == b';'
}

// The line without the carriage return that may stand at its end.
fn strip_carriage_return(line: &[u8]) -> &[u8]
    ensures { result.now ≡ strip_carriage_return line.entry.now }
{
    match line.split_last() {
        Some((b'\r', front)) => front,
        _ => line,
    }
}

// A word ends in front of a blank or a comment.
fn ends_word(byte: u8) -> bool
    ensures { result ≡ (is_blank byte || begins_comment byte) }
{
    is_blank(byte) || begins_comment(byte)
}

// How many bytes the word has that stands at the front of this text; 0 if none does.
fn word_len(text: &[u8]) -> usize
    ensures within { result ≤ length text.now }
    ensures word { words_from [] text.now ≡ ended (take result text.now) (words_from [] (drop result text.now)) }
    ensures none { result ≡ 0 → StartsWord text.now → words_from [] text.now ≡ [] }
{
    let mut count = 0;
    'bytes: while count < text.len() && !ends_word(text[count]) {
        count += 1;
    }
    count
}

// The words that are left of a line.
#[derive(Clone, Copy)]
pub(crate) struct Words<'a> {
    rest: &'a [u8],
}

impl<'a> Words<'a> {
    // The words of a line, which is given without its line feed.
    pub(crate) fn of(line: &'a [u8]) -> Words<'a>
        ensures { words_left result ≡ words line.entry.now }
    {
        Words {
            rest: strip_carriage_return(line),
        }
    }

    // Goes on to the next word, or to the comment.
    fn skip_blanks(&mut self)
        ensures words { words_left self.new ≡ words_left self.old }
        ensures starts { StartsWord self.new.rest.now }
    {
        'blanks: while let [first, rest @ ..] = self.rest {
            if !is_blank(*first) {
                return;
            }
            self.rest = rest;
        }
    }

    // The next word.
    pub(crate) fn next_word(&mut self) -> Option<&'a [u8]>
        ensures words { words_left self.old ≡ with_word (option_copied result) (words_left self.new) }
        ensures none { IfNone result (words_left self.old ≡ []) }
    {
        self.skip_blanks();
        let count = word_len(self.rest);
        if count == 0 {
            return None;
        }
        let (word, rest) = self.rest.split_at(count);
        self.rest = rest;
        Some(word)
    }
}
