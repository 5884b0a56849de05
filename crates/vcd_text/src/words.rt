//! The words of a dump.
ghost use Rattle.std.specs.Prelude.{◌≡◌, ℕ, ◌+◌, ◌<◌, ◌≤◌, ◌^◌, false, [], ◌∷◌, length, take, drop, IfSome, IfNone};
ghost use Rattle.std.specs.List.{All};
ghost use Rattle.vcd_text.specs.Words.{is_blank, ended, words, words_from, words_left, with_word, lines_from, IsCut, GoesOn, StartsWord};

/// What stands between white space, and the number of its line, from 1.
#[derive(Clone, Copy, Debug)]
pub struct Word<'a> {
    pub line: usize,
    pub text: &'a [u8],
}

/// The words that are left of a dump.
#[derive(Clone, Copy, Debug)]
pub struct Words<'a> {
    pub(crate) line: usize,
    pub(crate) rest: &'a [u8],
}

// White space: a space, or a control character.
#[inline(always)]
pub(crate) fn is_blank(byte: u8) -> bool
    ensures { result ≡ is_blank byte }
{
    byte <= b' '
}

// How many bytes the word has at whose first byte this text begins.
#[inline(always)]
fn word_len(text: &[u8]) -> usize
    requires some { 0 < length text.now }
    requires starts { StartsWord text.now }
    ensures some { 0 < result }
    ensures within { result ≤ length text.now }
    ensures word { (line : ℕ) → words_from line [] text.now ≡ ended line (take result text.now) (words_from line [] (drop result text.now)) }
    ensures lines { (line : ℕ) → lines_from line (drop result text.now) ≡ lines_from line text.now }
    ensures cut { IsCut text.now → IsCut (drop result text.now) }
{
    let mut count = 1;
    'bytes: while count < text.len() && !is_blank(text[count]) {
        count += 1;
    }
    count
}

/// How many bytes of a piece stand in front of what may be the beginning of a word: they end in white space.
pub fn whole_len(piece: &[u8]) -> usize
    ensures within { result ≤ length piece.now }
    ensures cut { IsCut (take result piece.now) }
    ensures rest { All (λ b. is_blank b ≡ false) (drop result piece.now) }
{
    let mut count = piece.len();
    'bytes: while count > 0 && !is_blank(piece[count - 1]) {
        count -= 1;
    }
    count
}

impl<'a> Words<'a> {
    /// The words of a text.
    pub fn of(text: &'a [u8]) -> Words<'a>
        ensures words { words_left result ≡ words text.entry.now }
        ensures line { result.line ≡ 1 }
        ensures rest { result.rest.now ≡ text.entry.now }
        ensures room { result.line + length result.rest.now < 2 ^ 64 }
    {
        Words {
            line: 1,
            rest: text,
        }
    }

    // Goes on to the next word.
    #[inline(always)]
    #[tactic(auto, using(crate::proofs::Pieces::rest_cut))]
    fn skip_blanks(&mut self)
        requires room { self.old.line + length self.old.rest.now < 2 ^ 64 }
        ensures words { words_left self.new ≡ words_left self.old }
        ensures goes_on { GoesOn self.old self.new }
        ensures starts { StartsWord self.new.rest.now }
    {
        'blanks: while let [first, rest @ ..] = self.rest {
            if !is_blank(*first) {
                return;
            }
            if *first == b'\n' {
                self.line += 1;
            }
            self.rest = rest;
        }
    }

    /// The next word.
    #[inline(always)]
    pub fn next_word(&mut self) -> Option<Word<'a>>
        requires room { self.old.line + length self.old.rest.now < 2 ^ 64 }
        ensures words { words_left self.old ≡ with_word result (words_left self.new) }
        ensures none { IfNone result (words_left self.old ≡ []) }
        ensures goes_on { GoesOn self.old self.new }
        ensures shorter { IfSome result (λ _. length self.new.rest.now < length self.old.rest.now) }
    {
        self.skip_blanks();
        if self.rest.is_empty() {
            return None;
        }
        let count = word_len(self.rest);
        let (text, rest) = self.rest.split_at(count);
        self.rest = rest;
        Some(Word {
            line: self.line,
            text,
        })
    }
}
