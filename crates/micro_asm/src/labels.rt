//! Which words a branch names.
ghost use Rattle.std.specs.Prelude.{◌≡◌, ℕ, ◌<◌, ◌||◌, IfSome, slice_index_or, false};
ghost use Rattle.micro_asm.specs.Assembly.{is_target, branches_to};
ghost use Rattle.micro_asm.specs.Targets.{target_of, TargetsBelow};

use micro_word::{MAX_WORDS, Word};

// The word to which a word branches, if it is a branch.
fn target_of(word: Word) -> Option<u16>
    ensures { result ≡ target_of word }
{
    match word {
        Word::BranchOnStatus { target, .. } | Word::Jump { target } => Some(target),
        _ => None,
    }
}

// Notes the place to which a word branches, if it is a branch.
fn note_target(named: &mut [bool; MAX_WORDS], word: Word)
    requires { IfSome (target_of word) (λ target. target < 1024) }
    ensures { (at : ℕ) → at < 1024 → slice_index_or named.new at false ≡ (slice_index_or named.old at false || branches_to at word) }
{
    if let Some(target) = target_of(word) {
        named[usize::from(target)] = true;
    }
}

/// For each place of a text whether one of these words is a branch to it.
pub fn targets(words: &[Word]) -> [bool; MAX_WORDS]
    requires { TargetsBelow 1024 words.now }
    ensures { (at : ℕ) → at < 1024 → slice_index_or result at false ≡ is_target words.now at }
{
    let mut named = [false; MAX_WORDS];
    for word in words {
        note_target(&mut named, *word);
    }
    named
}
