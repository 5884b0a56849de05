//! What is read off the words of a text.
ghost use Rattle.std.specs.Prelude.{◌≡◌};
ghost use Rattle.micro_program.specs.Lines.{is_command_31, continues_cache_read, leads_on, all_lead_on};

use micro_word::Word;
use onfi_cycle::Command;

// The word continues a cache read.
fn is_read_cache_sequential(word: Word) -> bool
    ensures { result ≡ is_command_31 word }
{
    match word {
        Word::Command { byte } => matches!(Command::of(byte), Command::ReadCacheSequential),
        _ => false,
    }
}

/// Some word continues a cache read.
pub fn continues_cache_read(words: &[Word]) -> bool
    ensures { result ≡ continues_cache_read words.now }
{
    words.iter().any(|word| is_read_cache_sequential(*word))
}

// The word is no branch and no loop.
fn leads_on(word: Word) -> bool
    ensures { result ≡ leads_on word }
{
    !matches!(
        word,
        Word::BranchOnStatus { .. } | Word::Loop { .. } | Word::Next | Word::Jump { .. }
    )
}

/// No word is a branch or a loop.
pub fn all_lead_on(words: &[Word]) -> bool
    ensures { result ≡ all_lead_on words.now }
{
    words.iter().all(|word| leads_on(*word))
}
