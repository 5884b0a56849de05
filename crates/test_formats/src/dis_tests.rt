use linked_list_allocator::LocalHeap;
use micro_asm::disassemble;
use micro_word::{Text, Word};
use std::alloc::{Allocator, Global};
use std::test::Fail;

fn text_of<A: Allocator>(
    rows: u16,
    buffer: u32,
    budget: u32,
    words: Vec<Word, A>,
) -> Result<Text<A>, Fail> {
    Ok(
        Text::of(rows, buffer, budget, words)
            .ok()
            .ok_or("the words are no text")?,
    )
}

// The text of an erase on a heap of so many bytes, None where they don't suffice.
fn written_with(alloc: Global, size: usize) -> Result<Option<bool>, Fail> {
    let heap = LocalHeap::new(alloc, 4096)?;
    let words = [Word::Command { byte: 0x60 }, Word::End { code: 0 }];
    let text = text_of(1, 0, 1, words.to_vec(&heap)?)?;
    let taken: Result<Vec<u8, &LocalHeap>, _> = Vec::with_capacity(
        &heap,
        4000_usize.saturating_sub(size),
    );
    let written = disassemble(&heap, &text);
    drop(taken);
    match written {
        Ok(lines) => Ok(Some(lines.as_str() == "rows 1\nbuffer 0\nbudget 1\ncmd 60\nend 0\n")),
        Err(_) => Ok(None),
    }
}

#[test]
fn refused_memory(rt: HostRuntime) -> Result<(), Fail> {
    let mut refused = false;
    let mut sufficed = false;
    for size in 0..40usize {
        match written_with(rt.alloc(), 16 * size)? {
            None => refused = true,
            Some(is_right) => {
                assert!(rt; is_right);
                sufficed = true;
            }
        }
    }
    assert!(rt; refused && sufficed);
    Ok(())
}
