use micro_asm::{AsmMessage, assemble};
use std::alloc::Global;
use std::process::Abort;
use std::test::Fail;

// What is refused, and what is said of it.
type Table<'a> = &'a [(&'static str, &'static str)];

// Texts that the commands tell by another sentence; `tools/cases` has the others.
const TEXTS: Table<'static> = &[
    (
        "NMP2\u{7}\u{0}\u{1}",
        "this is a word file: `onfiseq dis` makes its text (A1)",
    ),
    (
        "NMP1\n",
        "this is a word file: `onfiseq dis` makes its text (A1)",
    ),
];

// What is said of a text that is refused.
fn told(alloc: Global, text: &str) -> Result<String, Fail> {
    let refusal = assemble(alloc, text).err().ok_or("the text is assembled")?;
    Ok(format!(in alloc; "{}", AsmMessage::new(refusal, text))?)
}

#[test]
fn texts_that_are_refused(rt: HostRuntime) -> Result<(), Fail> {
    for (text, message) in TEXTS {
        assert_eq!(rt; told(rt.alloc(), text)?.as_str(), *message);
    }
    Ok(())
}
