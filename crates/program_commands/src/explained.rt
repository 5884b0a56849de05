//! A microprogram with what is known before each of its words.

use micro_asm::disassemble;
use micro_claims::Fault;
use micro_known::{InWords, KnownWords, Ways, push_brought};
use micro_walk::examine;
use micro_word::Text;
use nand_geometry::Geometry;
use std::alloc::{AllocError, Allocator};

// How many lines the header has.
const HEADER_LINES: usize = 3;

/// Whether a line of the assembly, counted from 0, is a word: it is none of the header and no label.
pub(crate) fn is_word(line: usize, text: &str) -> bool {
    HEADER_LINES <= line && !text.ends_with(':')
}

/// A microprogram with what is known before each of its words, and its refusal, where it is refused.
#[derive(Drop)]
pub(crate) struct Explained<A: Allocator> {
    pub(crate) text: Text<A>,
    pub(crate) assembly: String<A>,
    pub(crate) known: KnownWords<A>,
    pub(crate) fault: Option<Fault>,
}

impl<A: Allocator + Clone> Explained<A> {
    /// Asks the verifier what it knows of a text on chips of this geometry.
    pub(crate) fn new(
        alloc: A,
        text: Text<A>,
        geometry: Geometry,
    ) -> Result<Explained<A>, AllocError> {
        let fault = examine(&text, &geometry).err();
        let known = KnownWords::find(alloc.clone()?, &text, geometry)?;
        let assembly = disassemble(alloc, &text)?;
        Ok(Explained {
            text,
            assembly,
            known,
            fault,
        })
    }

    /// What is known of each aspect before a word, in words; None where nothing is known.
    pub(crate) fn facts(
        &self,
        alloc: A,
        word: usize,
    ) -> Result<Option<Vec<String<A>, A>>, AllocError> {
        let Some(state) = self.known.before(word) else {
            return Ok(None);
        };
        let mut facts = Vec::new(alloc.clone()?);
        for aspect in self.known.aspects().iter() {
            let aspect = *aspect;
            facts.push(format!(in alloc.clone()?; "{}", InWords { aspect, state })?)?;
        }
        Ok(Some(facts))
    }

    /// What the ways that meet at a word bring, and what of it is forgotten there; None where none meet.
    pub(crate) fn meeting(&self, alloc: A, word: usize) -> Result<Option<String<A>>, AllocError> {
        let words = self.text.words();
        let ways = Ways::to(alloc.clone()?, words, word)?;
        if !ways.meet() {
            return Ok(None);
        }
        let mut brought = String::new(alloc.clone()?);
        if !push_brought(&mut brought, alloc, &self.known, words, &ways)? {
            brought.push_str("nothing is forgotten")?;
        }
        Ok(Some(brought))
    }

    /// The reason against this word, where it is refused.
    pub(crate) fn refusal_at(&self, word: usize) -> Option<Fault> {
        self.fault.filter(|fault| fault.word == word)
    }
}
