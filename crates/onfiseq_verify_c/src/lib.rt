//! onfiseq for C (include/onfiseq.h): the verification of a word file for the chip of a parameter page.
//!
//! It takes memory by `malloc`, `realloc` and `free` of the program that it is linked into, and gives all of it back before it returns.
#![tactic(auto)]

ghost use Rattle.std.specs.Prelude.{◌≡◌};
ghost use Rattle.onfiseq_verify_c.specs.Verify.{Says};
ghost use Rattle.onfiseq_verify_c.specs.Run.{SaysRun};

mod item;
mod run;
mod verdict;

use crate::run::{tell_own, tell_sought};
use crate::verdict::{Finding, answer_of, finding_of, found_of};
pub use item::OnfiseqItem;
pub use run::OnfiseqRun;
use std::alloc::Global;
pub use verdict::OnfiseqVerdict;

/// Verifies the microprogram of a word file for the geometry of a parameter page: whether it is safe there, and else why not. It takes memory for the words
/// of the file, 8 bytes each, and for a table where there are branches or loops, 260 bytes for each word.
#[unsafe(no_mangle)]
pub extern "C" fn onfiseq_verify(alloc: Global, page: &[u8], file: &[u8]) -> OnfiseqVerdict
    ensures { Says page.now file.now result }
{
    answer_of(found_of(alloc, page, file))
}

/// Verifies as `onfiseq_verify` does, and tells a run of a refusal: what happens on a channel of one target whose LUN 0 runs the program from row 0 on, up to the
/// refused word, and the item that isn't permitted then, if the reason is one of a cycle. V7 of a program without branches and loops, for a chip of one LUN,
/// has its run (docs/model/PROOF.md); for another word it is searched for, in so many steps at most: words that come, in all the runs that are tried.
/// It is written in front of `items`, as many as fit; those behind stay. `run` says how many items it has and where and why it ends: all 0 where there is none.
#[unsafe(no_mangle)]
pub extern "C" fn onfiseq_verify_run(
    alloc: Global,
    page: &[u8],
    file: &[u8],
    steps: u64,
    items: &mut [OnfiseqItem],
    run: &mut OnfiseqRun,
) -> OnfiseqVerdict
    ensures says { Says page.now file.now result }
    ensures run { SaysRun page.now file.now items.old items.new run.new result }
{
    let Finding {
        found,
        run: own,
        sought,
    } = finding_of(alloc, page, file, steps);
    *run = match sought {
        None => tell_own(items, found, own),
        Some(sought) => tell_sought(items, &sought),
    };
    answer_of(found)
}
