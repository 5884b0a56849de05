//! The search for a run of a refusal. Nothing is promised of which run it tries: what a [`Course`] does is a run.
ghost use Rattle.std.specs.Prelude.{◌≡◌, IfOk, IfSome, reverse};
ghost use Rattle.micro_claims.specs.State.{bounds_of};
ghost use Rattle.refused_run.specs.Course.{IsBroken, task_of};

use crate::bench::Bench;
use crate::choice::{Act, Choice};
use crate::course::{Course, End};
use crate::options::{MOST_OPTIONS, Masks, Options, add_others, masks_of, options_at};
use crate::plan::{Plan, Turn};
use crate::stand::Stand;
use crate::ways::{find_leading, is_notable, leads_astray};
use micro_claims::{Bounds, Fault, Reason};
use micro_program::continues_cache_read;
use micro_word::{Text, Word};
use nand_geometry::Geometry;
use onfi_cycle::{Failures, Item};
use std::alloc::{AllocError, Allocator};

/// A run of a refused text.
#[derive(Drop)]
pub struct Run<A: Allocator> {
    /// What happens, in the order of time: a legal trace.
    pub items: Vec<Item, A>,
    /// The word at which it ends, and why.
    pub end: End,
    /// What dies do in it that they mostly don't do.
    pub choices: Vec<Choice, A>,
}

/// What a search has found, and after how many steps: words that came, in all the runs that it tried.
#[derive(Drop)]
pub struct Found<A: Allocator> {
    pub run: Option<Run<A>>,
    pub steps: u64,
}

// The most plans that are kept.
const MOST_PLANS: usize = 50_000;

// The most cycles that a run may have.
const MOST_CYCLES: u64 = 1 << 19;

// How many cycles may come for each step that a search may take, in all the runs that it tries.
const CYCLES_A_STEP: u64 = 32;

// The reasons that need no cycle, by number.
const REASONS: [Reason; 8] = [
    Reason::AddressUnaligned,
    Reason::HandoverInSequence,
    Reason::BufferPassed,
    Reason::RowOrPlaneOutside,
    Reason::NoStatus,
    Reason::EndsTooSoon,
    Reason::OverBudget,
    Reason::CommandNotAllowed,
];

// A decision of the last run: how many options there were, and whether each loop around was in its first, second or last turn.
#[derive(Clone, Copy)]
struct Decision {
    options: usize,
    is_notable: bool,
}

// What a search keeps: what it goes by, what the run that it tries has decided, and the plans that are still to be tried.
#[derive(Drop)]
struct Search<A: Allocator> {
    fault: Fault,
    luns: u8,
    masks: Masks,
    leads: Vec<bool, A>,
    decisions: Vec<Decision, A>,
    choices: Vec<Choice, A>,
    has_failed: bool,
    plans: Vec<Plan, A>,
    later: Vec<Plan, A>,
    tried: usize,
    tried_later: usize,
    steps: u64,
    cycles_left: u64,
}

// How many cycles a word has at most.
fn most_cycles_of(word: Word) -> u64 {
    match word {
        Word::Get { len } | Word::Put { len } => u64::from(len),
        Word::Address { .. } | Word::Wait | Word::ReadStatus => 5,
        Word::Command { .. } => 1,
        Word::End { .. }
        | Word::Seek { .. }
        | Word::Column { .. }
        | Word::RowAdd { .. }
        | Word::Row { .. }
        | Word::Plane { .. }
        | Word::Yield
        | Word::BranchOnStatus { .. }
        | Word::Loop { .. }
        | Word::Next
        | Word::Jump { .. } => 0,
    }
}

// Whether the cycles of a word may come in the run that is tried, behind so many: neither it nor the search has too many then. If so, they are counted.
fn admit_cycles<A: Allocator>(search: &mut Search<A>, behind: usize, word: Word) -> bool {
    let count = most_cycles_of(word);
    let is_admitted = count <= search.cycles_left
        && (behind as u64).saturating_add(count) <= MOST_CYCLES;
    if is_admitted {
        search.cycles_left -= count;
    }
    is_admitted
}

// Whether the loops around the next word are in a turn that is tried first.
fn is_first_tried(words: &[Word], stand: &Stand) -> bool {
    let loops = stand.loops;
    for turn in [loops.first, loops.second, loops.third, loops.fourth] {
        if let Some(turn) = turn {
            if !is_notable(words, turn.start, turn.left) {
                return false;
            }
        }
    }
    true
}

// The reason is one that a cycle gives.
fn is_of_cycle(reason: Reason) -> bool {
    matches!(reason, Reason::CycleForbidden | Reason::ColumnTooLarge)
}

// Ends the run at its next word, if a reason that needs no cycle stands against it, that of the refusal before others; whether it ends. Where the refusal
// is for a cycle of this word, the cycles come first.
fn end_here<A: Allocator>(course: &mut Course<A>, fault: Fault) -> bool
    ensures { course.new.task ≡ course.old.task }
{
    if course.stand().at == fault.word {
        if is_of_cycle(fault.reason) {
            return false;
        }
        if course.end_for(fault.reason) {
            return true;
        }
    }
    end_for_any(course)
}

// The same for any reason.
fn end_for_any<A: Allocator>(course: &mut Course<A>) -> bool
    ensures { course.new.task ≡ course.old.task }
{
    for reason in REASONS {
        if course.end_for(reason) {
            return true;
        }
    }
    false
}

// Whether what a die does at a poll leads to the refused word.
fn may_lead<A: Allocator>(search: &Search<A>, words: &[Word], at: usize, act: Act) -> bool {
    match act {
        Act::Other(_) => true,
        Act::Come { status, .. } => !leads_astray(
            words,
            search.leads.as_slice(),
            at.saturating_add(1),
            search.fault.word,
            status,
        ),
    }
}

// Those options at a poll that lead to the refused word, or all where none does.
fn leading_options<A: Allocator>(
    search: &Search<A>,
    words: &[Word],
    at: usize,
    options: Options,
) -> Options {
    let mut leading = Options::new();
    for act in options.iter() {
        if leading.len() < MOST_OPTIONS && may_lead(search, words, at, *act) {
            leading.push(*act);
        }
    }
    if leading.is_empty() { options } else { leading }
}

// What dies may do at a word, and what they mostly do.
#[derive(Drop)]
struct Offer {
    options: Options,
    usual: Act,
}

// What dies may do at the next word.
fn list_options<A: Allocator>(
    search: &Search<A>,
    course: &Course<A>,
    words: &[Word],
    word: Word,
) -> Option<Offer> {
    let look = course.look(0)?;
    let mut options = options_at(word, &search.masks, &look, search.has_failed);
    let usual = options.first().copied()?;
    if matches!(word, Word::Wait | Word::ReadStatus) {
        options = leading_options(search, words, course.stand().at, options);
    }
    if search.luns > 1 {
        let is_free = !course.stand().holds && course.is_closed();
        add_others(&mut options, word, &look, is_free);
    }
    Some(Offer { options, usual })
}

// Does what was chosen; whether the run goes on.
fn act<A: Allocator>(
    search: &mut Search<A>,
    course: &mut Course<A>,
    word: Word,
    act: Act,
) -> Result<bool, AllocError>
    ensures { course.new.task ≡ course.old.task }
{
    match act {
        Act::Other(work) => course.let_other(work),
        Act::Come { ready, status } => {
            if let Some(failed) = ready {
                search.has_failed = failed;
                if !course.become_ready(Failures {
                    last: failed,
                    before: false,
                })? {
                    return Ok(false);
                }
            }
            if let Word::Command { .. } = word {
                search.has_failed = false;
            }
            Ok(course.step(status)? && course.end().is_none())
        }
    }
}

// The option that a plan takes at the next decision; what is decided is noted.
fn decide<A: Allocator>(
    search: &mut Search<A>,
    offer: &Offer,
    plan: &Plan,
    at: usize,
    is_notable: bool,
) -> Result<Option<Act>, AllocError> {
    let decision = search.decisions.len();
    let options = &offer.options;
    let option = if options.len() > 1 {
        search.decisions.push(Decision {
            options: options.len(),
            is_notable,
        })?;
        plan.option_at(decision)
    } else {
        0
    };
    let Some(act) = options.get(option).copied() else {
        return Ok(None);
    };
    if act != offer.usual {
        search.choices.push(Choice { word: at, act })?;
    }
    Ok(Some(act))
}

// One word on; whether the run goes on.
fn advance<A: Allocator>(
    search: &mut Search<A>,
    course: &mut Course<A>,
    words: &[Word],
    plan: &Plan,
) -> Result<bool, AllocError>
    ensures { course.new.task ≡ course.old.task }
{
    let Some(word) = course.next_word() else {
        return Ok(false);
    };
    let stand = course.stand();
    if stand.at >= search.leads.len() || !search.leads[stand.at] || end_here(course, search.fault) {
        return Ok(false);
    }
    search.steps = search.steps.saturating_add(1);
    if !admit_cycles(search, course.items().len(), word) {
        return Ok(false);
    }
    let Some(offer) = list_options(search, course, words, word) else {
        return Ok(false);
    };
    let is_notable = is_first_tried(words, &stand);
    match decide(search, &offer, plan, stand.at, is_notable)? {
        None => Ok(false),
        Some(chosen) => act(search, course, word, chosen),
    }
}

// Tries a plan: the run that it leads to, in so many steps at most.
fn try_plan<A: Allocator>(
    search: &mut Search<A>,
    course: &mut Course<A>,
    words: &[Word],
    plan: &Plan,
    most: u64,
) -> Result<(), AllocError>
    ensures { course.new.task ≡ course.old.task }
{
    course.restart();
    search.decisions.clear();
    search.choices.clear();
    search.has_failed = false;
    for _ in 0..most {
        if !advance(search, course, words, plan)? {
            return Ok(());
        }
    }
    Ok(())
}

// Keeps a plan for later, if there is room.
fn keep<A: Allocator>(
    search: &mut Search<A>,
    plan: Plan,
    is_notable: bool,
) -> Result<(), AllocError> {
    if search.plans.len() + search.later.len() >= MOST_PLANS {
        return Ok(());
    }
    if is_notable {
        search.plans.push(plan)?;
    } else {
        search.later.push(plan)?;
    }
    Ok(())
}

// Keeps the plans that take another option at one decision.
fn keep_options<A: Allocator>(
    search: &mut Search<A>,
    plan: &Plan,
    decision: usize,
    made: Decision,
) -> Result<(), AllocError> {
    for option in 1..made.options {
        if let Some(next) = plan.with(Turn { decision, option }) {
            keep(search, next, made.is_notable)?;
        }
    }
    Ok(())
}

// Keeps the plans that turn from the last run at one decision more.
fn keep_turns<A: Allocator>(search: &mut Search<A>, plan: &Plan) -> Result<(), AllocError> {
    for decision in plan.next_decision()..search.decisions.len() {
        if decision < search.decisions.len() {
            let made = search.decisions[decision];
            keep_options(search, plan, decision, made)?;
        }
    }
    Ok(())
}

// The plan that is tried next.
fn next_plan<A: Allocator>(search: &mut Search<A>) -> Option<Plan> {
    if search.tried < search.plans.len() {
        let plan = search.plans[search.tried];
        search.tried += 1;
        return Some(plan);
    }
    if search.tried_later < search.later.len() {
        let plan = search.later[search.tried_later];
        search.tried_later += 1;
        return Some(plan);
    }
    None
}

// How a run ended, by the refusal that is looked for.
#[derive(Clone, Copy, Debug, PartialEq, Eq)]
enum Match {
    /// It ends where the refusal says, for its reason.
    Same,
    /// It ends elsewhere, or for another reason.
    Other,
    /// It hasn't ended at a fault.
    No,
}

// How the last run ended.
fn match_end<A: Allocator>(course: &Course<A>, fault: Fault) -> Match {
    match course.end() {
        None => Match::No,
        Some(end) if end.word == fault.word && end.reason == fault.reason => Match::Same,
        Some(_) => Match::Other,
    }
}

// Tries plans one after another, in so many steps at most; the plan whose run ends at another fault, if none ends at the one that is looked for.
fn try_all<A: Allocator>(
    search: &mut Search<A>,
    course: &mut Course<A>,
    words: &[Word],
    most: u64,
) -> Result<Option<Plan>, AllocError>
    ensures { course.new.task ≡ course.old.task }
{
    let mut other = None;
    for _ in 0..most {
        let left = most.saturating_sub(search.steps);
        let Some(plan) = next_plan(search) else {
            return Ok(other);
        };
        if left == 0 {
            return Ok(other);
        }
        try_plan(search, course, words, &plan, left)?;
        match match_end(course, search.fault) {
            Match::Same => return Ok(None),
            Match::Other => other = other.or(Some(plan)),
            Match::No => {}
        }
        keep_turns(search, &plan)?;
    }
    Ok(other)
}

// Copies of values.
fn copied<A: Allocator, T: Copy>(alloc: A, values: &[T]) -> Result<Vec<T, A>, AllocError>
    ensures { IfOk result (λ v. v.items ≡ values.now) }
{
    values.iter().copied().collect(alloc)
}

// The run as it has ended, if it has.
fn take_run<A: Allocator + Clone>(
    alloc: A,
    course: &Course<A>,
    choices: Vec<Choice, A>,
) -> Result<Option<Run<A>>, AllocError>
    ensures { IfOk result (λ o. IfSome o (λ run. IsBroken course.now.task (reverse run.items.items) run.end)) }
{
    let Some(end) = course.end() else {
        return Ok(None);
    };
    let items = copied(alloc, course.items())?;
    Ok(Some(Run {
        items,
        end,
        choices,
    }))
}

// A search that begins, of so many steps at most.
fn begin<A: Allocator + Clone>(
    alloc: A,
    words: &[Word],
    geometry: &Geometry,
    fault: Fault,
    most: u64,
) -> Result<Search<A>, AllocError> {
    let mut plans = Vec::new(alloc.clone()?);
    plans.push(Plan::FIRST)?;
    Ok(Search {
        fault,
        luns: geometry.parts().luns,
        masks: masks_of(words),
        leads: find_leading(alloc.clone()?, words, fault.word)?,
        decisions: Vec::new(alloc.clone()?),
        choices: Vec::new(alloc.clone()?),
        has_failed: false,
        plans,
        later: Vec::new(alloc),
        tried: 0,
        tried_later: 0,
        steps: 0,
        cycles_left: CYCLES_A_STEP.saturating_mul(most),
    })
}

// What is read off a text before its first word.
fn bounds_of<A: Allocator>(text: &Text<A>) -> Bounds
    ensures { result ≡ bounds_of text.now }
{
    Bounds {
        rows: u32::from(text.rows()),
        buffer: text.buffer(),
        budget: text.budget(),
        continues_cache_read: continues_cache_read(text.words()),
    }
}

/// Searches for a run of a text that the verifier refuses with this fault: what may happen on a channel of one target of this geometry, whose LUN 0 runs the
/// text from row 0 on, up to the refused word. It tries so many steps at most: words that come, in all the runs that it tries. For each step 32 cycles
/// may come besides, and a run has 524,288 at most: one that needs more isn't tried.
///
/// What it finds is a run: each item is permitted where it stands, each word comes where the text leads, and at its end the reason stands, or the item
/// that breaks the rule comes next. A run that ends at another word, or for another reason, is found where none ends as the refusal says. That
/// none is found promises nothing. Takes memory for the runs that it tries, from the allocator of the text.
pub fn find_run<A: Allocator + Clone>(
    text: &Text<A>,
    geometry: &Geometry,
    fault: Fault,
    most: u64,
) -> Result<Found<A>, AllocError>
    ensures { IfOk result (λ found. IfSome found.run (λ run. IsBroken (task_of geometry.now text.now) (reverse run.items.items) run.end)) }
{
    let alloc = text.allocator();
    let words = text.words();
    let mut search = begin(alloc.clone()?, words, geometry, fault, most)?;
    let bench = Bench::new(alloc.clone()?, *geometry);
    let mut course = Course::begin(copied(alloc.clone()?, words)?, bounds_of(text), bench);
    if let Some(plan) = try_all(&mut search, &mut course, words, most)? {
        search.cycles_left = CYCLES_A_STEP.saturating_mul(most);
        try_plan(&mut search, &mut course, words, &plan, most)?;
    }
    let Search { choices, steps, .. } = search;
    let run = take_run(alloc.clone()?, &course, choices)?;
    Ok(Found { run, steps })
}
