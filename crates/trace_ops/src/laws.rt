//! What holds of the operations of every trace: the contracts of functions that do nothing.

ghost use Rattle.trace_ops.specs.Laws.{EachItemBelongs, NothingIsLost, FaultsAreTold, NoFaultIsHidden, PiecesAreTails, NoChains};
ghost use Rattle.trace_ops.specs.AtWork.{WorkIsTheModels, WorkBeginsAsTheModels, WorksDontOverlap};
ghost use Rattle.trace_ops.specs.Openings.{OperationsAreOpeners};
ghost use Rattle.trace_ops.specs.Folding.{PartsAreFolded};
ghost use Rattle.trace_ops.specs.LastWork.{QuestionsAreForWork};
ghost use Rattle.trace_ops.specs.Polling.{PollingHosts};

/// Each item of a trace belongs to one operation, which is in the list; the first and the last of them are those that the operation names.
pub fn each_item_belongs()
    ensures { EachItemBelongs }
{}

/// The inputs of all operations are the inputs of the trace, and the outputs the outputs.
pub fn nothing_is_lost()
    ensures { NothingIsLost }
{}

/// What is said of the items of a trace from its start has the faults that [`find_faults`](trace_faults::find_faults) finds.
pub fn faults_are_told()
    ensures { FaultsAreTold }
{}

/// What is no clean item, a fault or taken for granted, stands in an operation that has a line of its own.
pub fn no_fault_is_hidden()
    ensures { NoFaultIsHidden }
{}

/// In a trace that is legal up to a command, an address or an input, the operation of that has had exactly the sequence that its target is in: each operation
/// is one sequence, and has all of it.
pub fn pieces_are_tails()
    ensures { PiecesAreTails }
{}

/// That of which an operation is a part has a line of its own, so nothing is folded away twice.
pub fn no_chains()
    ensures { NoChains }
{}

/// Of a trace of the base profile that is legal so far, with its readies written: on each LUN that works one operation is at work, and no operation is at work
/// elsewhere.
pub fn work_is_the_models()
    ensures { WorkIsTheModels }
{}

/// In such a trace operations begin work at the items at which LUNs do, and at no others: it is the operation of the item that begins it, on that LUN.
pub fn work_begins_as_the_models()
    ensures { WorkBeginsAsTheModels }
{}

/// In such a trace works of one LUN don't overlap: the earlier operation has ended where the later one begins.
pub fn works_dont_overlap()
    ensures { WorksDontOverlap }
{}

/// In such a trace each command that begins a sequence begins an operation, and nothing else does: there is no `cut`, and no ready of its own.
pub fn operations_are_openers()
    ensures { OperationsAreOpeners }
{}

/// In such a trace an operation has no line of its own exactly where it is a part of another, and that is a question for the status or a 00h alone: what begins
/// a read, a program, an erase, a reset or anything else has one line.
pub fn parts_are_folded()
    ensures { PartsAreFolded }
{}

/// In such a trace the operation of a 70h is a part of the one that began the last work of its LUN, where no status byte has said that this is over; where one
/// has, it is a part of none.
pub fn questions_are_for_work()
    ensures { QuestionsAreForWork }
{}

/// In such a trace of a target with one LUN, whose host reads, programs and erases, and polls after each of these: each of them has one line, in order, and what
/// is folded is the questions and the 00h that go back to data.
pub fn polling_hosts()
    ensures { PollingHosts }
{}
