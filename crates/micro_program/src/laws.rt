//! What always holds of microprograms: each function here does nothing, and its contract is a law.

ghost use Rattle.micro_program.specs.Moves.{CostsCountMoves, BufferKeepsLength};
ghost use Rattle.micro_program.specs.Actions.{WalkGivesActs};
ghost use Rattle.micro_program.specs.Laws.{AnsweredStepsGoWell, FineStepsGoWell, ModelsAreTruthful, OwnCyclesPassOthers};

/// The cost of a word of a text, but `wait`, is the number of its cycles.
pub fn costs_count_moves()
    ensures { CostsCountMoves }
{}

/// The buffer of a job keeps its length.
pub fn buffer_keeps_length()
    ensures { BufferKeepsLength }
{}

/// Whatever answers are still to come: the actions of a job are those that it has done at a seat, and then those of the
/// lines to come. So stepping word by word does the actions one by one.
pub fn walk_gives_acts()
    ensures { WalkGivesActs }
{}

/// A step of a fine word adds to the trace what is its LUN's own, whatever bytes its outputs give, and keeps the program inside its
/// buffer and budget. Where it ends the program its LUN is idle, and where it lets the bus go nothing is open.
pub fn answered_steps_go_well()
    ensures { AnsweredStepsGoWell }
{}

/// The same of a step on a model, where each output has a byte.
pub fn fine_steps_go_well()
    ensures { FineStepsGoWell }
{}

/// What a model gives in a step of a fine word is truthful: so whatever holds of all truthful bytes holds on models.
pub fn models_are_truthful()
    ensures { ModelsAreTruthful }
{}

/// What a step adds to a legal trace leaves it legal, and passes the others by: a job on another LUN stays at a seat that it
/// reaches, an idle LUN stays idle, and other targets stay open or not as they were.
pub fn own_cycles_pass_others()
    ensures { OwnCyclesPassOthers }
{}

ghost use Rattle.micro_program.specs.Lines.{LinesAreWords};

/// The lines of a text without loops and branches are its words, each at its place.
pub fn lines_are_words()
    ensures { LinesAreWords }
{}

ghost use Rattle.micro_program.specs.Laws.{UnreadyIsBusy};

/// Where a `wait` comes again, its LUN is busy: so a ready of it may come, and the `wait` doesn't come again for ever.
pub fn unready_is_busy()
    ensures { UnreadyIsBusy }
{}

ghost use Rattle.micro_program.specs.Places.{LinesAreFew};

/// A text with its loops written out has few lines: each word comes at most 4,096 times in each of four loops.
pub fn lines_are_few()
    ensures { LinesAreFew }
{}

ghost use Rattle.micro_program.specs.Unsafe.{SomeAreUnsafe};

/// Programs that aren't safe: no word, a `get` past the buffer, a byte that is no command, a `yield` in a sequence, a budget
/// one short, an `end` while the LUN is busy.
pub fn some_are_unsafe()
    ensures { SomeAreUnsafe }
{}

ghost use Rattle.micro_program.specs.Unsafe.{TruthIsNeeded};

/// Truth is needed: an erase that waits, which is safe, comes to an `end` that isn't fine where its `wait` is told ready while its LUN
/// is busy.
pub fn truth_is_needed()
    ensures { TruthIsNeeded }
{}
