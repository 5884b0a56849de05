//! Laws of the definitions, for the crates above: each is the contract of a function that does nothing.
ghost use Rattle.onfi_cycle.specs.Command.{CommandsHaveBytes};
ghost use Rattle.onfi_cycle.specs.OtherLun.{OthersKeep, TargetsKeep};
ghost use Rattle.onfi_cycle.specs.Table.{TailsFollowTheTable};
ghost use Rattle.onfi_cycle.specs.Naming.{TailsName};
ghost use Rattle.onfi_cycle.specs.Decides.{FactsAreDecided};
ghost use Rattle.onfi_cycle.specs.Steps.{FactsGoOn, ReadiesChange, OutputsShow, OwnCyclesKeep, ServiceBegins};
ghost use Rattle.onfi_cycle.specs.Codes.{RulesAreNumbered};
ghost use Rattle.onfi_cycle.specs.Content.{WorkChangesPages};

/// Each command of the profile has one byte, and each byte of the profile one command.
pub fn commands_have_bytes()
    ensures { CommandsHaveBytes }
{}

/// What one LUN does leaves the others of its target as they are, but for the tail, the latch and a column that
/// may be lost; what one target does leaves the others whole.
pub fn luns_keep_apart()
    ensures others { OthersKeep }
    ensures targets { TargetsKeep }
{}

/// A tail wants a cycle exactly where the tail with it is a beginning of a sequence of the table, and is open
/// exactly where it is a proper beginning of one and not the command 00h alone (docs/model/MODEL.md, "Sequences").
pub fn tails_follow_the_table()
    ensures { TailsFollowTheTable }
{}

/// The row that a tail names is that of its last three row cycles, and its column that of its last two column
/// cycles (docs/model/MODEL.md, "Addresses").
pub fn tails_name_rows_and_columns()
    ensures { TailsName }
{}

/// Each fact of a LUN is what the newest item says that says something of it: busy, last closer, array, register,
/// read column and queue after every past, the latch after every legal one (docs/model/MODEL.md, "What a LUN is").
pub fn facts_are_decided()
    ensures { FactsAreDecided }
{}

/// The facts of a channel go on item by item: a tail by the cycles of its target, a LUN by the effects of permitted
/// items. So a channel can be judged by facts alone, with no item kept.
pub fn facts_go_on()
    ensures { FactsGoOn }
{}

/// A ready ends the work of its LUN, an array ready that of its array, and neither changes anything else.
pub fn readies_change()
    ensures { ReadiesChange }
{}

/// A permitted output whose one driver is a LUN has a byte, and leaves no sequence open.
pub fn outputs_show()
    ensures { OutputsShow }
{}

/// What the permitted cycles of one LUN of a channel keep of the others, and of the tails of other targets.
pub fn own_cycles_keep()
    ensures { OwnCyclesKeep }
{}

/// Work of a whole target that has several LUNs begins by its own commands alone, and those are of none of its LUNs.
pub fn service_begins()
    ensures { ServiceBegins }
{}

/// The work that goes on changes pages exactly where something takes effect at its end, and so does the array; while that does, no page is held.
pub fn work_changes_pages()
    ensures { WorkChangesPages }
{}

/// Each rule is that of its number.
pub fn rules_are_numbered()
    ensures { RulesAreNumbered }
{}
