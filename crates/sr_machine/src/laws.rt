//! Which rows pay first, how a run begins, what is left where nothing is under way, and what was written. Each function here is a
//! law: it does nothing, and its contract is proved.

ghost use Rattle.std.specs.Prelude.{List};
ghost use Rattle.sr_ast.specs.declared.reading.SourceCode.{SourceCode};
ghost use Rattle.sr_ast.specs.declared.tree.Tree.{Tree};
ghost use Rattle.sr_model.specs.Values.{Text, Value};
ghost use Rattle.sr_model.specs.Tasks.{Context};
ghost use Rattle.sr_intrin.specs.declared.names.BuiltIn.{BuiltIn};
ghost use Rattle.sr_stmt.specs.Rows.{source as source_row};
ghost use Rattle.sr_call.specs.Rows.{built_in_row};
ghost use Rattle.sr_machine.specs.Language.{tree_row};
ghost use Rattle.sr_machine.specs.Going.{PaysFirst};
ghost use Rattle.sr_machine.specs.Running.{Begins, EndsAtRest, WritesFirst};

/// The row of a tree, of a built-in function and of a source pays before it makes a part, prints a line, ends or becomes
/// another task. Nothing is said of the turns of a loop.
pub fn each_row_pays_first()
    ensures tree { (c : Context) (t : Tree) → PaysFirst (tree_row c t) }
    ensures built_in { (b : BuiltIn) (this : Value) (args : List Value) → PaysFirst (built_in_row b this args) }
    ensures source { (text : Text) (x : SourceCode) → PaysFirst (source_row text x) }
{}

/// A run that was given a text is the state of what the first realm does with that text.
#[tactic(auto, using(crate::proofs::Begins::begins))]
pub fn a_run_begins()
    ensures { Begins }
{}

/// Where nothing is under way, the text has ended as the state says.
pub fn what_is_left_at_rest()
    ensures { EndsAtRest }
{}

/// What was written is the beginning of all that the run writes in the end.
pub fn writes_are_first()
    ensures { WritesFirst }
{}
