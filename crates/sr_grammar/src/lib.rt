//! The grammar as a relation between tokens and trees, and what holds between it and the parser.
//!
//! The relation and the laws stand in `specs/`. Each function here is a law: it does nothing, and its contract is proved.
#![tactic(auto)]

ghost use Rattle.sr_grammar.specs.Derivations.{IsItem, States};
ghost use Rattle.sr_grammar.specs.Modules.{IsModuleItem};
ghost use Rattle.sr_grammar.specs.Laws.{a_module_item, a_nested_statement, a_statement, an_item, Complete, CompleteAs, CompleteModule, CompleteScript, FirstFault, FirstFaultAs, Longest, MoreOpen, MoreOpenAs, OpensTooMany, Sound, SoundAs, SoundModule, SoundScript, TooTall, TooTallAs, Unique, UniqueAs};

/// What is read as an expression is one, and is no deeper than is read.
pub fn what_is_read_derives()
    ensures { Sound }
{}

/// An expression that is no deeper than is read is read, with its tree, before what does not continue it.
pub fn what_derives_is_read()
    ensures { Complete }
{}

/// An expression that is deeper is too deep.
pub fn what_is_deeper_is_too_deep()
    ensures { TooTall }
{}

/// Tokens have one tree at the most, if one that is no deeper than is read.
pub fn tokens_have_one_tree()
    ensures { Unique }
{}

/// The place of a failure is the first token that cannot continue an expression.
pub fn the_first_fault_is_found()
    ensures { FirstFault }
{}

/// Where more rules may be open at once, only what was too deep can have another answer.
pub fn more_open_changes_only_what_was_too_deep()
    ensures { MoreOpen }
{}

/// Tokens that are no expression with so many rules open, and are one with more, are too deep.
pub fn what_opens_too_many_is_too_deep()
    ensures { OpensTooMany }
{}

/// What is read goes as far as an expression can.
pub fn as_much_as_can_be_is_read()
    ensures { Longest }
{}

/// What is read as a statement, an item or an item of a module is one before what follows, and is no deeper than is read.
pub fn what_is_read_is_one()
    ensures statements { SoundAs a_statement States }
    ensures items { SoundAs an_item IsItem }
    ensures module_items { SoundAs a_module_item IsModuleItem }
{}

/// A statement, an item or an item of a module that is no deeper than is read is read, with its tree.
pub fn what_is_one_is_read()
    ensures statements { CompleteAs a_statement States }
    ensures items { CompleteAs an_item IsItem }
    ensures module_items { CompleteAs a_module_item IsModuleItem }
{}

/// One that is deeper is too deep.
pub fn one_that_is_deeper_is_too_deep()
    ensures statements { TooTallAs a_statement States }
    ensures items { TooTallAs an_item IsItem }
    ensures module_items { TooTallAs a_module_item IsModuleItem }
{}

/// Tokens are one at the most before what follows, if one that is no deeper than is read.
pub fn tokens_are_one_at_most()
    ensures statements { UniqueAs States }
    ensures items { UniqueAs IsItem }
    ensures module_items { UniqueAs IsModuleItem }
{}

/// Where more rules may be open at once, only what was too deep can have another answer.
pub fn more_open_changes_only_ones_that_were_too_deep()
    ensures statements { MoreOpenAs a_nested_statement }
    ensures items { MoreOpenAs an_item }
    ensures module_items { MoreOpenAs a_module_item }
{}

/// The place of a failure is the first token that cannot continue a statement, an item or an item of a module.
pub fn the_first_fault_of_one_is_found()
    ensures statements { FirstFaultAs a_statement States }
    ensures items { FirstFaultAs an_item IsItem }
    ensures module_items { FirstFaultAs a_module_item IsModuleItem }
{}

/// What is read as a script or a module is one.
pub fn what_is_read_is_a_text()
    ensures scripts { SoundScript }
    ensures modules { SoundModule }
{}

/// A script or a module is read, with its trees.
pub fn what_is_a_text_is_read()
    ensures scripts { CompleteScript }
    ensures modules { CompleteModule }
{}
