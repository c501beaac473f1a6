//! The cases of trees: it runs the tables of its folder, and shows what differs.
#![tactic(auto)]

/// What is read of a text.
mod answers;
/// Expressions in short.
mod expressions;
/// Functions in short.
mod functions;
/// Imports and exports in short.
mod modules;
/// Statements in short.
mod statements;
/// Trees in short.
mod trees;
/// Words for what stands in trees and is no tree.
mod words;

use answers::{
    expression_place, item_places, module_depth, module_trees, script_depth, script_trees,
};
use anyhow::Result;
use source_tables::{Question, run_tables};
use sr_text::Str;
use std::alloc::Global;

/// What is told of a text.
enum Told {
    /// Its trees as a script.
    Script,
    /// Its trees as a module.
    Module,
    /// Whether it is too deep as a script.
    ScriptDepth,
    /// Whether it is too deep as a module.
    ModuleDepth,
    /// The places of its first item, and of the first part of this.
    ItemPlaces,
    /// The place of the expression from its third token on.
    ExpressionPlace,
}

impl Question for Told {
    fn answer(&self, alloc: Global, text: &Str) -> Result<String> {
        match self {
            Told::Script => Ok(script_trees(alloc, text)?),
            Told::Module => Ok(module_trees(alloc, text)?),
            Told::ScriptDepth => Ok(script_depth(alloc, text)?),
            Told::ModuleDepth => Ok(module_depth(alloc, text)?),
            Told::ItemPlaces => item_places(alloc, text),
            Told::ExpressionPlace => expression_place(alloc, text),
        }
    }
}

/// The tables of expressions.
const EXPRESSIONS: [&str; 10] = [
    "operators",
    "targets",
    "tokens",
    "properties",
    "elements",
    "heads",
    "templates",
    "functions",
    "objects",
    "semicolons",
];

/// The tables of statements.
const STATEMENTS: [&str; 7] = [
    "statements",
    "declarations",
    "restricted",
    "fors",
    "switches",
    "tries",
    "labels",
];

fn main(rt: HostRuntime) -> Result<()> {
    run_tables(&rt, &Told::Script, &EXPRESSIONS)?;
    run_tables(&rt, &Told::Script, &STATEMENTS)?;
    run_tables(&rt, &Told::Module, &["imports", "exports", "modules"])?;
    run_tables(&rt, &Told::ScriptDepth, &["script_depths"])?;
    run_tables(&rt, &Told::ModuleDepth, &["module_depths"])?;
    run_tables(&rt, &Told::ItemPlaces, &["item_places"])?;
    run_tables(&rt, &Told::ExpressionPlace, &["expression_places"])
}
