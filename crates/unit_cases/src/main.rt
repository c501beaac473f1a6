//! The cases of scripts and modules: it runs the tables of its folder, and shows what differs.
#![tactic(auto)]

/// What is left out by name in a text.
mod markers;
/// Names that may not stand beside one another.
mod scopes;
/// What a text is as a script that is run.
mod sources;
/// Units, and why a text is none.
mod units;

use anyhow::Result;
use markers::{place, refusal, token};
use scopes::clashes;
use source_tables::{Question, run_tables};
use sources::{counts, source};
use sr_text::{Goal, Str};
use std::alloc::Global;
use units::{numbers, parts, unit};

/// What is told of a text.
enum Told {
    /// The first marker of its tokens.
    TokenMarker,
    /// Where it breaks off, and the marker there.
    PlaceMarker(Goal),
    /// Its refusal by both markers.
    Refusal,
    /// The numbers and the places of its trees.
    Numbers(Goal),
    /// Whether it is a script or a module, or why not.
    Unit(Goal),
    /// The lengths at which a first part of it is a script.
    Parts,
    /// Where its letters clash as names of a scope.
    Clashes,
    /// What it is as a script that is run.
    Source,
    /// How many code units and statements it has as such a script.
    Counts,
}

impl Question for Told {
    fn answer(&self, alloc: Global, text: &Str) -> Result<String> {
        match self {
            Told::TokenMarker => token(alloc, text),
            Told::PlaceMarker(goal) => place(alloc, *goal, text),
            Told::Refusal => refusal(alloc, text),
            Told::Numbers(goal) => Ok(numbers(alloc, *goal, text)?),
            Told::Unit(goal) => Ok(unit(alloc, *goal, text)?),
            Told::Parts => parts(alloc, text),
            Told::Clashes => clashes(alloc, text),
            Told::Source => Ok(source(alloc, text)?),
            Told::Counts => Ok(counts(alloc, text)?),
        }
    }
}

fn main(rt: HostRuntime) -> Result<()> {
    run_tables(&rt, &Told::TokenMarker, &["token_markers"])?;
    run_tables(&rt, &Told::PlaceMarker(Goal::Script), &["script_places"])?;
    run_tables(&rt, &Told::PlaceMarker(Goal::Module), &["module_places"])?;
    run_tables(&rt, &Told::Refusal, &["least_markers"])?;
    run_tables(&rt, &Told::Numbers(Goal::Script), &["script_numbers"])?;
    run_tables(&rt, &Told::Numbers(Goal::Module), &["module_numbers"])?;
    run_tables(
        &rt,
        &Told::Unit(Goal::Script),
        &["script_errors", "refusals", "marked_tokens"],
    )?;
    run_tables(&rt, &Told::Unit(Goal::Module), &["module_errors"])?;
    run_tables(&rt, &Told::Parts, &["first_parts"])?;
    run_tables(&rt, &Told::Clashes, &["scopes"])?;
    run_tables(&rt, &Told::Source, &["sources", "broken", "not_built"])?;
    run_tables(&rt, &Told::Counts, &["counts"])
}
