ghost use Rattle.std.specs.Prelude.{◌≡◌, IfOk};
ghost use Rattle.sr_early.specs.Early as spec;

use crate::items::{module, script};
use crate::places::least;
use sqlite_items::Items;
use sr_ast::Tree;
use sr_names::strictness::says_strict;
use sr_shared::Shared;
use sr_text::Goal;
use std::alloc::{AllocError, Global};

/// The places at which the items of a script or a module break a rule.
fn places(alloc: Global, goal: Goal, items: &[Shared<Tree>]) -> Result<Items<usize>, AllocError>
    ensures { IfOk result (λ places. places ≡ spec.places goal items.now) }
{
    let mut places = Items::new(alloc);
    match goal {
        Goal::Script => script(alloc, says_strict(items), &mut places, items)?,
        Goal::Module => module(alloc, &mut places, items)?,
    }
    Ok(places)
}

/// The least place, in code units, at which the items of a script or a module break a rule of the static semantics (ECMA-262
/// 16.1.1, 16.2.1.1); none where they break none.
#[tactic(auto, unfolding(crate::specs::Early::early))]
pub fn early(alloc: Global, goal: Goal, items: &[Shared<Tree>]) -> Result<Option<usize>, AllocError>
    ensures { IfOk result (λ place. place ≡ spec.early goal items.now) }
{
    let places = places(alloc, goal, items)?;
    Ok(least(places.as_slice()))
}
