ghost use Rattle.std.specs.Prelude.{◌≡◌, ◌≢◌, IfOk, Err};
ghost use Rattle.sr_unit.specs.declared.refusal.Refusal.TheVariants.{Memory};
ghost use Rattle.sr_text.specs.declared.goal.Goal.TheVariants as goal;
ghost use Rattle.sr_unit.specs.Units as spec;
ghost use Rattle.sr_unit.specs.Units.{IsUnit};

use crate::items::read_tokens;
use crate::numbers::trees;
use crate::refusal::Refusal;
use crate::unit::Unit;
use sr_ast::Tree;
use sr_lex::lex_to_failure;
use sr_names::strictness::says_strict;
use sr_shared::Shared;
use sr_text::{Goal, Str};
use std::alloc::{AllocError, Global};

/// Whether the items are strict mode code (11.2.2).
fn is_strict(goal: Goal, items: &[Shared<Tree>]) -> bool
    ensures { result ≡ spec.is_strict goal items.now }
{
    match goal {
        Goal::Script => says_strict(items),
        Goal::Module => true,
    }
}

/// The unit of these items.
fn unit_of(alloc: Global, goal: Goal, items: &[Shared<Tree>]) -> Result<Unit, AllocError>
    ensures { IfOk result (λ unit. unit ≡ spec.unit_of goal items.now) }
{
    let mut next = 0;
    Ok(Unit {
        goal,
        strict: is_strict(goal, items),
        items: trees(alloc, &mut next, items)?,
    })
}

/// The unit that the text is as a script or a module.
#[tactic(auto, using(crate::proofs::Outcomes::read, crate::proofs::Outcomes::refused))]
fn parse(alloc: Global, goal: Goal, text: &Str) -> Result<Unit, Refusal>
    ensures { result ≢ Err Memory → IsUnit goal text.now result }
{
    let lexed = lex_to_failure(alloc, text)?;
    let items = read_tokens(alloc, goal, text, &lexed)?;
    Ok(unit_of(alloc, goal, items.as_slice())?)
}

/// The script that the text is (16.1). `Refused` comes exactly where it is none, with the reason.
pub fn parse_script(alloc: Global, text: &Str) -> Result<Unit, Refusal>
    ensures { result ≢ Err Memory → IsUnit goal.Script text.now result }
{
    parse(alloc, Goal::Script, text)
}

/// The module that the text is (16.2). `Refused` comes exactly where it is none, with the reason.
pub fn parse_module(alloc: Global, text: &Str) -> Result<Unit, Refusal>
    ensures { result ≢ Err Memory → IsUnit goal.Module text.now result }
{
    parse(alloc, Goal::Module, text)
}
