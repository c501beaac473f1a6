ghost use Rattle.sr_syntax.specs.Input.{Reads};
ghost use Rattle.sr_syntax.specs.Grammar as spec;

use sr_parse_expr::grammar::Grammar;
use sr_parse_stmt::statements::Statements;
use sr_syntax::grown::{Goal, Grown};
use sr_syntax::refusal::Refusal;
use sr_syntax::tokens::Tokens;
use std::alloc::Global;

/// A rule of the goals, where so many more of them may be open.
pub fn tree(
    alloc: Global,
    tokens: &mut Tokens<'_>,
    depth: usize,
    goal: Goal,
) -> Result<Grown, Refusal>
    ensures { Reads (spec.tree depth goal tokens.old) result tokens.new }
{
    if depth == 0 {
        return Err(Refusal::TooDeep);
    }
    let grammar = Grammar {
        alloc,
        depth: depth - 1,
        tree,
    };
    Statements { grammar }.goal(tokens, goal)
}
