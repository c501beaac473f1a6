ghost use Rattle.std.specs.Prelude.{◌≡◌, IfOk};
ghost use Rattle.sr_syntax.specs.Statements as spec;

use sqlite_items::Items;
use sr_ast::{Case, Tree};
use sr_shared::Shared;
use sr_syntax::grown::{Cases, Grove, Grown};
use sr_syntax::sorts::Sort;
use sr_syntax::tokens::Tokens;
use std::alloc::{AllocError, Global};

/// No clauses of a `switch`.
pub fn no_cases(alloc: Global) -> Cases
    ensures { result ≡ spec.no_cases }
{
    Cases {
        items: Items::new(alloc),
        tall: 0,
        has_default: false,
    }
}

/// Clauses and one more, whose trees are of this depth.
fn with_clause(
    mut all: Cases,
    test: Option<Shared<Tree>>,
    body: Items<Shared<Tree>>,
    height: usize,
    is_default: bool,
) -> Result<Cases, AllocError>
    ensures { IfOk result (λ r. r ≡ spec.with_clause all test body height is_default) }
{
    all.items.push(Case { test, body })?;
    Ok(Cases {
        items: all.items,
        tall: all.tall.max(height),
        has_default: all.has_default || is_default,
    })
}

/// Clauses and one for a value (14.12).
pub fn with_case(all: Cases, x: Grown, body: Grove) -> Result<Cases, AllocError>
    ensures { IfOk result (λ r. r ≡ spec.with_case all x body) }
{
    let height = x.height.max(body.tall);
    with_clause(all, Some(x.tree), body.trees, height, false)
}

/// Clauses and `default` (14.12).
pub fn with_default(all: Cases, body: Grove) -> Result<Cases, AllocError>
    ensures { IfOk result (λ r. r ≡ spec.with_default all body) }
{
    with_clause(all, None, body.trees, body.tall, true)
}

/// Whether the items of a clause go up to this token (14.12).
pub fn ends_clause(sort: Sort) -> bool
    ensures { result ≡ spec.ends_clause sort }
{
    match sort {
        Sort::Case | Sort::Default | Sort::RightBrace => true,
        _ => false,
    }
}

/// Whether a `return` ends before the next token, so that no expression follows it (14.10, 12.10).
#[tactic(auto, unfolding(sr_syntax::specs::Statements::ends_statement))]
pub fn ends_statement(tokens: &Tokens<'_>) -> bool
    ensures { result ≡ spec.ends_statement tokens.now }
{
    tokens.sees(Sort::Semicolon) || tokens.sees(Sort::RightBrace) || tokens.line_before()
}
