ghost use Rattle.std.specs.Prelude.{◌≡◌, ◌≢◌, ◌≤◌, All, Err, length};
ghost use Rattle.sr_lex.specs.Tokens.{IsTokenOf};
ghost use Rattle.sr_syntax.specs.declared.refusal.Refusal.TheVariants.{Memory};
ghost use Rattle.sr_syntax.specs.Input.{Reads, start};
ghost use Rattle.sr_syntax.specs.Grammar as spec;
ghost use Rattle.sr_parse.specs.Readings.{ReadsAs, ReadsStatements, IsScript, ReadsModule, IsModule};

use crate::grammar::tree;
use sqlite_items::Items;
use sr_ast::Tree;
use sr_lex::{Token, lex};
use sr_parse_expr::grammar::Grammar;
use sr_parse_stmt::statements::Statements;
use sr_shared::Shared;
use sr_syntax::grown::Grown;
use sr_syntax::lexemes::lexemes;
use sr_syntax::refusal::Refusal;
use sr_syntax::sorts::{Sort, same_sort};
use sr_syntax::tokens::Tokens;
use sr_text::Str;
use std::alloc::Global;

/// How many rules may be open.
const MAX_OPEN: usize = 1000;

/// An expression.
#[tactic(auto, unfolding(sr_syntax::specs::Grammar::whole_expression))]
fn expression(alloc: Global, tokens: &mut Tokens<'_>) -> Result<Grown, Refusal>
    ensures { Reads (spec.whole_expression tokens.old) result tokens.new }
{
    Grammar {
        alloc,
        depth: MAX_OPEN,
        tree,
    }
    .expression(tokens, true)
}

/// An item of a script.
#[tactic(auto, unfolding(sr_syntax::specs::Grammar::whole_item))]
fn item(alloc: Global, tokens: &mut Tokens<'_>) -> Result<Grown, Refusal>
    ensures { Reads (spec.whole_item tokens.old) result tokens.new }
{
    let grammar = Grammar {
        alloc,
        depth: MAX_OPEN,
        tree,
    };
    Statements { grammar }.item(tokens)
}

/// An item of a module.
#[tactic(auto, unfolding(sr_syntax::specs::Grammar::whole_module_item))]
fn module_item(alloc: Global, tokens: &mut Tokens<'_>) -> Result<Grown, Refusal>
    ensures { Reads (spec.whole_module_item tokens.old) result tokens.new }
{
    let grammar = Grammar {
        alloc,
        depth: MAX_OPEN,
        tree,
    };
    Statements { grammar }.module_item(tokens)
}

/// Items to the end of the text (ECMA-262 16.1).
#[tactic(auto, unfolding(sr_syntax::specs::Grammar::script, sr_syntax::specs::Grammar::script_from))]
pub fn script(alloc: Global, tokens: &mut Tokens<'_>) -> Result<Items<Shared<Tree>>, Refusal>
    ensures { Reads (spec.script tokens.old) result tokens.new }
{
    let mut found = Items::new(alloc);
    for _turn in 0..tokens.turns() {
        if same_sort(tokens.peek(), Sort::End) {
            return Ok(found);
        }
        found.push(item(alloc, tokens)?.tree)?;
    }
    Err(tokens.refuse())
}

/// Items, imports and exports to the end of the text (16.2).
#[tactic(auto, unfolding(sr_syntax::specs::Grammar::module_items, sr_syntax::specs::Grammar::module_from))]
pub fn module_items(alloc: Global, tokens: &mut Tokens<'_>) -> Result<Items<Shared<Tree>>, Refusal>
    ensures { Reads (spec.module_items tokens.old) result tokens.new }
{
    let mut found = Items::new(alloc);
    for _turn in 0..tokens.turns() {
        if same_sort(tokens.peek(), Sort::End) {
            return Ok(found);
        }
        found.push(module_item(alloc, tokens)?.tree)?;
    }
    Err(tokens.refuse())
}

/// The expression that the tokens of the text are from one of them on, as far as it goes, and the number of the first token
/// after it (13.16). `Syntax` names the start of the first token that cannot continue, and `TooDeep` comes where more than
/// 1,000 rules would be open at once or a tree would be deeper than 1,000.
pub fn parse_expr(
    alloc: Global,
    text: &Str,
    tokens: &[Token],
    from: usize,
) -> Result<(Shared<Tree>, usize), Refusal>
    requires tokens { All (IsTokenOf text.now) tokens.now }
    requires within { from ≤ length tokens.now }
    ensures { result ≢ Err Memory → ReadsAs spec.whole_expression text.now tokens.now from result }
{
    let lexemes = lexemes(alloc, text, &tokens[from..])?;
    let mut cursor = Tokens::new(&lexemes, text.units().len());
    let read = expression(alloc, &mut cursor)?;
    Ok((read.tree, tokens.len().saturating_sub(cursor.left())))
}

/// The statement or declaration that the tokens of the text are from one of them on, and the number of the first token after it (14). It
/// refuses as `parse_expr` does.
pub fn parse_item(
    alloc: Global,
    text: &Str,
    tokens: &[Token],
    from: usize,
) -> Result<(Shared<Tree>, usize), Refusal>
    requires tokens { All (IsTokenOf text.now) tokens.now }
    requires within { from ≤ length tokens.now }
    ensures { result ≢ Err Memory → ReadsAs spec.whole_item text.now tokens.now from result }
{
    let lexemes = lexemes(alloc, text, &tokens[from..])?;
    let mut cursor = Tokens::new(&lexemes, text.units().len());
    let read = item(alloc, &mut cursor)?;
    Ok((read.tree, tokens.len().saturating_sub(cursor.left())))
}

/// The statements and declarations of the script that the tokens of the text are (16.1). `Syntax` names the start of the first token that cannot continue,
/// and `TooDeep` comes as in `parse_expr`.
pub fn parse_statements(
    alloc: Global,
    text: &Str,
    tokens: &[Token],
) -> Result<Items<Shared<Tree>>, Refusal>
    requires { All (IsTokenOf text.now) tokens.now }
    ensures { result ≢ Err Memory → ReadsStatements text.now tokens.now result }
{
    let lexemes = lexemes(alloc, text, tokens)?;
    script(alloc, &mut Tokens::new(&lexemes, text.units().len()))
}

/// The statements and declarations of the script that the text is (16.1). `Syntax` names the first place at which the text has no token, or else the start
/// of the first token that cannot continue.
pub fn parse_script(alloc: Global, text: &Str) -> Result<Items<Shared<Tree>>, Refusal>
    ensures { result ≢ Err Memory → IsScript text.now result }
{
    let tokens = lex(alloc, text)?;
    parse_statements(alloc, text, &tokens)
}

/// The items of the module that the tokens of the text are (16.2). It refuses as `parse_statements` does.
pub fn parse_module_items(
    alloc: Global,
    text: &Str,
    tokens: &[Token],
) -> Result<Items<Shared<Tree>>, Refusal>
    requires { All (IsTokenOf text.now) tokens.now }
    ensures { result ≢ Err Memory → ReadsModule text.now tokens.now result }
{
    let lexemes = lexemes(alloc, text, tokens)?;
    module_items(alloc, &mut Tokens::new(&lexemes, text.units().len()))
}

/// The items of the module that the text is (16.2). It refuses as `parse_script` does.
pub fn parse_module(alloc: Global, text: &Str) -> Result<Items<Shared<Tree>>, Refusal>
    ensures { result ≢ Err Memory → IsModule text.now result }
{
    let tokens = lex(alloc, text)?;
    parse_module_items(alloc, text, &tokens)
}
