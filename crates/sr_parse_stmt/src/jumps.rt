ghost use Rattle.sr_syntax.specs.Input.{Reads};
ghost use Rattle.sr_syntax.specs.Statements as spec;
ghost use Rattle.sr_syntax.specs.Grammar as grammar;
ghost use Rattle.sr_syntax.specs.Nests.{Nests};

use crate::clauses::ends_statement;
use crate::statements::Statements;
use sr_ast::Node;
use sr_syntax::grown::{Goal, Grown};
use sr_syntax::refusal::Refusal;
use sr_syntax::sorts::Sort;
use sr_syntax::tokens::Tokens;
use sr_text::Str;
use std::alloc::Global;

impl<F: Fn(Global, &mut Tokens<'_>, usize, Goal) -> Result<Grown, Refusal>> Statements<F> {
    /// The label of a `continue` or a `break`, where one stands on its line (ECMA-262 14.8, 14.9).
    #[tactic(auto, unfolding(sr_syntax::specs::Statements::label_if_there))]
    fn label_if_there(&self, tokens: &mut Tokens<'_>) -> Result<Option<Str>, Refusal>
        ensures { Reads (spec.label_if_there tokens.old) result tokens.new }
    {
        if !tokens.sees(Sort::Identifier) || tokens.line_before() {
            return Ok(None);
        }
        Ok(Some(tokens.take_text(self.grammar.alloc)?))
    }

    /// A `continue`, behind that token (14.8).
    #[tactic(auto, unfolding(sr_syntax::specs::Statements::continue_))]
    pub(crate) fn continue_(&self, tokens: &mut Tokens<'_>, from: usize) -> Result<Grown, Refusal>
        ensures { Reads (spec.continue_ from tokens.old) result tokens.new }
    {
        let label = self.label_if_there(tokens)?;
        tokens.semicolon()?;
        self.grammar
            .complete(tokens, Node::Continue(label), from, 0)
    }

    /// A `break`, behind that token (14.9).
    #[tactic(auto, unfolding(sr_syntax::specs::Statements::break_))]
    pub(crate) fn break_(&self, tokens: &mut Tokens<'_>, from: usize) -> Result<Grown, Refusal>
        ensures { Reads (spec.break_ from tokens.old) result tokens.new }
    {
        let label = self.label_if_there(tokens)?;
        tokens.semicolon()?;
        self.grammar.complete(tokens, Node::Break(label), from, 0)
    }

    /// A `return`, behind that token; its expression begins on its line (14.10).
    #[tactic(auto, unfolding(sr_syntax::specs::Statements::return_))]
    pub(crate) fn return_(&self, tokens: &mut Tokens<'_>, from: usize) -> Result<Grown, Refusal>
        requires { Nests self.now.grammar.depth (F.pre self.now.grammar.tree) (F.post self.now.grammar.tree) }
        ensures { Reads (spec.return_ (grammar.tree self.now.grammar.depth) from tokens.old) result tokens.new }
    {
        if ends_statement(tokens) {
            tokens.semicolon()?;
            return self.grammar.complete(tokens, Node::Return(None), from, 0);
        }
        let x = self.grammar.expression(tokens, true)?;
        tokens.semicolon()?;
        self.grammar
            .complete(tokens, Node::Return(Some(x.tree)), from, x.height)
    }

    /// A `throw`, behind that token; its expression begins on its line (14.14).
    #[tactic(auto, unfolding(sr_syntax::specs::Statements::throw_))]
    pub(crate) fn throw_(&self, tokens: &mut Tokens<'_>, from: usize) -> Result<Grown, Refusal>
        requires { Nests self.now.grammar.depth (F.pre self.now.grammar.tree) (F.post self.now.grammar.tree) }
        ensures { Reads (spec.throw_ (grammar.tree self.now.grammar.depth) from tokens.old) result tokens.new }
    {
        if tokens.line_before() {
            return Err(tokens.refuse());
        }
        let x = self.grammar.expression(tokens, true)?;
        tokens.semicolon()?;
        self.grammar
            .complete(tokens, Node::Throw(x.tree), from, x.height)
    }

    /// A `debugger`, behind that token (14.16).
    #[tactic(auto, unfolding(sr_syntax::specs::Statements::debugger_))]
    pub(crate) fn debugger_(&self, tokens: &mut Tokens<'_>, from: usize) -> Result<Grown, Refusal>
        ensures { Reads (spec.debugger_ from tokens.old) result tokens.new }
    {
        tokens.semicolon()?;
        self.grammar.complete(tokens, Node::Debugger, from, 0)
    }
}
