ghost use Rattle.sr_syntax.specs.Input.{Reads};
ghost use Rattle.sr_syntax.specs.Statements as spec;
ghost use Rattle.sr_syntax.specs.Grammar as grammar;
ghost use Rattle.sr_syntax.specs.Nests.{Nests};

use crate::statements::Statements;
use sr_ast::Node;
use sr_syntax::grown::{Goal, Grown, tallest};
use sr_syntax::refusal::Refusal;
use sr_syntax::sorts::Sort;
use sr_syntax::tokens::Tokens;
use std::alloc::Global;

impl<F: Fn(Global, &mut Tokens<'_>, usize, Goal) -> Result<Grown, Refusal>> Statements<F> {
    /// The condition of a statement, in parentheses.
    #[tactic(auto, unfolding(sr_syntax::specs::Statements::condition))]
    pub(crate) fn condition(&self, tokens: &mut Tokens<'_>) -> Result<Grown, Refusal>
        requires { Nests self.now.grammar.depth (F.pre self.now.grammar.tree) (F.post self.now.grammar.tree) }
        ensures { Reads (spec.condition (grammar.tree self.now.grammar.depth) tokens.old) result tokens.new }
    {
        tokens.expect(Sort::LeftParenthesis)?;
        let x = self.grammar.expression(tokens, true)?;
        tokens.expect(Sort::RightParenthesis)?;
        Ok(x)
    }

    /// The second statement of an `if`.
    #[tactic(auto, unfolding(sr_syntax::specs::Statements::if_else))]
    fn if_else(
        &self,
        tokens: &mut Tokens<'_>,
        from: usize,
        x: Grown,
        one: Grown,
    ) -> Result<Grown, Refusal>
        requires { Nests self.now.grammar.depth (F.pre self.now.grammar.tree) (F.post self.now.grammar.tree) }
        ensures { Reads (spec.if_else (grammar.tree self.now.grammar.depth) from x one tokens.old) result tokens.new }
    {
        let other = self.grammar.nest(tokens, Goal::Statement)?;
        let tall = tallest(x.height, one.height, other.height);
        self.grammar.complete(
            tokens,
            Node::If(x.tree, one.tree, Some(other.tree)),
            from,
            tall,
        )
    }

    /// An `if`, behind that token (ECMA-262 14.6).
    #[tactic(auto, unfolding(sr_syntax::specs::Statements::if_))]
    pub(crate) fn if_(&self, tokens: &mut Tokens<'_>, from: usize) -> Result<Grown, Refusal>
        requires { Nests self.now.grammar.depth (F.pre self.now.grammar.tree) (F.post self.now.grammar.tree) }
        ensures { Reads (spec.if_ (grammar.tree self.now.grammar.depth) from tokens.old) result tokens.new }
    {
        let x = self.condition(tokens)?;
        let one = self.grammar.nest(tokens, Goal::Statement)?;
        if tokens.eat(Sort::Else) {
            return self.if_else(tokens, from, x, one);
        }
        let tall = x.height.max(one.height);
        self.grammar
            .complete(tokens, Node::If(x.tree, one.tree, None), from, tall)
    }

    /// The condition of a `do`, and its semicolon, which may always be left out (14.7.2, 12.10).
    #[tactic(auto, unfolding(sr_syntax::specs::Statements::do_while))]
    fn do_while(&self, tokens: &mut Tokens<'_>, from: usize, body: Grown) -> Result<Grown, Refusal>
        requires { Nests self.now.grammar.depth (F.pre self.now.grammar.tree) (F.post self.now.grammar.tree) }
        ensures { Reads (spec.do_while (grammar.tree self.now.grammar.depth) from body tokens.old) result tokens.new }
    {
        let x = self.condition(tokens)?;
        tokens.eat(Sort::Semicolon);
        let tall = body.height.max(x.height);
        self.grammar
            .complete(tokens, Node::Do(body.tree, x.tree), from, tall)
    }

    /// A `do`, behind that token (14.7.2).
    #[tactic(auto, unfolding(sr_syntax::specs::Statements::do_))]
    pub(crate) fn do_(&self, tokens: &mut Tokens<'_>, from: usize) -> Result<Grown, Refusal>
        requires { Nests self.now.grammar.depth (F.pre self.now.grammar.tree) (F.post self.now.grammar.tree) }
        ensures { Reads (spec.do_ (grammar.tree self.now.grammar.depth) from tokens.old) result tokens.new }
    {
        let body = self.grammar.nest(tokens, Goal::Statement)?;
        tokens.expect(Sort::While)?;
        self.do_while(tokens, from, body)
    }

    /// A `while`, behind that token (14.7.3).
    #[tactic(auto, unfolding(sr_syntax::specs::Statements::while_))]
    pub(crate) fn while_(&self, tokens: &mut Tokens<'_>, from: usize) -> Result<Grown, Refusal>
        requires { Nests self.now.grammar.depth (F.pre self.now.grammar.tree) (F.post self.now.grammar.tree) }
        ensures { Reads (spec.while_ (grammar.tree self.now.grammar.depth) from tokens.old) result tokens.new }
    {
        let x = self.condition(tokens)?;
        let body = self.grammar.nest(tokens, Goal::Statement)?;
        let tall = x.height.max(body.height);
        self.grammar
            .complete(tokens, Node::While(x.tree, body.tree), from, tall)
    }
}
