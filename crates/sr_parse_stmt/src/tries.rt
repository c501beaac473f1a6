ghost use Rattle.sr_syntax.specs.Input.{Reads};
ghost use Rattle.sr_syntax.specs.Statements as spec;
ghost use Rattle.sr_syntax.specs.Grammar as grammar;
ghost use Rattle.sr_syntax.specs.Nests.{Nests};

use crate::statements::Statements;
use sr_ast::{Binding, Node};
use sr_syntax::grown::{Goal, Grown, Part, nothing, part_of, tallest};
use sr_syntax::names::one_parameter;
use sr_syntax::refusal::Refusal;
use sr_syntax::sorts::Sort;
use sr_syntax::tokens::Tokens;
use std::alloc::Global;

impl<F: Fn(Global, &mut Tokens<'_>, usize, Goal) -> Result<Grown, Refusal>> Statements<F> {
    /// A block of a `try` (ECMA-262 14.15).
    #[tactic(auto, unfolding(sr_syntax::specs::Statements::inner_block))]
    fn inner_block(&self, tokens: &mut Tokens<'_>) -> Result<Grown, Refusal>
        requires { Nests self.now.grammar.depth (F.pre self.now.grammar.tree) (F.post self.now.grammar.tree) }
        ensures { Reads (spec.inner_block (grammar.tree self.now.grammar.depth) tokens.old) result tokens.new }
    {
        let from = tokens.place();
        tokens.expect(Sort::LeftBrace)?;
        self.grammar.block(tokens, from)
    }

    /// The parameter of a `catch`, where one is written (14.15).
    #[tactic(auto, unfolding(sr_syntax::specs::Statements::catch_parameter))]
    fn catch_parameter(&self, tokens: &mut Tokens<'_>) -> Result<Option<Binding>, Refusal>
        ensures { Reads (spec.catch_parameter tokens.old) result tokens.new }
    {
        if !tokens.sees(Sort::LeftParenthesis) {
            return Ok(None);
        }
        Ok(Some(one_parameter(self.grammar.alloc, tokens)?))
    }

    /// A `finally`, behind that token, with what stands before it (14.15).
    #[tactic(auto, unfolding(sr_syntax::specs::Statements::finally_))]
    fn finally_(
        &self,
        tokens: &mut Tokens<'_>,
        from: usize,
        of: Grown,
        parameter: Option<Binding>,
        handler: Part,
    ) -> Result<Grown, Refusal>
        requires { Nests self.now.grammar.depth (F.pre self.now.grammar.tree) (F.post self.now.grammar.tree) }
        ensures { Reads (spec.finally_ (grammar.tree self.now.grammar.depth) from of parameter handler tokens.old) result tokens.new }
    {
        let last = self.inner_block(tokens)?;
        let tall = tallest(of.height, handler.height, last.height);
        let node = Node::Try(of.tree, parameter, handler.tree, Some(last.tree));
        self.grammar.complete(tokens, node, from, tall)
    }

    /// What stands behind the block of a `catch`: a `finally`, or nothing (14.15).
    #[tactic(auto, unfolding(sr_syntax::specs::Statements::catch_end))]
    fn catch_end(
        &self,
        tokens: &mut Tokens<'_>,
        from: usize,
        of: Grown,
        parameter: Option<Binding>,
        handler: Grown,
    ) -> Result<Grown, Refusal>
        requires { Nests self.now.grammar.depth (F.pre self.now.grammar.tree) (F.post self.now.grammar.tree) }
        ensures { Reads (spec.catch_end (grammar.tree self.now.grammar.depth) from of parameter handler tokens.old) result tokens.new }
    {
        if tokens.eat(Sort::Finally) {
            return self.finally_(tokens, from, of, parameter, part_of(handler));
        }
        let tall = of.height.max(handler.height);
        let node = Node::Try(of.tree, parameter, Some(handler.tree), None);
        self.grammar.complete(tokens, node, from, tall)
    }

    /// A `catch`, behind that token, with the block before it (14.15).
    #[tactic(auto, unfolding(sr_syntax::specs::Statements::catch_))]
    fn catch_(&self, tokens: &mut Tokens<'_>, from: usize, of: Grown) -> Result<Grown, Refusal>
        requires { Nests self.now.grammar.depth (F.pre self.now.grammar.tree) (F.post self.now.grammar.tree) }
        ensures { Reads (spec.catch_ (grammar.tree self.now.grammar.depth) from of tokens.old) result tokens.new }
    {
        let parameter = self.catch_parameter(tokens)?;
        let handler = self.inner_block(tokens)?;
        self.catch_end(tokens, from, of, parameter, handler)
    }

    /// A `try`, behind that token (14.15).
    #[tactic(auto, unfolding(sr_syntax::specs::Statements::try_))]
    pub(crate) fn try_(&self, tokens: &mut Tokens<'_>, from: usize) -> Result<Grown, Refusal>
        requires { Nests self.now.grammar.depth (F.pre self.now.grammar.tree) (F.post self.now.grammar.tree) }
        ensures { Reads (spec.try_ (grammar.tree self.now.grammar.depth) from tokens.old) result tokens.new }
    {
        let of = self.inner_block(tokens)?;
        if tokens.eat(Sort::Catch) {
            return self.catch_(tokens, from, of);
        }
        tokens.expect(Sort::Finally)?;
        self.finally_(tokens, from, of, None, nothing())
    }
}
