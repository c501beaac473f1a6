ghost use Rattle.sr_syntax.specs.Input.{Reads};
ghost use Rattle.sr_syntax.specs.Statements as spec;
ghost use Rattle.sr_syntax.specs.Grammar as grammar;
ghost use Rattle.sr_syntax.specs.Nests.{Nests};

use crate::statements::Statements;
use sr_ast::{HeadBinding, Node};
use sr_syntax::grown::{Goal, Grown, Part, nothing, part_of, tallest};
use sr_syntax::refusal::Refusal;
use sr_syntax::sorts::Sort;
use sr_syntax::tokens::Tokens;
use std::alloc::Global;

impl<F: Fn(Global, &mut Tokens<'_>, usize, Goal) -> Result<Grown, Refusal>> Statements<F> {
    /// An expression, or none, up to this token and with it.
    #[tactic(auto, unfolding(sr_syntax::specs::Statements::perhaps))]
    fn perhaps(&self, tokens: &mut Tokens<'_>, has_in: bool, close: Sort) -> Result<Part, Refusal>
        requires { Nests self.now.grammar.depth (F.pre self.now.grammar.tree) (F.post self.now.grammar.tree) }
        ensures { Reads (spec.perhaps (grammar.tree self.now.grammar.depth) has_in close tokens.old) result tokens.new }
    {
        if tokens.eat(close) {
            return Ok(nothing());
        }
        let x = self.grammar.expression(tokens, has_in)?;
        tokens.expect(close)?;
        Ok(part_of(x))
    }

    /// The body of a `for`.
    #[tactic(auto, unfolding(sr_syntax::specs::Statements::for_body))]
    fn for_body(
        &self,
        tokens: &mut Tokens<'_>,
        from: usize,
        first: Part,
        test: Part,
        step: Part,
    ) -> Result<Grown, Refusal>
        requires { Nests self.now.grammar.depth (F.pre self.now.grammar.tree) (F.post self.now.grammar.tree) }
        ensures { Reads (spec.for_body (grammar.tree self.now.grammar.depth) from first test step tokens.old) result tokens.new }
    {
        let body = self.grammar.nest(tokens, Goal::Statement)?;
        let tall = first
            .height
            .max(tallest(test.height, step.height, body.height));
        self.grammar.complete(
            tokens,
            Node::For(first.tree, test.tree, step.tree, body.tree),
            from,
            tall,
        )
    }

    /// A `for`, behind the first semicolon.
    #[tactic(auto, unfolding(sr_syntax::specs::Statements::for_rest))]
    pub(crate) fn for_rest(
        &self,
        tokens: &mut Tokens<'_>,
        from: usize,
        first: Part,
    ) -> Result<Grown, Refusal>
        requires { Nests self.now.grammar.depth (F.pre self.now.grammar.tree) (F.post self.now.grammar.tree) }
        ensures { Reads (spec.for_rest (grammar.tree self.now.grammar.depth) from first tokens.old) result tokens.new }
    {
        let test = self.perhaps(tokens, true, Sort::Semicolon)?;
        let step = self.perhaps(tokens, true, Sort::RightParenthesis)?;
        self.for_body(tokens, from, first, test, step)
    }

    /// What keys are gone over of, and the closing parenthesis (ECMA-262 14.7.5).
    #[tactic(auto, unfolding(sr_syntax::specs::Statements::keys_of))]
    fn keys_of(&self, tokens: &mut Tokens<'_>) -> Result<Grown, Refusal>
        requires { Nests self.now.grammar.depth (F.pre self.now.grammar.tree) (F.post self.now.grammar.tree) }
        ensures { Reads (spec.keys_of (grammar.tree self.now.grammar.depth) tokens.old) result tokens.new }
    {
        let x = self.grammar.expression(tokens, true)?;
        tokens.expect(Sort::RightParenthesis)?;
        Ok(x)
    }

    /// What is iterated, and the closing parenthesis (14.7.5).
    #[tactic(auto, unfolding(sr_syntax::specs::Statements::values_of))]
    fn values_of(&self, tokens: &mut Tokens<'_>) -> Result<Grown, Refusal>
        requires { Nests self.now.grammar.depth (F.pre self.now.grammar.tree) (F.post self.now.grammar.tree) }
        ensures { Reads (spec.values_of (grammar.tree self.now.grammar.depth) tokens.old) result tokens.new }
    {
        let x = self.grammar.nest(tokens, Goal::Assign)?;
        tokens.expect(Sort::RightParenthesis)?;
        Ok(x)
    }

    /// A `for` over the keys of an object, with a declared name, behind that name (14.7.5).
    #[tactic(auto, unfolding(sr_syntax::specs::Statements::for_in))]
    pub(crate) fn for_in(
        &self,
        tokens: &mut Tokens<'_>,
        from: usize,
        head: HeadBinding,
    ) -> Result<Grown, Refusal>
        requires { Nests self.now.grammar.depth (F.pre self.now.grammar.tree) (F.post self.now.grammar.tree) }
        ensures { Reads (spec.for_in (grammar.tree self.now.grammar.depth) from head tokens.old) result tokens.new }
    {
        tokens.take();
        let x = self.keys_of(tokens)?;
        let body = self.grammar.nest(tokens, Goal::Statement)?;
        let tall = x.height.max(body.height);
        self.grammar
            .complete(tokens, Node::ForIn(head, x.tree, body.tree), from, tall)
    }

    /// A `for` over what an iterator gives, with a declared name, behind that name (14.7.5).
    #[tactic(auto, unfolding(sr_syntax::specs::Statements::for_of))]
    pub(crate) fn for_of(
        &self,
        tokens: &mut Tokens<'_>,
        from: usize,
        head: HeadBinding,
    ) -> Result<Grown, Refusal>
        requires { Nests self.now.grammar.depth (F.pre self.now.grammar.tree) (F.post self.now.grammar.tree) }
        ensures { Reads (spec.for_of (grammar.tree self.now.grammar.depth) from head tokens.old) result tokens.new }
    {
        tokens.take();
        let x = self.values_of(tokens)?;
        let body = self.grammar.nest(tokens, Goal::Statement)?;
        let tall = x.height.max(body.height);
        self.grammar
            .complete(tokens, Node::ForOf(head, x.tree, body.tree), from, tall)
    }

    /// A `for` over the keys of an object, with a target, behind that target (14.7.5).
    #[tactic(auto, unfolding(sr_syntax::specs::Statements::for_in_target))]
    pub(crate) fn for_in_target(
        &self,
        tokens: &mut Tokens<'_>,
        from: usize,
        target: Grown,
    ) -> Result<Grown, Refusal>
        requires { Nests self.now.grammar.depth (F.pre self.now.grammar.tree) (F.post self.now.grammar.tree) }
        ensures { Reads (spec.for_in_target (grammar.tree self.now.grammar.depth) from target tokens.old) result tokens.new }
    {
        tokens.take();
        let x = self.keys_of(tokens)?;
        let body = self.grammar.nest(tokens, Goal::Statement)?;
        let tall = tallest(target.height, x.height, body.height);
        let node = Node::ForInTarget(target.tree, x.tree, body.tree);
        self.grammar.complete(tokens, node, from, tall)
    }

    /// A `for` over what an iterator gives, with a target, behind that target (14.7.5).
    #[tactic(auto, unfolding(sr_syntax::specs::Statements::for_of_target))]
    pub(crate) fn for_of_target(
        &self,
        tokens: &mut Tokens<'_>,
        from: usize,
        target: Grown,
    ) -> Result<Grown, Refusal>
        requires { Nests self.now.grammar.depth (F.pre self.now.grammar.tree) (F.post self.now.grammar.tree) }
        ensures { Reads (spec.for_of_target (grammar.tree self.now.grammar.depth) from target tokens.old) result tokens.new }
    {
        tokens.take();
        let x = self.values_of(tokens)?;
        let body = self.grammar.nest(tokens, Goal::Statement)?;
        let tall = tallest(target.height, x.height, body.height);
        let node = Node::ForOfTarget(target.tree, x.tree, body.tree);
        self.grammar.complete(tokens, node, from, tall)
    }
}
