ghost use Rattle.sr_syntax.specs.Input.{Reads};
ghost use Rattle.sr_syntax.specs.Statements as spec;
ghost use Rattle.sr_syntax.specs.Grammar as grammar;
ghost use Rattle.sr_syntax.specs.Nests.{Nests};

use crate::statements::Statements;
use sqlite_items::Items;
use sr_ast::{Declaration, HeadBinding, HeadKind};
use sr_parse_expr::declarations::declaring;
use sr_syntax::grown::{Goal, Grown, nothing, part_of};
use sr_syntax::names::binding;
use sr_syntax::operators::is_target;
use sr_syntax::refusal::Refusal;
use sr_syntax::sorts::Sort;
use sr_syntax::tokens::Tokens;
use std::alloc::Global;

impl<F: Fn(Global, &mut Tokens<'_>, usize, Goal) -> Result<Grown, Refusal>> Statements<F> {
    /// The declarations behind a first one, in the head of a `for` (ECMA-262 14.7.4).
    #[tactic(auto, unfolding(sr_syntax::specs::Statements::more_declarations))]
    fn more_declarations(
        &self,
        tokens: &mut Tokens<'_>,
        first: Declaration,
        tall: usize,
    ) -> Result<(Items<Declaration>, usize), Refusal>
        requires { Nests self.now.grammar.depth (F.pre self.now.grammar.tree) (F.post self.now.grammar.tree) }
        ensures { Reads (spec.more_declarations (grammar.tree self.now.grammar.depth) first tall tokens.old) result tokens.new }
    {
        let mut found = Items::new(self.grammar.alloc);
        found.push(first)?;
        if !tokens.eat(Sort::Comma) {
            return Ok((found, tall));
        }
        self.grammar.declarations_behind(tokens, false, found, tall)
    }

    /// The declarations at first in the head of a `for`, behind the first name, with their semicolon, which is not inserted.
    #[tactic(auto, unfolding(sr_syntax::specs::Statements::for_declarations))]
    fn for_declarations(
        &self,
        tokens: &mut Tokens<'_>,
        start: usize,
        head: HeadBinding,
    ) -> Result<Grown, Refusal>
        requires { Nests self.now.grammar.depth (F.pre self.now.grammar.tree) (F.post self.now.grammar.tree) }
        ensures { Reads (spec.for_declarations (grammar.tree self.now.grammar.depth) start head tokens.old) result tokens.new }
    {
        let HeadBinding { kind, binding } = head;
        let (first, height) = self
            .grammar
            .declared(tokens, false, binding.from, binding.name)?;
        let (found, tall) = self.more_declarations(tokens, first, height)?;
        tokens.expect(Sort::Semicolon)?;
        self.grammar
            .complete(tokens, declaring(kind, found), start, tall)
    }

    /// A `for` that begins with declarations, behind the first name (14.7.4).
    #[tactic(auto, unfolding(sr_syntax::specs::Statements::for_declared))]
    fn for_declared(
        &self,
        tokens: &mut Tokens<'_>,
        from: usize,
        start: usize,
        head: HeadBinding,
    ) -> Result<Grown, Refusal>
        requires { Nests self.now.grammar.depth (F.pre self.now.grammar.tree) (F.post self.now.grammar.tree) }
        ensures { Reads (spec.for_declared (grammar.tree self.now.grammar.depth) from start head tokens.old) result tokens.new }
    {
        let first = self.for_declarations(tokens, start, head)?;
        self.for_rest(tokens, from, part_of(first))
    }

    /// A `for` with a declared name, behind it: over keys, over what an iterator gives, or a plain one.
    #[tactic(auto, unfolding(sr_syntax::specs::Statements::for_named))]
    fn for_named(
        &self,
        tokens: &mut Tokens<'_>,
        from: usize,
        start: usize,
        head: HeadBinding,
    ) -> Result<Grown, Refusal>
        requires { Nests self.now.grammar.depth (F.pre self.now.grammar.tree) (F.post self.now.grammar.tree) }
        ensures { Reads (spec.for_named (grammar.tree self.now.grammar.depth) from start head tokens.old) result tokens.new }
    {
        if tokens.sees(Sort::In) {
            self.for_in(tokens, from, head)
        } else if tokens.sees_text(b"of") {
            self.for_of(tokens, from, head)
        } else {
            self.for_declared(tokens, from, start, head)
        }
    }

    /// A `for` with a declared name, behind `var`, `let` or `const`.
    #[tactic(auto, unfolding(sr_syntax::specs::Statements::for_declaring))]
    fn for_declaring(
        &self,
        tokens: &mut Tokens<'_>,
        from: usize,
        start: usize,
        kind: HeadKind,
    ) -> Result<Grown, Refusal>
        requires { Nests self.now.grammar.depth (F.pre self.now.grammar.tree) (F.post self.now.grammar.tree) }
        ensures { Reads (spec.for_declaring (grammar.tree self.now.grammar.depth) from start kind tokens.old) result tokens.new }
    {
        let binding = binding(self.grammar.alloc, tokens)?;
        self.for_named(tokens, from, start, HeadBinding { kind, binding })
    }

    /// A `for` behind an expression with no `in`: a target of what is gone over, or what stands at first in a plain one.
    #[tactic(auto, unfolding(sr_syntax::specs::Statements::for_expression))]
    fn for_expression(
        &self,
        tokens: &mut Tokens<'_>,
        from: usize,
        x: Grown,
    ) -> Result<Grown, Refusal>
        requires { Nests self.now.grammar.depth (F.pre self.now.grammar.tree) (F.post self.now.grammar.tree) }
        ensures { Reads (spec.for_expression (grammar.tree self.now.grammar.depth) from x tokens.old) result tokens.new }
    {
        if is_target(&x) && tokens.sees(Sort::In) {
            return self.for_in_target(tokens, from, x);
        }
        if is_target(&x) && tokens.sees_text(b"of") {
            return self.for_of_target(tokens, from, x);
        }
        tokens.expect(Sort::Semicolon)?;
        self.for_rest(tokens, from, part_of(x))
    }

    /// A `for`, behind that token (14.7.4, 14.7.5).
    #[tactic(auto, unfolding(sr_syntax::specs::Statements::for_))]
    pub(crate) fn for_(&self, tokens: &mut Tokens<'_>, from: usize) -> Result<Grown, Refusal>
        requires { Nests self.now.grammar.depth (F.pre self.now.grammar.tree) (F.post self.now.grammar.tree) }
        ensures { Reads (spec.for_ (grammar.tree self.now.grammar.depth) from tokens.old) result tokens.new }
    {
        tokens.expect(Sort::LeftParenthesis)?;
        let start = tokens.place();
        match tokens.peek() {
            Sort::Var => {
                tokens.take();
                self.for_declaring(tokens, from, start, HeadKind::Var)
            }
            Sort::Let => {
                tokens.take();
                self.for_declaring(tokens, from, start, HeadKind::Let)
            }
            Sort::Const => {
                tokens.take();
                self.for_declaring(tokens, from, start, HeadKind::Const)
            }
            Sort::Semicolon => {
                tokens.take();
                self.for_rest(tokens, from, nothing())
            }
            _ => {
                let x = self.grammar.expression(tokens, false)?;
                self.for_expression(tokens, from, x)
            }
        }
    }
}
