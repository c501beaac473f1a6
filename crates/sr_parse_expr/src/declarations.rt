ghost use Rattle.std.specs.Prelude.{◌≡◌};
ghost use Rattle.sr_syntax.specs.Input.{Reads};
ghost use Rattle.sr_syntax.specs.Declarations as spec;
ghost use Rattle.sr_syntax.specs.Grammar as grammar;
ghost use Rattle.sr_syntax.specs.Nests.{Nests};

use crate::grammar::Grammar;
use sqlite_items::Items;
use sr_ast::{Declaration, HeadKind, LexicalKind, Node};
use sr_syntax::grown::{Goal, Grown, assign_goal};
use sr_syntax::names::name;
use sr_syntax::refusal::Refusal;
use sr_syntax::sorts::Sort;
use sr_syntax::tokens::Tokens;
use sr_text::Str;
use std::alloc::Global;

/// What `var`, `let` or `const` makes of declarations (ECMA-262 14.3).
pub fn declaring(how: HeadKind, found: Items<Declaration>) -> Node
    ensures { result ≡ spec.declaring how found }
{
    match how {
        HeadKind::Var => Node::Var(found),
        HeadKind::Let => Node::Lexical(LexicalKind::Let, found),
        HeadKind::Const => Node::Lexical(LexicalKind::Const, found),
    }
}

impl<F: Fn(Global, &mut Tokens<'_>, usize, Goal) -> Result<Grown, Refusal>> Grammar<F> {
    /// A declared name with its value, behind the name, and the depth of the value (ECMA-262 14.3).
    #[tactic(auto, unfolding(sr_syntax::specs::Declarations::declared))]
    pub fn declared(
        &self,
        tokens: &mut Tokens<'_>,
        has_in: bool,
        from: usize,
        name: Str,
    ) -> Result<(Declaration, usize), Refusal>
        requires { Nests self.now.depth (F.pre self.now.tree) (F.post self.now.tree) }
        ensures { Reads (spec.declared (grammar.tree self.now.depth) has_in from name tokens.old) result tokens.new }
    {
        if !tokens.eat(Sort::Assign) {
            let value = None;
            return Ok((Declaration { name, from, value }, 0));
        }
        let x = self.nest(tokens, assign_goal(has_in))?;
        let value = Some(x.tree);
        Ok((Declaration { name, from, value }, x.height))
    }

    /// A declared name with its value, and the depth of that (14.3).
    #[tactic(auto, unfolding(sr_syntax::specs::Declarations::declaration))]
    fn declaration(
        &self,
        tokens: &mut Tokens<'_>,
        has_in: bool,
    ) -> Result<(Declaration, usize), Refusal>
        requires { Nests self.now.depth (F.pre self.now.tree) (F.post self.now.tree) }
        ensures { Reads (spec.declaration (grammar.tree self.now.depth) has_in tokens.old) result tokens.new }
    {
        let from = tokens.place();
        let called = name(self.alloc, tokens)?;
        self.declared(tokens, has_in, from, called)
    }

    /// Declarations, with commas between them, behind those that are found.
    #[tactic(auto, unfolding(sr_syntax::specs::Declarations::declarations_behind, sr_syntax::specs::Declarations::declarations_from))]
    pub fn declarations_behind(
        &self,
        tokens: &mut Tokens<'_>,
        has_in: bool,
        mut found: Items<Declaration>,
        mut tall: usize,
    ) -> Result<(Items<Declaration>, usize), Refusal>
        requires { Nests self.now.depth (F.pre self.now.tree) (F.post self.now.tree) }
        ensures { Reads (spec.declarations_behind (grammar.tree self.now.depth) has_in found tall tokens.old) result tokens.new }
    {
        for _turn in 0..tokens.turns() {
            let (declaration, height) = self.declaration(tokens, has_in)?;
            found.push(declaration)?;
            tall = tall.max(height);
            if !tokens.eat(Sort::Comma) {
                return Ok((found, tall));
            }
        }
        Err(tokens.refuse())
    }

    /// Declarations, with commas between them (14.3).
    #[tactic(auto, unfolding(sr_syntax::specs::Declarations::declarations))]
    fn declarations(
        &self,
        tokens: &mut Tokens<'_>,
        has_in: bool,
    ) -> Result<(Items<Declaration>, usize), Refusal>
        requires { Nests self.now.depth (F.pre self.now.tree) (F.post self.now.tree) }
        ensures { Reads (spec.declarations (grammar.tree self.now.depth) has_in tokens.old) result tokens.new }
    {
        self.declarations_behind(tokens, has_in, Items::new(self.alloc), 0)
    }

    /// The declarations of a `var`, a `let` or a `const` and a semicolon, behind that token (14.3).
    #[tactic(auto, unfolding(sr_syntax::specs::Declarations::declared_by))]
    pub fn declared_by(
        &self,
        tokens: &mut Tokens<'_>,
        how: HeadKind,
        from: usize,
    ) -> Result<Grown, Refusal>
        requires { Nests self.now.depth (F.pre self.now.tree) (F.post self.now.tree) }
        ensures { Reads (spec.declared_by (grammar.tree self.now.depth) how from tokens.old) result tokens.new }
    {
        let (found, tall) = self.declarations(tokens, true)?;
        tokens.semicolon()?;
        self.complete(tokens, declaring(how, found), from, tall)
    }
}
