ghost use Rattle.sr_syntax.specs.Input.{Reads};
ghost use Rattle.sr_syntax.specs.Bodies as spec;
ghost use Rattle.sr_syntax.specs.Grammar as grammar;
ghost use Rattle.sr_syntax.specs.Nests.{Nests};

use crate::grammar::Grammar;
use sqlite_items::Items;
use sr_ast::{Binding, HeadKind, Node, Parameters};
use sr_syntax::bodies::{arrow_parameters, arrow_token, opened, parameter_list};
use sr_syntax::grown::{Goal, Grove, Grown, OpenFunction, assign_goal, none, with};
use sr_syntax::names::{binding, binding_if_there};
use sr_syntax::refusal::Refusal;
use sr_syntax::sorts::Sort;
use sr_syntax::tokens::Tokens;
use std::alloc::Global;

impl<F: Fn(Global, &mut Tokens<'_>, usize, Goal) -> Result<Grown, Refusal>> Grammar<F> {
    /// The items before a function declaration and it, behind the brace that closes its body (ECMA-262 15.2).
    #[tactic(auto, unfolding(sr_syntax::specs::Bodies::closed))]
    fn closed(
        &self,
        tokens: &Tokens<'_>,
        function: OpenFunction,
        all: Grove,
    ) -> Result<Grove, Refusal>
        ensures { Reads (spec.closed function all tokens.now) result tokens.now }
    {
        let OpenFunction {
            from,
            name,
            parameters,
            before,
        } = function;
        let node = Node::FunctionDeclaration(Some(name), parameters, all.trees);
        let x = self.complete(tokens, node, from, all.tall)?;
        Ok(with(before, x)?)
    }

    /// Items and the closing brace (14.2). Functions that are declared directly in one another are read in one loop, which
    /// keeps those whose bodies are open.
    #[tactic(auto, unfolding(sr_syntax::specs::Bodies::items, sr_syntax::specs::Bodies::items_from))]
    fn items(&self, tokens: &mut Tokens<'_>) -> Result<Grove, Refusal>
        requires { Nests self.now.depth (F.pre self.now.tree) (F.post self.now.tree) }
        ensures { Reads (spec.items (grammar.tree self.now.depth) tokens.old) result tokens.new }
    {
        let mut around = Items::new(self.alloc);
        let mut found = none(self.alloc);
        for _turn in 0..tokens.turns() {
            let from = tokens.place();
            match tokens.peek() {
                Sort::RightBrace => {
                    tokens.take();
                    match around.pop() {
                        None => return Ok(found),
                        Some(function) => found = self.closed(tokens, function, found)?,
                    }
                }
                Sort::Function => {
                    tokens.take();
                    around.push(opened(self.alloc, tokens, from, found)?)?;
                    found = none(self.alloc);
                }
                Sort::Let => {
                    tokens.take();
                    found = with(found, self.declared_by(tokens, HeadKind::Let, from)?)?;
                }
                Sort::Const => {
                    tokens.take();
                    found = with(found, self.declared_by(tokens, HeadKind::Const, from)?)?;
                }
                _ => found = with(found, self.nest(tokens, Goal::Statement)?)?,
            }
        }
        Err(tokens.refuse())
    }

    /// The body of a function, in braces (15.2).
    #[tactic(auto, unfolding(sr_syntax::specs::Bodies::body))]
    pub fn body(&self, tokens: &mut Tokens<'_>) -> Result<Grove, Refusal>
        requires { Nests self.now.depth (F.pre self.now.tree) (F.post self.now.tree) }
        ensures { Reads (spec.body (grammar.tree self.now.depth) tokens.old) result tokens.new }
    {
        tokens.expect(Sort::LeftBrace)?;
        self.items(tokens)
    }

    /// A block, behind its first brace (14.2).
    #[tactic(auto, unfolding(sr_syntax::specs::Bodies::block))]
    pub fn block(&self, tokens: &mut Tokens<'_>, from: usize) -> Result<Grown, Refusal>
        requires { Nests self.now.depth (F.pre self.now.tree) (F.post self.now.tree) }
        ensures { Reads (spec.block (grammar.tree self.now.depth) from tokens.old) result tokens.new }
    {
        let all = self.items(tokens)?;
        self.complete(tokens, Node::Block(all.trees), from, all.tall)
    }

    /// The parameters and the body of a function expression (15.2).
    #[tactic(auto, unfolding(sr_syntax::specs::Bodies::function_of))]
    fn function_of(
        &self,
        tokens: &mut Tokens<'_>,
        from: usize,
        called: Option<Binding>,
    ) -> Result<Grown, Refusal>
        requires { Nests self.now.depth (F.pre self.now.tree) (F.post self.now.tree) }
        ensures { Reads (spec.function_of (grammar.tree self.now.depth) from called tokens.old) result tokens.new }
    {
        let parameters = parameter_list(self.alloc, tokens)?;
        let all = self.body(tokens)?;
        let node = Node::Function(called, parameters, all.trees);
        self.complete(tokens, node, from, all.tall)
    }

    /// A function expression, behind `function` (15.2).
    #[tactic(auto, unfolding(sr_syntax::specs::Bodies::function_))]
    pub fn function(&self, tokens: &mut Tokens<'_>, from: usize) -> Result<Grown, Refusal>
        requires { Nests self.now.depth (F.pre self.now.tree) (F.post self.now.tree) }
        ensures { Reads (spec.function_ (grammar.tree self.now.depth) from tokens.old) result tokens.new }
    {
        let called = binding_if_there(self.alloc, tokens)?;
        self.function_of(tokens, from, called)
    }

    /// The parameters and the body of a function declaration (15.2).
    #[tactic(auto, unfolding(sr_syntax::specs::Bodies::declared_function))]
    pub fn declared_function(
        &self,
        tokens: &mut Tokens<'_>,
        from: usize,
        called: Option<Binding>,
    ) -> Result<Grown, Refusal>
        requires { Nests self.now.depth (F.pre self.now.tree) (F.post self.now.tree) }
        ensures { Reads (spec.declared_function (grammar.tree self.now.depth) from called tokens.old) result tokens.new }
    {
        let parameters = parameter_list(self.alloc, tokens)?;
        let all = self.body(tokens)?;
        let node = Node::FunctionDeclaration(called, parameters, all.trees);
        self.complete(tokens, node, from, all.tall)
    }

    /// A function declaration, behind `function` (15.2).
    #[tactic(auto, unfolding(sr_syntax::specs::Bodies::function_declaration))]
    pub fn function_declaration(
        &self,
        tokens: &mut Tokens<'_>,
        from: usize,
    ) -> Result<Grown, Refusal>
        requires { Nests self.now.depth (F.pre self.now.tree) (F.post self.now.tree) }
        ensures { Reads (spec.function_declaration (grammar.tree self.now.depth) from tokens.old) result tokens.new }
    {
        let called = binding(self.alloc, tokens)?;
        self.declared_function(tokens, from, Some(called))
    }

    /// The body of an arrow function, behind its first brace (15.3).
    #[tactic(auto, unfolding(sr_syntax::specs::Bodies::arrow_body))]
    fn arrow_body(
        &self,
        tokens: &mut Tokens<'_>,
        from: usize,
        parameters: Parameters,
    ) -> Result<Grown, Refusal>
        requires { Nests self.now.depth (F.pre self.now.tree) (F.post self.now.tree) }
        ensures { Reads (spec.arrow_body (grammar.tree self.now.depth) from parameters tokens.old) result tokens.new }
    {
        let all = self.items(tokens)?;
        self.complete(tokens, Node::Arrow(parameters, all.trees), from, all.tall)
    }

    /// A body or an expression, behind `=>` (15.3).
    #[tactic(auto, unfolding(sr_syntax::specs::Bodies::arrow_end))]
    fn arrow_end(
        &self,
        tokens: &mut Tokens<'_>,
        has_in: bool,
        from: usize,
        parameters: Parameters,
    ) -> Result<Grown, Refusal>
        requires { Nests self.now.depth (F.pre self.now.tree) (F.post self.now.tree) }
        ensures { Reads (spec.arrow_end (grammar.tree self.now.depth) has_in from parameters tokens.old) result tokens.new }
    {
        if tokens.eat(Sort::LeftBrace) {
            return self.arrow_body(tokens, from, parameters);
        }
        let x = self.nest(tokens, assign_goal(has_in))?;
        let node = Node::ExpressionArrow(parameters, x.tree);
        self.complete(tokens, node, from, x.height)
    }

    /// An arrow function (15.3).
    #[tactic(auto, unfolding(sr_syntax::specs::Bodies::arrow))]
    pub fn arrow(&self, tokens: &mut Tokens<'_>, has_in: bool) -> Result<Grown, Refusal>
        requires { Nests self.now.depth (F.pre self.now.tree) (F.post self.now.tree) }
        ensures { Reads (spec.arrow (grammar.tree self.now.depth) has_in tokens.old) result tokens.new }
    {
        let from = tokens.place();
        let parameters = arrow_parameters(self.alloc, tokens)?;
        arrow_token(tokens)?;
        self.arrow_end(tokens, has_in, from, parameters)
    }
}
