ghost use Rattle.std.specs.Prelude.{◌≡◌};
ghost use Rattle.sr_syntax.specs.Input.{Reads};
ghost use Rattle.sr_syntax.specs.Modules as spec;
ghost use Rattle.sr_syntax.specs.Grammar as grammar;
ghost use Rattle.sr_syntax.specs.Nests.{Nests};

use crate::specifiers::{export_specs, exported_as, from_clause, imported};
use crate::statements::Statements;
use sr_ast::{Binding, HeadKind, Imports, Node};
use sr_syntax::grown::{Goal, Grown};
use sr_syntax::names::{binding, binding_if_there};
use sr_syntax::refusal::Refusal;
use sr_syntax::sorts::Sort;
use sr_syntax::tokens::Tokens;
use std::alloc::Global;

impl<F: Fn(Global, &mut Tokens<'_>, usize, Goal) -> Result<Grown, Refusal>> Statements<F> {
    /// The module of an import, behind what is imported, and a semicolon (ECMA-262 16.2.2).
    #[tactic(auto, unfolding(sr_syntax::specs::Modules::import_end))]
    fn import_end(
        &self,
        tokens: &mut Tokens<'_>,
        from: usize,
        first: Option<Binding>,
        others: Imports,
    ) -> Result<Grown, Refusal>
        ensures { Reads (spec.import_end from first others tokens.old) result tokens.new }
    {
        let module = from_clause(self.grammar.alloc, tokens)?;
        tokens.semicolon()?;
        self.grammar
            .complete(tokens, Node::Import(first, others, module), from, 0)
    }

    /// An import that begins with a name for the default export (16.2.2).
    #[tactic(auto, unfolding(sr_syntax::specs::Modules::import_default))]
    fn import_default(&self, tokens: &mut Tokens<'_>, from: usize) -> Result<Grown, Refusal>
        ensures { Reads (spec.import_default from tokens.old) result tokens.new }
    {
        let first = binding(self.grammar.alloc, tokens)?;
        if !tokens.eat(Sort::Comma) {
            return self.import_end(tokens, from, Some(first), Imports::Nothing);
        }
        let others = imported(self.grammar.alloc, tokens)?;
        self.import_end(tokens, from, Some(first), others)
    }

    /// An import of a module alone, from its name on (16.2.2).
    #[tactic(auto, unfolding(sr_syntax::specs::Modules::import_module))]
    fn import_module(&self, tokens: &mut Tokens<'_>, from: usize) -> Result<Grown, Refusal>
        ensures { Reads (spec.import_module from tokens.old) result tokens.new }
    {
        let module = tokens.take_text(self.grammar.alloc)?;
        tokens.semicolon()?;
        let node = Node::Import(None, Imports::Nothing, module);
        self.grammar.complete(tokens, node, from, 0)
    }

    /// An import, behind that token (16.2.2).
    #[tactic(auto, unfolding(sr_syntax::specs::Modules::import_))]
    fn import_(&self, tokens: &mut Tokens<'_>, from: usize) -> Result<Grown, Refusal>
        ensures { Reads (spec.import_ from tokens.old) result tokens.new }
    {
        match tokens.peek() {
            Sort::Text => self.import_module(tokens, from),
            Sort::Identifier => self.import_default(tokens, from),
            _ => {
                let others = imported(self.grammar.alloc, tokens)?;
                self.import_end(tokens, from, None, others)
            }
        }
    }

    /// An export of names, behind its first brace; those that are no names in this module are of another one (16.2.3).
    #[tactic(auto, unfolding(sr_syntax::specs::Modules::export_names))]
    fn export_names(&self, tokens: &mut Tokens<'_>, from: usize) -> Result<Grown, Refusal>
        ensures { Reads (spec.export_names from tokens.old) result tokens.new }
    {
        let (found, all_names) = export_specs(self.grammar.alloc, tokens)?;
        if !tokens.sees_text(b"from") && all_names {
            tokens.semicolon()?;
            return self
                .grammar
                .complete(tokens, Node::ExportNames(found, None), from, 0);
        }
        let module = from_clause(self.grammar.alloc, tokens)?;
        tokens.semicolon()?;
        let node = Node::ExportNames(found, Some(module));
        self.grammar.complete(tokens, node, from, 0)
    }

    /// An export of all that another module exports, behind its `*` (16.2.3).
    #[tactic(auto, unfolding(sr_syntax::specs::Modules::export_all))]
    fn export_all(&self, tokens: &mut Tokens<'_>, from: usize) -> Result<Grown, Refusal>
        ensures { Reads (spec.export_all from tokens.old) result tokens.new }
    {
        let outer = exported_as(self.grammar.alloc, tokens)?;
        let module = from_clause(self.grammar.alloc, tokens)?;
        tokens.semicolon()?;
        self.grammar
            .complete(tokens, Node::ExportAll(outer, module), from, 0)
    }

    /// An exported declaration of `var`, `let` or `const`, behind that token (16.2.3).
    #[tactic(auto, unfolding(sr_syntax::specs::Modules::exported_by))]
    fn exported_by(
        &self,
        tokens: &mut Tokens<'_>,
        how: HeadKind,
        from: usize,
        start: usize,
    ) -> Result<Grown, Refusal>
        requires { Nests self.now.grammar.depth (F.pre self.now.grammar.tree) (F.post self.now.grammar.tree) }
        ensures { Reads (spec.exported_by (grammar.tree self.now.grammar.depth) how from start tokens.old) result tokens.new }
    {
        let x = self.grammar.declared_by(tokens, how, start)?;
        self.grammar
            .complete(tokens, Node::Export(x.tree), from, x.height)
    }

    /// An exported function, behind the token `function` (16.2.3).
    #[tactic(auto, unfolding(sr_syntax::specs::Modules::exported_function))]
    fn exported_function(
        &self,
        tokens: &mut Tokens<'_>,
        from: usize,
        start: usize,
    ) -> Result<Grown, Refusal>
        requires { Nests self.now.grammar.depth (F.pre self.now.grammar.tree) (F.post self.now.grammar.tree) }
        ensures { Reads (spec.exported_function (grammar.tree self.now.grammar.depth) from start tokens.old) result tokens.new }
    {
        let x = self.grammar.function_declaration(tokens, start)?;
        self.grammar
            .complete(tokens, Node::Export(x.tree), from, x.height)
    }

    /// A function that is the default export; it may have no name (16.2.3).
    #[tactic(auto, unfolding(sr_syntax::specs::Modules::default_function))]
    fn default_function(&self, tokens: &mut Tokens<'_>, from: usize) -> Result<Grown, Refusal>
        requires { Nests self.now.grammar.depth (F.pre self.now.grammar.tree) (F.post self.now.grammar.tree) }
        ensures { Reads (spec.default_function (grammar.tree self.now.grammar.depth) from tokens.old) result tokens.new }
    {
        let start = tokens.place();
        tokens.take();
        let called = binding_if_there(self.grammar.alloc, tokens)?;
        let x = self.grammar.declared_function(tokens, start, called)?;
        self.grammar
            .complete(tokens, Node::ExportDefault(x.tree), from, x.height)
    }

    /// An expression that is the default export, and a semicolon (16.2.3).
    #[tactic(auto, unfolding(sr_syntax::specs::Modules::default_value))]
    fn default_value(&self, tokens: &mut Tokens<'_>, from: usize) -> Result<Grown, Refusal>
        requires { Nests self.now.grammar.depth (F.pre self.now.grammar.tree) (F.post self.now.grammar.tree) }
        ensures { Reads (spec.default_value (grammar.tree self.now.grammar.depth) from tokens.old) result tokens.new }
    {
        let x = self.grammar.nest(tokens, Goal::Assign)?;
        tokens.semicolon()?;
        self.grammar
            .complete(tokens, Node::ExportDefault(x.tree), from, x.height)
    }

    /// A default export, behind the token `default` (16.2.3).
    #[tactic(auto, unfolding(sr_syntax::specs::Modules::export_default))]
    fn export_default(&self, tokens: &mut Tokens<'_>, from: usize) -> Result<Grown, Refusal>
        requires { Nests self.now.grammar.depth (F.pre self.now.grammar.tree) (F.post self.now.grammar.tree) }
        ensures { Reads (spec.export_default (grammar.tree self.now.grammar.depth) from tokens.old) result tokens.new }
    {
        if tokens.sees(Sort::Function) {
            self.default_function(tokens, from)
        } else {
            self.default_value(tokens, from)
        }
    }

    /// An export, behind that token (16.2.3).
    #[tactic(auto, unfolding(sr_syntax::specs::Modules::export_))]
    fn export_(&self, tokens: &mut Tokens<'_>, from: usize) -> Result<Grown, Refusal>
        requires { Nests self.now.grammar.depth (F.pre self.now.grammar.tree) (F.post self.now.grammar.tree) }
        ensures { Reads (spec.export_ (grammar.tree self.now.grammar.depth) from tokens.old) result tokens.new }
    {
        let start = tokens.place();
        match tokens.peek() {
            Sort::Multiply => {
                tokens.take();
                self.export_all(tokens, from)
            }
            Sort::LeftBrace => {
                tokens.take();
                self.export_names(tokens, from)
            }
            Sort::Var => {
                tokens.take();
                self.exported_by(tokens, HeadKind::Var, from, start)
            }
            Sort::Let => {
                tokens.take();
                self.exported_by(tokens, HeadKind::Let, from, start)
            }
            Sort::Const => {
                tokens.take();
                self.exported_by(tokens, HeadKind::Const, from, start)
            }
            Sort::Function => {
                tokens.take();
                self.exported_function(tokens, from, start)
            }
            Sort::Default => {
                tokens.take();
                self.export_default(tokens, from)
            }
            _ => Err(tokens.refuse()),
        }
    }

    /// An import, an export, or what an item of a script is (16.2).
    #[tactic(auto, unfolding(sr_syntax::specs::Modules::module_item))]
    pub fn module_item(&self, tokens: &mut Tokens<'_>) -> Result<Grown, Refusal>
        requires { Nests self.now.grammar.depth (F.pre self.now.grammar.tree) (F.post self.now.grammar.tree) }
        ensures { Reads (spec.module_item (grammar.tree self.now.grammar.depth) tokens.old) result tokens.new }
    {
        let from = tokens.place();
        match tokens.peek() {
            Sort::Import => {
                tokens.take();
                self.import_(tokens, from)
            }
            Sort::Export => {
                tokens.take();
                self.export_(tokens, from)
            }
            _ => self.item(tokens),
        }
    }
}
