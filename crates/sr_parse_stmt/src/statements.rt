ghost use Rattle.sr_syntax.specs.Input.{Reads};
ghost use Rattle.sr_syntax.specs.Statements as spec;
ghost use Rattle.sr_syntax.specs.Grammar as grammar;
ghost use Rattle.sr_syntax.specs.Nests.{Nests};

use sr_ast::{HeadKind, Node};
use sr_parse_expr::grammar::Grammar;
use sr_syntax::grown::{Goal, Grown};
use sr_syntax::operators::statement_node;
use sr_syntax::refusal::Refusal;
use sr_syntax::sorts::{Sort, same_sort};
use sr_syntax::tokens::Tokens;
use std::alloc::Global;

/// The rules of statements and of modules, above those of expressions.
#[derive(Clone, Copy)]
pub struct Statements<F> {
    /// The rules of expressions.
    pub grammar: Grammar<F>,
}

impl<F: Fn(Global, &mut Tokens<'_>, usize, Goal) -> Result<Grown, Refusal>> Statements<F> {
    /// A statement with a label (ECMA-262 14.13).
    #[tactic(auto, unfolding(sr_syntax::specs::Statements::labelled))]
    fn labelled(&self, tokens: &mut Tokens<'_>, from: usize) -> Result<Grown, Refusal>
        requires { Nests self.now.grammar.depth (F.pre self.now.grammar.tree) (F.post self.now.grammar.tree) }
        ensures { Reads (spec.labelled (grammar.tree self.now.grammar.depth) from tokens.old) result tokens.new }
    {
        let label = tokens.take_text(self.grammar.alloc)?;
        tokens.expect(Sort::Colon)?;
        let x = self.grammar.nest(tokens, Goal::Statement)?;
        self.grammar
            .complete(tokens, Node::Labelled(label, x.tree), from, x.height)
    }

    /// An expression and a semicolon (14.5).
    #[tactic(auto, unfolding(sr_syntax::specs::Statements::plain))]
    fn plain(&self, tokens: &mut Tokens<'_>, start: usize) -> Result<Grown, Refusal>
        requires { Nests self.now.grammar.depth (F.pre self.now.grammar.tree) (F.post self.now.grammar.tree) }
        ensures { Reads (spec.plain (grammar.tree self.now.grammar.depth) start tokens.old) result tokens.new }
    {
        let x = self.grammar.expression(tokens, true)?;
        tokens.semicolon()?;
        let from = x.from();
        let height = x.height;
        self.grammar
            .complete(tokens, statement_node(start, x), from, height)
    }

    /// A statement that begins with no word or punctuator of its own: one with a label, or an expression (14.5, 14.13).
    #[tactic(auto, unfolding(sr_syntax::specs::Statements::plain_or_labelled, sr_syntax::specs::Statements::begins_label))]
    fn plain_or_labelled(&self, tokens: &mut Tokens<'_>, from: usize) -> Result<Grown, Refusal>
        requires { Nests self.now.grammar.depth (F.pre self.now.grammar.tree) (F.post self.now.grammar.tree) }
        ensures { Reads (spec.plain_or_labelled (grammar.tree self.now.grammar.depth) from tokens.old) result tokens.new }
    {
        if tokens.sees(Sort::Identifier) && same_sort(tokens.ahead(), Sort::Colon) {
            self.labelled(tokens, from)
        } else {
            self.plain(tokens, from)
        }
    }

    /// A statement (14).
    #[tactic(auto, unfolding(sr_syntax::specs::Statements::statement))]
    fn statement(&self, tokens: &mut Tokens<'_>) -> Result<Grown, Refusal>
        requires { Nests self.now.grammar.depth (F.pre self.now.grammar.tree) (F.post self.now.grammar.tree) }
        ensures { Reads (spec.statement (grammar.tree self.now.grammar.depth) tokens.old) result tokens.new }
    {
        let from = tokens.place();
        match tokens.peek() {
            Sort::LeftBrace => {
                tokens.take();
                self.grammar.block(tokens, from)
            }
            Sort::Var => {
                tokens.take();
                self.grammar.declared_by(tokens, HeadKind::Var, from)
            }
            Sort::Semicolon => {
                tokens.take();
                self.grammar.complete(tokens, Node::Empty, from, 0)
            }
            Sort::If => {
                tokens.take();
                self.if_(tokens, from)
            }
            Sort::Do => {
                tokens.take();
                self.do_(tokens, from)
            }
            Sort::While => {
                tokens.take();
                self.while_(tokens, from)
            }
            Sort::For => {
                tokens.take();
                self.for_(tokens, from)
            }
            Sort::Continue => {
                tokens.take();
                self.continue_(tokens, from)
            }
            Sort::Break => {
                tokens.take();
                self.break_(tokens, from)
            }
            Sort::Return => {
                tokens.take();
                self.return_(tokens, from)
            }
            Sort::Throw => {
                tokens.take();
                self.throw_(tokens, from)
            }
            Sort::Debugger => {
                tokens.take();
                self.debugger_(tokens, from)
            }
            Sort::Switch => {
                tokens.take();
                self.switch_(tokens, from)
            }
            Sort::Try => {
                tokens.take();
                self.try_(tokens, from)
            }
            Sort::Function => Err(tokens.refuse()),
            _ => self.plain_or_labelled(tokens, from),
        }
    }

    /// A function, a declaration of `let` or `const`, or a statement (14).
    #[tactic(auto, unfolding(sr_syntax::specs::Statements::item))]
    pub fn item(&self, tokens: &mut Tokens<'_>) -> Result<Grown, Refusal>
        requires { Nests self.now.grammar.depth (F.pre self.now.grammar.tree) (F.post self.now.grammar.tree) }
        ensures { Reads (spec.item (grammar.tree self.now.grammar.depth) tokens.old) result tokens.new }
    {
        let from = tokens.place();
        match tokens.peek() {
            Sort::Function => {
                tokens.take();
                self.grammar.function_declaration(tokens, from)
            }
            Sort::Let => {
                tokens.take();
                self.grammar.declared_by(tokens, HeadKind::Let, from)
            }
            Sort::Const => {
                tokens.take();
                self.grammar.declared_by(tokens, HeadKind::Const, from)
            }
            _ => self.grammar.nest(tokens, Goal::Statement),
        }
    }

    /// A rule of the goals.
    pub fn goal(&self, tokens: &mut Tokens<'_>, goal: Goal) -> Result<Grown, Refusal>
        requires { Nests self.now.grammar.depth (F.pre self.now.grammar.tree) (F.post self.now.grammar.tree) }
        ensures { Reads (grammar.goal_by (grammar.tree self.now.grammar.depth) goal tokens.old) result tokens.new }
    {
        match goal {
            Goal::Statement => self.statement(tokens),
            Goal::Assign => self.grammar.assign(tokens, true),
            Goal::AssignWithoutIn => self.grammar.assign(tokens, false),
            Goal::Power => self.grammar.power(tokens),
            Goal::Unary => self.grammar.unary(tokens),
            Goal::New => self.grammar.new(tokens),
        }
    }
}
