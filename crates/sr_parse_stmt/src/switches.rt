ghost use Rattle.sr_syntax.specs.Input.{Reads};
ghost use Rattle.sr_syntax.specs.Statements as spec;
ghost use Rattle.sr_syntax.specs.Grammar as grammar;
ghost use Rattle.sr_syntax.specs.Nests.{Nests};

use crate::clauses::{ends_clause, no_cases, with_case, with_default};
use crate::statements::Statements;
use sr_ast::Node;
use sr_syntax::grown::{Cases, Goal, Grove, Grown, none, with};
use sr_syntax::refusal::Refusal;
use sr_syntax::sorts::Sort;
use sr_syntax::tokens::Tokens;
use std::alloc::Global;

impl<F: Fn(Global, &mut Tokens<'_>, usize, Goal) -> Result<Grown, Refusal>> Statements<F> {
    /// The items of a clause of a `switch`, up to the next clause or the closing brace (ECMA-262 14.12).
    #[tactic(auto, unfolding(sr_syntax::specs::Statements::clause_items, sr_syntax::specs::Statements::clause_from))]
    fn clause_items(&self, tokens: &mut Tokens<'_>) -> Result<Grove, Refusal>
        requires { Nests self.now.grammar.depth (F.pre self.now.grammar.tree) (F.post self.now.grammar.tree) }
        ensures { Reads (spec.clause_items (grammar.tree self.now.grammar.depth) tokens.old) result tokens.new }
    {
        let mut found = none(self.grammar.alloc);
        for _turn in 0..tokens.turns() {
            if ends_clause(tokens.peek()) {
                return Ok(found);
            }
            found = with(found, self.item(tokens)?)?;
        }
        Err(tokens.refuse())
    }

    /// The colon of a clause of a `switch` and its items (14.12).
    #[tactic(auto, unfolding(sr_syntax::specs::Statements::clause))]
    fn clause(&self, tokens: &mut Tokens<'_>) -> Result<Grove, Refusal>
        requires { Nests self.now.grammar.depth (F.pre self.now.grammar.tree) (F.post self.now.grammar.tree) }
        ensures { Reads (spec.clause (grammar.tree self.now.grammar.depth) tokens.old) result tokens.new }
    {
        tokens.expect(Sort::Colon)?;
        self.clause_items(tokens)
    }

    /// One more `case` of a `switch`, behind that token (14.12).
    #[tactic(auto, unfolding(sr_syntax::specs::Statements::case_))]
    fn case_(&self, tokens: &mut Tokens<'_>, found: Cases) -> Result<Cases, Refusal>
        requires { Nests self.now.grammar.depth (F.pre self.now.grammar.tree) (F.post self.now.grammar.tree) }
        ensures { Reads (spec.case_ (grammar.tree self.now.grammar.depth) found tokens.old) result tokens.new }
    {
        let x = self.grammar.expression(tokens, true)?;
        let all = self.clause(tokens)?;
        Ok(with_case(found, x, all)?)
    }

    /// The `default` of a `switch`, behind that token (14.12).
    #[tactic(auto, unfolding(sr_syntax::specs::Statements::default_))]
    fn default_(&self, tokens: &mut Tokens<'_>, found: Cases) -> Result<Cases, Refusal>
        requires { Nests self.now.grammar.depth (F.pre self.now.grammar.tree) (F.post self.now.grammar.tree) }
        ensures { Reads (spec.default_ (grammar.tree self.now.grammar.depth) found tokens.old) result tokens.new }
    {
        let all = self.clause(tokens)?;
        Ok(with_default(found, all)?)
    }

    /// The clauses of a `switch` and the closing brace; one of them at most is `default` (14.12).
    #[tactic(auto, unfolding(sr_syntax::specs::Statements::cases, sr_syntax::specs::Statements::cases_from))]
    fn cases(&self, tokens: &mut Tokens<'_>) -> Result<Cases, Refusal>
        requires { Nests self.now.grammar.depth (F.pre self.now.grammar.tree) (F.post self.now.grammar.tree) }
        ensures { Reads (spec.cases (grammar.tree self.now.grammar.depth) tokens.old) result tokens.new }
    {
        let mut found = no_cases(self.grammar.alloc);
        for _turn in 0..tokens.turns() {
            match tokens.peek() {
                Sort::RightBrace => {
                    tokens.take();
                    return Ok(found);
                }
                Sort::Case => {
                    tokens.take();
                    found = self.case_(tokens, found)?;
                }
                Sort::Default => {
                    if found.has_default {
                        return Err(tokens.refuse());
                    }
                    tokens.take();
                    found = self.default_(tokens, found)?;
                }
                _ => return Err(tokens.refuse()),
            }
        }
        Err(tokens.refuse())
    }

    /// A `switch`, behind that token (14.12).
    #[tactic(auto, unfolding(sr_syntax::specs::Statements::switch_))]
    pub(crate) fn switch_(&self, tokens: &mut Tokens<'_>, from: usize) -> Result<Grown, Refusal>
        requires { Nests self.now.grammar.depth (F.pre self.now.grammar.tree) (F.post self.now.grammar.tree) }
        ensures { Reads (spec.switch_ (grammar.tree self.now.grammar.depth) from tokens.old) result tokens.new }
    {
        let x = self.condition(tokens)?;
        tokens.expect(Sort::LeftBrace)?;
        let all = self.cases(tokens)?;
        let tall = x.height.max(all.tall);
        self.grammar
            .complete(tokens, Node::Switch(x.tree, all.items), from, tall)
    }
}
