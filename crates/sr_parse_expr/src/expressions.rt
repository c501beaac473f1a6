ghost use Rattle.sr_syntax.specs.Input.{Reads};
ghost use Rattle.sr_syntax.specs.Expressions as spec;
ghost use Rattle.sr_syntax.specs.Operators as operators;
ghost use Rattle.sr_syntax.specs.Grammar as grammar;
ghost use Rattle.sr_syntax.specs.Nests.{Nests};

use crate::grammar::Grammar;
use sr_ast::{Link, Node, UpdateOp};
use sr_syntax::bodies::begins_arrow;
use sr_syntax::grown::{
    Elements, Goal, Grove, Grown, Pieces, assign_goal, no_elements, none, one_piece, tallest, with,
    with_hole, with_piece, with_spread, with_value,
};
use sr_syntax::names::property_name;
use sr_syntax::operators::{
    PartSort, assigns, gives_name, is_bare_new, is_in, is_prefix, is_target, joined_node, link_in,
    part, prefix, steps, update_before,
};
use sr_syntax::refusal::Refusal;
use sr_syntax::sorts::{Sort, same_sort};
use sr_syntax::tokens::Tokens;
use sr_text::Str;
use std::alloc::Global;

/// The row of `|`.
const BIT_OR_ROW: u8 = 8;

/// The row of `&&`.
const AND_ROW: u8 = 9;

/// The row of `||`.
const OR_ROW: u8 = 10;

/// The row of `??`.
const COALESCE_ROW: u8 = 11;

impl<F: Fn(Global, &mut Tokens<'_>, usize, Goal) -> Result<Grown, Refusal>> Grammar<F> {
    /// The expressions behind the first one of a sequence.
    #[tactic(auto, unfolding(sr_syntax::specs::Expressions::sequence, sr_syntax::specs::Expressions::sequence_from))]
    fn sequence(
        &self,
        tokens: &mut Tokens<'_>,
        has_in: bool,
        mut found: Grove,
    ) -> Result<Grove, Refusal>
        requires { Nests self.now.depth (F.pre self.now.tree) (F.post self.now.tree) }
        ensures { Reads (spec.sequence (grammar.tree self.now.depth) has_in found tokens.old) result tokens.new }
    {
        for _turn in 0..tokens.left() {
            if !tokens.eat(Sort::Comma) {
                return Ok(found);
            }
            found = with(found, self.nest(tokens, assign_goal(has_in))?)?;
        }
        Ok(found)
    }

    /// Assignments, with commas between them (ECMA-262 13.16). Where `has_in` is false, `in` is an operator in brackets alone.
    #[tactic(auto, unfolding(sr_syntax::specs::Expressions::expression))]
    pub fn expression(&self, tokens: &mut Tokens<'_>, has_in: bool) -> Result<Grown, Refusal>
        requires { Nests self.now.depth (F.pre self.now.tree) (F.post self.now.tree) }
        ensures { Reads (spec.expression (grammar.tree self.now.depth) has_in tokens.old) result tokens.new }
    {
        let first = self.nest(tokens, assign_goal(has_in))?;
        if !same_sort(tokens.peek(), Sort::Comma) {
            return Ok(first);
        }
        let from = first.from();
        let all = self.sequence(tokens, has_in, with(none(self.alloc), first)?)?;
        self.complete(tokens, Node::Sequence(all.trees), from, all.tall)
    }

    /// An expression and its closing parenthesis (13.2.9).
    #[tactic(auto, unfolding(sr_syntax::specs::Expressions::parenthesized))]
    fn parenthesized(&self, tokens: &mut Tokens<'_>) -> Result<Grown, Refusal>
        requires { Nests self.now.depth (F.pre self.now.tree) (F.post self.now.tree) }
        ensures { Reads (spec.parenthesized (grammar.tree self.now.depth) tokens.old) result tokens.new }
    {
        let inner = self.expression(tokens, true)?;
        tokens.expect(Sort::RightParenthesis)?;
        Ok(inner)
    }

    /// One more element, which is no hole (13.2.4, 13.3.8).
    #[tactic(auto, unfolding(sr_syntax::specs::Expressions::one_element))]
    fn one_element(&self, tokens: &mut Tokens<'_>, found: Elements) -> Result<Elements, Refusal>
        requires { Nests self.now.depth (F.pre self.now.tree) (F.post self.now.tree) }
        ensures { Reads (spec.one_element (grammar.tree self.now.depth) found tokens.old) result tokens.new }
    {
        let is_spread = tokens.eat(Sort::Ellipsis);
        let x = self.nest(tokens, Goal::Assign)?;
        if is_spread {
            Ok(with_spread(found, x)?)
        } else {
            Ok(with_value(found, x)?)
        }
    }

    /// The elements of an array literal and the closing bracket.
    #[tactic(auto, unfolding(sr_syntax::specs::Expressions::elements, sr_syntax::specs::Expressions::array_from))]
    fn elements(&self, tokens: &mut Tokens<'_>) -> Result<Elements, Refusal>
        requires { Nests self.now.depth (F.pre self.now.tree) (F.post self.now.tree) }
        ensures { Reads (spec.elements (grammar.tree self.now.depth) tokens.old) result tokens.new }
    {
        let mut found = no_elements(self.alloc);
        for _turn in 0..tokens.turns() {
            if tokens.eat(Sort::RightBracket) {
                return Ok(found);
            }
            if tokens.eat(Sort::Comma) {
                found = with_hole(found)?;
            } else {
                found = self.one_element(tokens, found)?;
                if !tokens.eat(Sort::Comma) {
                    tokens.expect(Sort::RightBracket)?;
                    return Ok(found);
                }
            }
        }
        Err(tokens.refuse())
    }

    /// An array literal, behind its first bracket (13.2.4).
    #[tactic(auto, unfolding(sr_syntax::specs::Expressions::array))]
    fn array(&self, tokens: &mut Tokens<'_>, from: usize) -> Result<Grown, Refusal>
        requires { Nests self.now.depth (F.pre self.now.tree) (F.post self.now.tree) }
        ensures { Reads (spec.array (grammar.tree self.now.depth) from tokens.old) result tokens.new }
    {
        let all = self.elements(tokens)?;
        self.complete(tokens, Node::Array(all.items), from, all.tall)
    }

    /// The expressions of a template and the pieces behind them.
    #[tactic(auto, unfolding(sr_syntax::specs::Expressions::pieces, sr_syntax::specs::Expressions::pieces_from))]
    fn pieces(&self, tokens: &mut Tokens<'_>, first: Str) -> Result<Pieces, Refusal>
        requires { Nests self.now.depth (F.pre self.now.tree) (F.post self.now.tree) }
        ensures { Reads (spec.pieces (grammar.tree self.now.depth) first tokens.old) result tokens.new }
    {
        let mut all = one_piece(self.alloc, first)?;
        for _turn in 0..tokens.turns() {
            let x = self.expression(tokens, true)?;
            match tokens.peek() {
                Sort::TemplateMiddle => {
                    let text = tokens.take_text(self.alloc)?;
                    all = with_piece(all, x, text)?;
                }
                Sort::TemplateTail => {
                    let text = tokens.take_text(self.alloc)?;
                    return Ok(with_piece(all, x, text)?);
                }
                _ => return Err(tokens.refuse()),
            }
        }
        Err(tokens.refuse())
    }

    /// A template with expressions, behind its first piece (13.2.8).
    #[tactic(auto, unfolding(sr_syntax::specs::Expressions::template))]
    fn template(&self, tokens: &mut Tokens<'_>, from: usize, first: Str) -> Result<Grown, Refusal>
        requires { Nests self.now.depth (F.pre self.now.tree) (F.post self.now.tree) }
        ensures { Reads (spec.template (grammar.tree self.now.depth) from first tokens.old) result tokens.new }
    {
        let all = self.pieces(tokens, first)?;
        let node = Node::Template(all.texts, all.trees);
        self.complete(tokens, node, from, all.tall)
    }

    /// A template with no expression (13.2.8).
    #[tactic(auto, unfolding(sr_syntax::specs::Operators::plain_template))]
    fn plain_template(&self, tokens: &mut Tokens<'_>, from: usize) -> Result<Grown, Refusal>
        ensures { Reads (operators.plain_template from tokens.old) result tokens.new }
    {
        let text = tokens.take_text(self.alloc)?;
        let all = one_piece(self.alloc, text)?;
        let node = Node::Template(all.texts, all.trees);
        self.complete(tokens, node, from, 0)
    }

    /// `this`, a name, a literal, an array, an object, a function, a template, or an expression in parentheses (13.2).
    #[tactic(auto, unfolding(sr_syntax::specs::Expressions::primary))]
    fn primary(&self, tokens: &mut Tokens<'_>) -> Result<Grown, Refusal>
        requires { Nests self.now.depth (F.pre self.now.tree) (F.post self.now.tree) }
        ensures { Reads (spec.primary (grammar.tree self.now.depth) tokens.old) result tokens.new }
    {
        let from = tokens.place();
        match tokens.peek() {
            Sort::This => {
                tokens.take();
                self.complete(tokens, Node::This, from, 0)
            }
            Sort::Identifier => {
                let called = tokens.take_text(self.alloc)?;
                self.complete(tokens, Node::Name(called), from, 0)
            }
            Sort::Null => {
                tokens.take();
                self.complete(tokens, Node::Null, from, 0)
            }
            Sort::True => {
                tokens.take();
                self.complete(tokens, Node::Bool(true), from, 0)
            }
            Sort::False => {
                tokens.take();
                self.complete(tokens, Node::Bool(false), from, 0)
            }
            Sort::Number => {
                let value = tokens.take_number();
                self.complete(tokens, Node::Num(value), from, 0)
            }
            Sort::Text => {
                let value = tokens.take_text(self.alloc)?;
                self.complete(tokens, Node::Text(value), from, 0)
            }
            Sort::TemplateWhole => self.plain_template(tokens, from),
            Sort::TemplateHead => {
                let first = tokens.take_text(self.alloc)?;
                self.template(tokens, from, first)
            }
            Sort::LeftBracket => {
                tokens.take();
                self.array(tokens, from)
            }
            Sort::LeftBrace => {
                tokens.take();
                self.object(tokens, from)
            }
            Sort::Function => {
                tokens.take();
                self.function(tokens, from)
            }
            Sort::LeftParenthesis => {
                tokens.take();
                self.parenthesized(tokens)
            }
            _ => Err(tokens.refuse()),
        }
    }

    /// The arguments of a call and the closing parenthesis (13.3.8).
    #[tactic(auto, unfolding(sr_syntax::specs::Expressions::arguments, sr_syntax::specs::Expressions::arguments_from))]
    fn arguments(&self, tokens: &mut Tokens<'_>) -> Result<Elements, Refusal>
        requires { Nests self.now.depth (F.pre self.now.tree) (F.post self.now.tree) }
        ensures { Reads (spec.arguments (grammar.tree self.now.depth) tokens.old) result tokens.new }
    {
        let mut found = no_elements(self.alloc);
        for _turn in 0..tokens.turns() {
            if tokens.eat(Sort::RightParenthesis) {
                return Ok(found);
            }
            found = self.one_element(tokens, found)?;
            if !tokens.eat(Sort::Comma) {
                tokens.expect(Sort::RightParenthesis)?;
                return Ok(found);
            }
        }
        Err(tokens.refuse())
    }

    /// A property by its name, behind the full stop (13.3.2).
    #[tactic(auto, unfolding(sr_syntax::specs::Operators::member))]
    fn member(&self, tokens: &mut Tokens<'_>, link: Link, of: Grown) -> Result<Grown, Refusal>
        ensures { Reads (operators.member link of tokens.old) result tokens.new }
    {
        let from = of.from();
        let called = property_name(self.alloc, tokens)?;
        self.complete(tokens, Node::Member(link, of.tree, called), from, of.height)
    }

    /// A property by an expression, behind the bracket (13.3.2).
    #[tactic(auto, unfolding(sr_syntax::specs::Expressions::index))]
    fn index(&self, tokens: &mut Tokens<'_>, link: Link, of: Grown) -> Result<Grown, Refusal>
        requires { Nests self.now.depth (F.pre self.now.tree) (F.post self.now.tree) }
        ensures { Reads (spec.index (grammar.tree self.now.depth) link of tokens.old) result tokens.new }
    {
        let from = of.from();
        let x = self.expression(tokens, true)?;
        tokens.expect(Sort::RightBracket)?;
        let tall = of.height.max(x.height);
        self.complete(tokens, Node::Index(link, of.tree, x.tree), from, tall)
    }

    /// A call, behind its first parenthesis (13.3.6).
    #[tactic(auto, unfolding(sr_syntax::specs::Expressions::call))]
    fn call(&self, tokens: &mut Tokens<'_>, link: Link, of: Grown) -> Result<Grown, Refusal>
        requires { Nests self.now.depth (F.pre self.now.tree) (F.post self.now.tree) }
        ensures { Reads (spec.call (grammar.tree self.now.depth) link of tokens.old) result tokens.new }
    {
        let from = of.from();
        let all = self.arguments(tokens)?;
        let node = Node::Call(link, of.tree, all.items);
        self.complete(tokens, node, from, of.height.max(all.tall))
    }

    /// A part of an optional chain, behind its `?.` (13.3.9).
    #[tactic(auto, unfolding(sr_syntax::specs::Expressions::optional))]
    fn optional(&self, tokens: &mut Tokens<'_>, of: Grown) -> Result<Grown, Refusal>
        requires { Nests self.now.depth (F.pre self.now.tree) (F.post self.now.tree) }
        ensures { Reads (spec.optional (grammar.tree self.now.depth) of tokens.old) result tokens.new }
    {
        match tokens.peek() {
            Sort::LeftBracket => {
                tokens.take();
                self.index(tokens, Link::Optional, of)
            }
            Sort::LeftParenthesis => {
                tokens.take();
                self.call(tokens, Link::Optional, of)
            }
            _ => self.member(tokens, Link::Optional, of),
        }
    }

    /// All parts behind a first expression; `?.` is none where `has_optional` is false (13.3).
    #[tactic(auto, unfolding(sr_syntax::specs::Expressions::parts, sr_syntax::specs::Expressions::parts_from))]
    fn parts(
        &self,
        tokens: &mut Tokens<'_>,
        has_optional: bool,
        mut of: Grown,
    ) -> Result<Grown, Refusal>
        requires { Nests self.now.depth (F.pre self.now.tree) (F.post self.now.tree) }
        ensures { Reads (spec.parts (grammar.tree self.now.depth) has_optional of tokens.old) result tokens.new }
    {
        let mut in_chain = false;
        for _turn in 0..tokens.left() {
            match part(has_optional, tokens.peek()) {
                PartSort::Member => {
                    tokens.take();
                    of = self.member(tokens, link_in(in_chain), of)?;
                }
                PartSort::Index => {
                    tokens.take();
                    of = self.index(tokens, link_in(in_chain), of)?;
                }
                PartSort::Call => {
                    tokens.take();
                    of = self.call(tokens, link_in(in_chain), of)?;
                }
                PartSort::Optional => {
                    tokens.take();
                    of = self.optional(tokens, of)?;
                    in_chain = true;
                }
                PartSort::None => return Ok(of),
            }
        }
        Ok(of)
    }

    /// A primary expression or a `new`, and its parts; a `new` without arguments has none (13.3).
    #[tactic(auto, unfolding(sr_syntax::specs::Expressions::left_side))]
    fn left_side(&self, tokens: &mut Tokens<'_>, has_optional: bool) -> Result<Grown, Refusal>
        requires { Nests self.now.depth (F.pre self.now.tree) (F.post self.now.tree) }
        ensures { Reads (spec.left_side (grammar.tree self.now.depth) has_optional tokens.old) result tokens.new }
    {
        if !same_sort(tokens.peek(), Sort::New) {
            let first = self.primary(tokens)?;
            return self.parts(tokens, has_optional, first);
        }
        let first = self.nest(tokens, Goal::New)?;
        if is_bare_new(&first) {
            Ok(first)
        } else {
            self.parts(tokens, has_optional, first)
        }
    }

    /// All parts of a constructor, which are no calls (13.3).
    #[tactic(auto, unfolding(sr_syntax::specs::Expressions::member_parts, sr_syntax::specs::Expressions::member_parts_from))]
    fn member_parts(&self, tokens: &mut Tokens<'_>, mut of: Grown) -> Result<Grown, Refusal>
        requires { Nests self.now.depth (F.pre self.now.tree) (F.post self.now.tree) }
        ensures { Reads (spec.member_parts (grammar.tree self.now.depth) of tokens.old) result tokens.new }
    {
        for _turn in 0..tokens.left() {
            match tokens.peek() {
                Sort::Dot => {
                    tokens.take();
                    of = self.member(tokens, Link::Plain, of)?;
                }
                Sort::LeftBracket => {
                    tokens.take();
                    of = self.index(tokens, Link::Plain, of)?;
                }
                _ => return Ok(of),
            }
        }
        Ok(of)
    }

    /// What `new` makes an object with (13.3.5).
    #[tactic(auto, unfolding(sr_syntax::specs::Expressions::constructor))]
    fn constructor(&self, tokens: &mut Tokens<'_>) -> Result<Grown, Refusal>
        requires { Nests self.now.depth (F.pre self.now.tree) (F.post self.now.tree) }
        ensures { Reads (spec.constructor (grammar.tree self.now.depth) tokens.old) result tokens.new }
    {
        let first = if same_sort(tokens.peek(), Sort::New) {
            self.nest(tokens, Goal::New)?
        } else {
            self.primary(tokens)?
        };
        self.member_parts(tokens, first)
    }

    /// The arguments of a `new`, where they are written (13.3.5).
    #[tactic(auto, unfolding(sr_syntax::specs::Expressions::constructed))]
    fn constructed(&self, tokens: &mut Tokens<'_>, from: usize, of: Grown) -> Result<Grown, Refusal>
        requires { Nests self.now.depth (F.pre self.now.tree) (F.post self.now.tree) }
        ensures { Reads (spec.constructed (grammar.tree self.now.depth) from of tokens.old) result tokens.new }
    {
        if !tokens.eat(Sort::LeftParenthesis) {
            return self.complete(tokens, Node::New(of.tree, None), from, of.height);
        }
        let all = self.arguments(tokens)?;
        let node = Node::New(of.tree, Some(all.items));
        self.complete(tokens, node, from, of.height.max(all.tall))
    }

    /// A `new` (13.3.5).
    #[tactic(auto, unfolding(sr_syntax::specs::Expressions::new_))]
    pub fn new(&self, tokens: &mut Tokens<'_>) -> Result<Grown, Refusal>
        requires { Nests self.now.depth (F.pre self.now.tree) (F.post self.now.tree) }
        ensures { Reads (spec.new_ (grammar.tree self.now.depth) tokens.old) result tokens.new }
    {
        let from = tokens.place();
        tokens.expect(Sort::New)?;
        let of = self.constructor(tokens)?;
        self.constructed(tokens, from, of)
    }

    /// The target of `++` or `--`, which stands before it (13.4).
    #[tactic(auto, unfolding(sr_syntax::specs::Expressions::stepped))]
    fn stepped(&self, tokens: &mut Tokens<'_>, from: usize, op: UpdateOp) -> Result<Grown, Refusal>
        requires { Nests self.now.depth (F.pre self.now.tree) (F.post self.now.tree) }
        ensures { Reads (spec.stepped (grammar.tree self.now.depth) from op tokens.old) result tokens.new }
    {
        let of = self.left_side(tokens, false)?;
        if !is_target(&of) {
            return Err(tokens.refuse());
        }
        self.complete(tokens, Node::Update(op, of.tree), from, of.height)
    }

    /// What may have `++` or `--` behind it (13.4).
    #[tactic(auto, unfolding(sr_syntax::specs::Expressions::step_after))]
    fn step_after(&self, tokens: &mut Tokens<'_>) -> Result<Grown, Refusal>
        requires { Nests self.now.depth (F.pre self.now.tree) (F.post self.now.tree) }
        ensures { Reads (spec.step_after (grammar.tree self.now.depth) tokens.old) result tokens.new }
    {
        let of = self.left_side(tokens, true)?;
        match steps(&of, tokens) {
            Some(op) => {
                tokens.take();
                let from = of.from();
                self.complete(tokens, Node::Update(op, of.tree), from, of.height)
            }
            None => Ok(of),
        }
    }

    /// An operand of `**` (13.4).
    #[tactic(auto, unfolding(sr_syntax::specs::Expressions::update))]
    fn update(&self, tokens: &mut Tokens<'_>) -> Result<Grown, Refusal>
        requires { Nests self.now.depth (F.pre self.now.tree) (F.post self.now.tree) }
        ensures { Reads (spec.update (grammar.tree self.now.depth) tokens.old) result tokens.new }
    {
        let from = tokens.place();
        match update_before(tokens.peek()) {
            Some(op) => {
                tokens.take();
                self.stepped(tokens, from, op)
            }
            None => self.step_after(tokens),
        }
    }

    /// An operator and its operand, or an operand of `**` (13.5).
    #[tactic(auto, unfolding(sr_syntax::specs::Expressions::unary_))]
    pub fn unary(&self, tokens: &mut Tokens<'_>) -> Result<Grown, Refusal>
        requires { Nests self.now.depth (F.pre self.now.tree) (F.post self.now.tree) }
        ensures { Reads (spec.unary_ (grammar.tree self.now.depth) tokens.old) result tokens.new }
    {
        let from = tokens.place();
        match prefix(tokens.peek()) {
            Some(op) => {
                tokens.take();
                let x = self.nest(tokens, Goal::Unary)?;
                self.complete(tokens, Node::Unary(op, x.tree), from, x.height)
            }
            None => self.update(tokens),
        }
    }

    /// `**` and its right operand, if they come next.
    #[tactic(auto, unfolding(sr_syntax::specs::Expressions::raised))]
    fn raised(&self, tokens: &mut Tokens<'_>, base: Grown) -> Result<Grown, Refusal>
        requires { Nests self.now.depth (F.pre self.now.tree) (F.post self.now.tree) }
        ensures { Reads (spec.raised (grammar.tree self.now.depth) base tokens.old) result tokens.new }
    {
        if !tokens.eat(Sort::Power) {
            return Ok(base);
        }
        let x = self.nest(tokens, Goal::Power)?;
        self.joined(tokens, Sort::Power, base, x)
    }

    /// A power; an operator with its operand is no base of one (13.6).
    #[tactic(auto, unfolding(sr_syntax::specs::Expressions::power))]
    pub fn power(&self, tokens: &mut Tokens<'_>) -> Result<Grown, Refusal>
        requires { Nests self.now.depth (F.pre self.now.tree) (F.post self.now.tree) }
        ensures { Reads (spec.power (grammar.tree self.now.depth) tokens.old) result tokens.new }
    {
        let sort = tokens.peek();
        let base = self.nest(tokens, Goal::Unary)?;
        if is_prefix(sort) {
            return Ok(base);
        }
        self.raised(tokens, base)
    }

    /// Two operands and the operator between them.
    #[tactic(auto, unfolding(sr_syntax::specs::Operators::joined))]
    fn joined(&self, tokens: &Tokens<'_>, sort: Sort, x: Grown, y: Grown) -> Result<Grown, Refusal>
        ensures { Reads (operators.joined sort x y tokens.now) result tokens.now }
    {
        let from = x.from();
        self.complete(
            tokens,
            joined_node(sort, x.tree, y.tree),
            from,
            x.height.max(y.height),
        )
    }

    /// The operators of one row behind a first operand, with the operands between them, which are of the rows up to `tighter`.
    #[cycle(binary)]
    #[tactic(auto, unfolding(sr_syntax::specs::Operators::row_of, sr_syntax::specs::Operators::row_from))]
    fn row(
        &self,
        tokens: &mut Tokens<'_>,
        has_in: bool,
        tighter: u8,
        level: u8,
        mut x: Grown,
    ) -> Result<Grown, Refusal>
        requires { Nests self.now.depth (F.pre self.now.tree) (F.post self.now.tree) }
        ensures { Reads (operators.row_of has_in (spec.binary_ (grammar.tree self.now.depth) has_in tighter) level x tokens.old) result tokens.new }
    {
        for _turn in 0..tokens.left() {
            let sort = tokens.peek();
            if !is_in(has_in, level, sort) {
                return Ok(x);
            }
            tokens.take();
            let y = self.binary(tokens, has_in, tighter)?;
            x = self.joined(tokens, sort, x, y)?;
        }
        Ok(x)
    }

    /// The operators of all rows up to this one, to the left (13.6 to 13.13).
    #[cycle(binary)]
    #[tactic(auto, unfolding(sr_syntax::specs::Expressions::binary_))]
    fn binary(&self, tokens: &mut Tokens<'_>, has_in: bool, level: u8) -> Result<Grown, Refusal>
        requires { Nests self.now.depth (F.pre self.now.tree) (F.post self.now.tree) }
        ensures { Reads (spec.binary_ (grammar.tree self.now.depth) has_in level tokens.old) result tokens.new }
    {
        let mut x = self.nest(tokens, Goal::Power)?;
        for tighter in 0..level {
            x = self.row(tokens, has_in, tighter, tighter + 1, x)?;
        }
        Ok(x)
    }

    /// `&&` and then `||`, behind their first operand (13.13).
    #[tactic(auto, unfolding(sr_syntax::specs::Expressions::either))]
    fn either(&self, tokens: &mut Tokens<'_>, has_in: bool, x: Grown) -> Result<Grown, Refusal>
        requires { Nests self.now.depth (F.pre self.now.tree) (F.post self.now.tree) }
        ensures { Reads (spec.either (grammar.tree self.now.depth) has_in x tokens.old) result tokens.new }
    {
        let both = self.row(tokens, has_in, BIT_OR_ROW, AND_ROW, x)?;
        self.row(tokens, has_in, AND_ROW, OR_ROW, both)
    }

    /// `??` between operands, or `||` and `&&` (13.13).
    #[tactic(auto, unfolding(sr_syntax::specs::Expressions::short_circuit))]
    fn short_circuit(&self, tokens: &mut Tokens<'_>, has_in: bool) -> Result<Grown, Refusal>
        requires { Nests self.now.depth (F.pre self.now.tree) (F.post self.now.tree) }
        ensures { Reads (spec.short_circuit (grammar.tree self.now.depth) has_in tokens.old) result tokens.new }
    {
        let first = self.binary(tokens, has_in, BIT_OR_ROW)?;
        if same_sort(tokens.peek(), Sort::Coalesce) {
            self.row(tokens, has_in, BIT_OR_ROW, COALESCE_ROW, first)
        } else {
            self.either(tokens, has_in, first)
        }
    }

    /// The last operand of a conditional.
    #[tactic(auto, unfolding(sr_syntax::specs::Expressions::otherwise))]
    fn otherwise(
        &self,
        tokens: &mut Tokens<'_>,
        has_in: bool,
        test: Grown,
        one: Grown,
    ) -> Result<Grown, Refusal>
        requires { Nests self.now.depth (F.pre self.now.tree) (F.post self.now.tree) }
        ensures { Reads (spec.otherwise (grammar.tree self.now.depth) has_in test one tokens.old) result tokens.new }
    {
        let other = self.nest(tokens, assign_goal(has_in))?;
        let from = test.from();
        let tall = tallest(test.height, one.height, other.height);
        self.complete(
            tokens,
            Node::Cond(test.tree, one.tree, other.tree),
            from,
            tall,
        )
    }

    /// A conditional, behind its `?`.
    #[tactic(auto, unfolding(sr_syntax::specs::Expressions::chosen))]
    fn chosen(&self, tokens: &mut Tokens<'_>, has_in: bool, test: Grown) -> Result<Grown, Refusal>
        requires { Nests self.now.depth (F.pre self.now.tree) (F.post self.now.tree) }
        ensures { Reads (spec.chosen (grammar.tree self.now.depth) has_in test tokens.old) result tokens.new }
    {
        let one = self.nest(tokens, Goal::Assign)?;
        tokens.expect(Sort::Colon)?;
        self.otherwise(tokens, has_in, test, one)
    }

    /// A conditional, or its first operand alone (13.14).
    #[tactic(auto, unfolding(sr_syntax::specs::Expressions::cond_))]
    fn cond(&self, tokens: &mut Tokens<'_>, has_in: bool) -> Result<Grown, Refusal>
        requires { Nests self.now.depth (F.pre self.now.tree) (F.post self.now.tree) }
        ensures { Reads (spec.cond_ (grammar.tree self.now.depth) has_in tokens.old) result tokens.new }
    {
        let test = self.short_circuit(tokens, has_in)?;
        if tokens.eat(Sort::Question) {
            self.chosen(tokens, has_in, test)
        } else {
            Ok(test)
        }
    }

    /// An assignment, or what could be its target (13.15).
    #[tactic(auto, unfolding(sr_syntax::specs::Expressions::assign_or_cond))]
    fn assign_or_cond(&self, tokens: &mut Tokens<'_>, has_in: bool) -> Result<Grown, Refusal>
        requires { Nests self.now.depth (F.pre self.now.tree) (F.post self.now.tree) }
        ensures { Reads (spec.assign_or_cond (grammar.tree self.now.depth) has_in tokens.old) result tokens.new }
    {
        let start = tokens.place();
        let target = self.cond(tokens, has_in)?;
        match assigns(&target, tokens) {
            Some(op) => {
                tokens.take();
                let value = self.nest(tokens, assign_goal(has_in))?;
                let from = target.from();
                let tall = target.height.max(value.height);
                let is_named = gives_name(start, &target);
                let node = Node::Assign(op, target.tree, value.tree, is_named);
                self.complete(tokens, node, from, tall)
            }
            None => Ok(target),
        }
    }
    /// An arrow function, an assignment, or what could be its target (13.15).
    #[tactic(auto, unfolding(sr_syntax::specs::Expressions::assign))]
    pub fn assign(&self, tokens: &mut Tokens<'_>, has_in: bool) -> Result<Grown, Refusal>
        requires { Nests self.now.depth (F.pre self.now.tree) (F.post self.now.tree) }
        ensures { Reads (spec.assign (grammar.tree self.now.depth) has_in tokens.old) result tokens.new }
    {
        if begins_arrow(tokens) {
            self.arrow(tokens, has_in)
        } else {
            self.assign_or_cond(tokens, has_in)
        }
    }
}
