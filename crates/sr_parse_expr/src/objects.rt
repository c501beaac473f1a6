ghost use Rattle.sr_syntax.specs.Input.{Reads};
ghost use Rattle.sr_syntax.specs.Objects as spec;
ghost use Rattle.sr_syntax.specs.Grammar as grammar;
ghost use Rattle.sr_syntax.specs.Nests.{Nests};

use crate::grammar::Grammar;
use sr_ast::{Node, Property, PropertyName};
use sr_syntax::bodies::{no_parameters, parameter_list};
use sr_syntax::grown::{Accessor, Goal, Grown, Properties};
use sr_syntax::names::one_parameter;
use sr_syntax::objects::{accessor_word, is_proto, key, no_properties, sees_key, with_property};
use sr_syntax::refusal::Refusal;
use sr_syntax::sorts::Sort;
use sr_syntax::tokens::Tokens;
use sr_text::Str;
use std::alloc::Global;

impl<F: Fn(Global, &mut Tokens<'_>, usize, Goal) -> Result<Grown, Refusal>> Grammar<F> {
    /// The value behind a key and its colon (ECMA-262 13.2.5).
    #[tactic(auto, unfolding(sr_syntax::specs::Objects::value_of_key))]
    fn value_of_key(
        &self,
        tokens: &mut Tokens<'_>,
        called: PropertyName,
    ) -> Result<(Property, usize), Refusal>
        requires { Nests self.now.depth (F.pre self.now.tree) (F.post self.now.tree) }
        ensures { Reads (spec.value_of_key (grammar.tree self.now.depth) called tokens.old) result tokens.new }
    {
        let x = self.nest(tokens, Goal::Assign)?;
        Ok((Property::Named(called, x.tree), x.height))
    }

    /// The parameters and the body of a method (15.4).
    #[tactic(auto, unfolding(sr_syntax::specs::Objects::method))]
    fn method(
        &self,
        tokens: &mut Tokens<'_>,
        from: usize,
        called: PropertyName,
    ) -> Result<(Property, usize), Refusal>
        requires { Nests self.now.depth (F.pre self.now.tree) (F.post self.now.tree) }
        ensures { Reads (spec.method (grammar.tree self.now.depth) from called tokens.old) result tokens.new }
    {
        let parameters = parameter_list(self.alloc, tokens)?;
        let all = self.body(tokens)?;
        let node = Node::Method(called, parameters, all.trees);
        let x = self.complete(tokens, node, from, all.tall)?;
        Ok((Property::Method(x.tree), x.height))
    }

    /// What stands behind a key: a value, or the parameters and the body of a method.
    #[tactic(auto, unfolding(sr_syntax::specs::Objects::keyed))]
    fn keyed(
        &self,
        tokens: &mut Tokens<'_>,
        from: usize,
        called: PropertyName,
    ) -> Result<(Property, usize), Refusal>
        requires { Nests self.now.depth (F.pre self.now.tree) (F.post self.now.tree) }
        ensures { Reads (spec.keyed (grammar.tree self.now.depth) from called tokens.old) result tokens.new }
    {
        if tokens.sees(Sort::LeftParenthesis) {
            self.method(tokens, from, called)
        } else if tokens.sees(Sort::Colon) && !is_proto(&called) {
            tokens.take();
            self.value_of_key(tokens, called)
        } else {
            Err(tokens.refuse())
        }
    }

    /// A name alone, whose value is that of the name (13.2.5).
    #[tactic(auto, unfolding(sr_syntax::specs::Objects::shorthand))]
    fn shorthand(
        &self,
        tokens: &Tokens<'_>,
        from: usize,
        called: Str,
    ) -> Result<(Property, usize), Refusal>
        ensures { Reads (spec.shorthand from called tokens.now) result tokens.now }
    {
        let name = called.clone()?;
        let x = self.complete(tokens, Node::Name(called), from, 0)?;
        let called = PropertyName::Text(name);
        Ok((Property::Named(called, x.tree), x.height))
    }

    /// What stands behind a name that is not reserved, which may stand alone.
    #[tactic(auto, unfolding(sr_syntax::specs::Objects::named_property))]
    fn named_property(
        &self,
        tokens: &mut Tokens<'_>,
        from: usize,
        called: Str,
    ) -> Result<(Property, usize), Refusal>
        requires { Nests self.now.depth (F.pre self.now.tree) (F.post self.now.tree) }
        ensures { Reads (spec.named_property (grammar.tree self.now.depth) from called tokens.old) result tokens.new }
    {
        if tokens.sees(Sort::LeftParenthesis) || tokens.sees(Sort::Colon) {
            self.keyed(tokens, from, PropertyName::Text(called))
        } else {
            self.shorthand(tokens, from, called)
        }
    }

    /// The value behind a key that is an expression, and its colon (13.2.5).
    #[tactic(auto, unfolding(sr_syntax::specs::Objects::computed_value))]
    fn computed_value(
        &self,
        tokens: &mut Tokens<'_>,
        x: Grown,
    ) -> Result<(Property, usize), Refusal>
        requires { Nests self.now.depth (F.pre self.now.tree) (F.post self.now.tree) }
        ensures { Reads (spec.computed_value (grammar.tree self.now.depth) x tokens.old) result tokens.new }
    {
        let y = self.nest(tokens, Goal::Assign)?;
        let tall = x.height.max(y.height);
        Ok((Property::Computed(x.tree, y.tree), tall))
    }

    /// The parameters and the body of a method whose key is an expression (15.4).
    #[tactic(auto, unfolding(sr_syntax::specs::Objects::computed_method))]
    fn computed_method(
        &self,
        tokens: &mut Tokens<'_>,
        from: usize,
        x: Grown,
    ) -> Result<(Property, usize), Refusal>
        requires { Nests self.now.depth (F.pre self.now.tree) (F.post self.now.tree) }
        ensures { Reads (spec.computed_method (grammar.tree self.now.depth) from x tokens.old) result tokens.new }
    {
        let parameters = parameter_list(self.alloc, tokens)?;
        let all = self.body(tokens)?;
        let tall = x.height.max(all.tall);
        let node = Node::ComputedMethod(x.tree, parameters, all.trees);
        let y = self.complete(tokens, node, from, tall)?;
        Ok((Property::Method(y.tree), y.height))
    }

    /// What stands behind a key that is an expression, and its bracket.
    #[tactic(auto, unfolding(sr_syntax::specs::Objects::computed_end))]
    fn computed_end(
        &self,
        tokens: &mut Tokens<'_>,
        from: usize,
        x: Grown,
    ) -> Result<(Property, usize), Refusal>
        requires { Nests self.now.depth (F.pre self.now.tree) (F.post self.now.tree) }
        ensures { Reads (spec.computed_end (grammar.tree self.now.depth) from x tokens.old) result tokens.new }
    {
        if tokens.sees(Sort::LeftParenthesis) {
            return self.computed_method(tokens, from, x);
        }
        tokens.expect(Sort::Colon)?;
        self.computed_value(tokens, x)
    }

    /// A property whose key is an expression, behind its first bracket.
    #[tactic(auto, unfolding(sr_syntax::specs::Objects::computed))]
    fn computed(&self, tokens: &mut Tokens<'_>, from: usize) -> Result<(Property, usize), Refusal>
        requires { Nests self.now.depth (F.pre self.now.tree) (F.post self.now.tree) }
        ensures { Reads (spec.computed (grammar.tree self.now.depth) from tokens.old) result tokens.new }
    {
        let x = self.nest(tokens, Goal::Assign)?;
        tokens.expect(Sort::RightBracket)?;
        self.computed_end(tokens, from, x)
    }

    /// A getter, behind `get` (15.4).
    #[tactic(auto, unfolding(sr_syntax::specs::Objects::getter))]
    fn getter(&self, tokens: &mut Tokens<'_>, from: usize) -> Result<(Property, usize), Refusal>
        requires { Nests self.now.depth (F.pre self.now.tree) (F.post self.now.tree) }
        ensures { Reads (spec.getter (grammar.tree self.now.depth) from tokens.old) result tokens.new }
    {
        let called = key(self.alloc, tokens)?;
        no_parameters(tokens)?;
        let all = self.body(tokens)?;
        let node = Node::Getter(called, all.trees);
        let x = self.complete(tokens, node, from, all.tall)?;
        Ok((Property::Method(x.tree), x.height))
    }

    /// A setter, behind `set` (15.4).
    #[tactic(auto, unfolding(sr_syntax::specs::Objects::setter))]
    fn setter(&self, tokens: &mut Tokens<'_>, from: usize) -> Result<(Property, usize), Refusal>
        requires { Nests self.now.depth (F.pre self.now.tree) (F.post self.now.tree) }
        ensures { Reads (spec.setter (grammar.tree self.now.depth) from tokens.old) result tokens.new }
    {
        let called = key(self.alloc, tokens)?;
        let parameter = one_parameter(self.alloc, tokens)?;
        let all = self.body(tokens)?;
        let node = Node::Setter(called, parameter, all.trees);
        let x = self.complete(tokens, node, from, all.tall)?;
        Ok((Property::Method(x.tree), x.height))
    }

    /// Behind `get` or `set`: an accessor where a key comes next, and else a property of that name (15.4).
    #[tactic(auto, unfolding(sr_syntax::specs::Objects::accessor_or_name))]
    fn accessor_or_name(
        &self,
        tokens: &mut Tokens<'_>,
        from: usize,
        which: Accessor,
        called: Str,
    ) -> Result<(Property, usize), Refusal>
        requires { Nests self.now.depth (F.pre self.now.tree) (F.post self.now.tree) }
        ensures { Reads (spec.accessor_or_name (grammar.tree self.now.depth) from which called tokens.old) result tokens.new }
    {
        if !sees_key(tokens) {
            return self.named_property(tokens, from, called);
        }
        match which {
            Accessor::Getter => self.getter(tokens, from),
            Accessor::Setter => self.setter(tokens, from),
        }
    }

    /// The properties of an object, behind `...` (13.2.5).
    #[tactic(auto, unfolding(sr_syntax::specs::Objects::spread_property))]
    fn spread_property(&self, tokens: &mut Tokens<'_>) -> Result<(Property, usize), Refusal>
        requires { Nests self.now.depth (F.pre self.now.tree) (F.post self.now.tree) }
        ensures { Reads (spec.spread_property (grammar.tree self.now.depth) tokens.old) result tokens.new }
    {
        let x = self.nest(tokens, Goal::Assign)?;
        Ok((Property::Spread(x.tree), x.height))
    }

    /// A property that begins with neither `get` nor `set`.
    #[tactic(auto, unfolding(sr_syntax::specs::Objects::plain_property))]
    fn plain_property(
        &self,
        tokens: &mut Tokens<'_>,
        from: usize,
    ) -> Result<(Property, usize), Refusal>
        requires { Nests self.now.depth (F.pre self.now.tree) (F.post self.now.tree) }
        ensures { Reads (spec.plain_property (grammar.tree self.now.depth) from tokens.old) result tokens.new }
    {
        match tokens.peek() {
            Sort::Ellipsis => {
                tokens.take();
                self.spread_property(tokens)
            }
            Sort::LeftBracket => {
                tokens.take();
                self.computed(tokens, from)
            }
            Sort::Identifier => {
                let called = tokens.take_text(self.alloc)?;
                self.named_property(tokens, from, called)
            }
            _ => {
                let called = key(self.alloc, tokens)?;
                self.keyed(tokens, from, called)
            }
        }
    }

    /// What stands between the commas of an object literal (13.2.5).
    #[tactic(auto, unfolding(sr_syntax::specs::Objects::one_property))]
    fn one_property(&self, tokens: &mut Tokens<'_>) -> Result<(Property, usize), Refusal>
        requires { Nests self.now.depth (F.pre self.now.tree) (F.post self.now.tree) }
        ensures { Reads (spec.one_property (grammar.tree self.now.depth) tokens.old) result tokens.new }
    {
        let from = tokens.place();
        match accessor_word(tokens) {
            Some(which) => {
                let called = tokens.take_text(self.alloc)?;
                self.accessor_or_name(tokens, from, which, called)
            }
            None => self.plain_property(tokens, from),
        }
    }

    /// The properties of an object literal and the closing brace.
    #[tactic(auto, unfolding(sr_syntax::specs::Objects::properties, sr_syntax::specs::Objects::properties_from))]
    fn properties(&self, tokens: &mut Tokens<'_>) -> Result<Properties, Refusal>
        requires { Nests self.now.depth (F.pre self.now.tree) (F.post self.now.tree) }
        ensures { Reads (spec.properties (grammar.tree self.now.depth) tokens.old) result tokens.new }
    {
        let mut found = no_properties(self.alloc);
        for _turn in 0..tokens.turns() {
            if tokens.eat(Sort::RightBrace) {
                return Ok(found);
            }
            found = with_property(found, self.one_property(tokens)?)?;
            if !tokens.eat(Sort::Comma) {
                tokens.expect(Sort::RightBrace)?;
                return Ok(found);
            }
        }
        Err(tokens.refuse())
    }

    /// An object literal, behind its first brace (13.2.5).
    #[tactic(auto, unfolding(sr_syntax::specs::Objects::object))]
    pub fn object(&self, tokens: &mut Tokens<'_>, from: usize) -> Result<Grown, Refusal>
        requires { Nests self.now.depth (F.pre self.now.tree) (F.post self.now.tree) }
        ensures { Reads (spec.object (grammar.tree self.now.depth) from tokens.old) result tokens.new }
    {
        let all = self.properties(tokens)?;
        self.complete(tokens, Node::Object(all.items), from, all.tall)
    }
}
