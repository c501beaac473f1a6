ghost use Rattle.std.specs.Prelude.{◌≡◌, IfOk};
ghost use Rattle.sr_syntax.specs.Input.{Reads};
ghost use Rattle.sr_syntax.specs.Objects as spec;

use crate::grown::{Accessor, Properties};
use crate::refusal::Refusal;
use crate::sorts::Sort;
use crate::tokens::Tokens;
use sqlite_items::Items;
use sr_ast::{Property, PropertyName};
use sr_text::spells;
use std::alloc::{AllocError, Global};

/// Whether a key is `__proto__`, which before a `:` is no key of the grammar (ECMA-262 B.3.1).
pub fn is_proto(called: &PropertyName) -> bool
    ensures { result ≡ spec.is_proto called.now }
{
    match called {
        PropertyName::Text(text) => spells(text.units(), b"__proto__"),
        PropertyName::Number(_) => false,
    }
}

/// No properties.
pub fn no_properties(alloc: Global) -> Properties
    ensures { result ≡ spec.no_properties }
{
    Properties {
        items: Items::new(alloc),
        tall: 0,
    }
}

/// Properties and one more, with its depth.
pub fn with_property(mut all: Properties, one: (Property, usize)) -> Result<Properties, AllocError>
    ensures { IfOk result (λ r. r ≡ spec.with_property all one) }
{
    all.items.push(one.0)?;
    Ok(Properties {
        items: all.items,
        tall: all.tall.max(one.1),
    })
}

/// A key that is a text.
fn text_key(alloc: Global, tokens: &mut Tokens<'_>) -> Result<PropertyName, Refusal>
    ensures { Reads (spec.text_key tokens.old) result tokens.new }
{
    Ok(PropertyName::Text(tokens.take_text(alloc)?))
}

/// A key: a name, reserved or not, a string literal or a number literal (13.2.5).
#[tactic(auto, unfolding(crate::specs::Objects::key))]
pub fn key(alloc: Global, tokens: &mut Tokens<'_>) -> Result<PropertyName, Refusal>
    ensures { Reads (spec.key tokens.old) result tokens.new }
{
    if tokens.sees_word() {
        return text_key(alloc, tokens);
    }
    match tokens.peek() {
        Sort::Text => text_key(alloc, tokens),
        Sort::Number => Ok(PropertyName::Number(tokens.take_number())),
        _ => Err(tokens.refuse()),
    }
}

/// Whether a key comes next.
#[tactic(auto, unfolding(crate::specs::Objects::sees_key))]
pub fn sees_key(tokens: &Tokens<'_>) -> bool
    ensures { result ≡ spec.sees_key tokens.now }
{
    tokens.sees_word() || tokens.sees(Sort::Text) || tokens.sees(Sort::Number)
}

/// `get` or `set`, where it comes next (15.4).
#[tactic(auto, unfolding(crate::specs::Objects::accessor_word))]
pub fn accessor_word(tokens: &Tokens<'_>) -> Option<Accessor>
    ensures { result ≡ spec.accessor_word tokens.now }
{
    if tokens.sees_text(b"get") {
        Some(Accessor::Getter)
    } else if tokens.sees_text(b"set") {
        Some(Accessor::Setter)
    } else {
        None
    }
}
