ghost use Rattle.std.specs.Prelude.{◌≡◌};
ghost use Rattle.sr_syntax.specs.Input.{Reads};
ghost use Rattle.sr_syntax.specs.Operators as spec;
ghost use Rattle.sr_syntax.specs.Bodies as bodies;

use crate::refusal::Refusal;
use crate::sorts::Sort;
use crate::tokens::Tokens;
use sr_ast::Binding;
use sr_text::Str;
use std::alloc::Global;

/// A name that is not reserved (ECMA-262 13.1).
#[tactic(auto, unfolding(crate::specs::Operators::name))]
pub fn name(alloc: Global, tokens: &mut Tokens<'_>) -> Result<Str, Refusal>
    ensures { Reads (spec.name tokens.old) result tokens.new }
{
    if tokens.sees(Sort::Identifier) {
        tokens.take_text(alloc)
    } else {
        Err(tokens.refuse())
    }
}

/// A name, reserved or not, as that of a property (12.7).
#[tactic(auto, unfolding(crate::specs::Operators::property_name))]
pub fn property_name(alloc: Global, tokens: &mut Tokens<'_>) -> Result<Str, Refusal>
    ensures { Reads (spec.property_name tokens.old) result tokens.new }
{
    if tokens.sees_word() {
        tokens.take_text(alloc)
    } else {
        Err(tokens.refuse())
    }
}

/// A name that is bound, with its place (ECMA-262 13.1).
#[tactic(auto, unfolding(crate::specs::Bodies::binding))]
pub fn binding(alloc: Global, tokens: &mut Tokens<'_>) -> Result<Binding, Refusal>
    ensures { Reads (bodies.binding tokens.old) result tokens.new }
{
    let from = tokens.place();
    let name = name(alloc, tokens)?;
    Ok(Binding { name, from })
}

/// The name of a function, or none (15.2).
#[tactic(auto, unfolding(crate::specs::Bodies::binding_if_there))]
pub fn binding_if_there(alloc: Global, tokens: &mut Tokens<'_>) -> Result<Option<Binding>, Refusal>
    ensures { Reads (bodies.binding_if_there tokens.old) result tokens.new }
{
    if tokens.sees(Sort::Identifier) {
        Ok(Some(binding(alloc, tokens)?))
    } else {
        Ok(None)
    }
}

/// Parentheses with one name in them, as those of a setter and of `catch` (15.4, 14.15).
#[tactic(auto, unfolding(crate::specs::Bodies::one_parameter))]
pub fn one_parameter(alloc: Global, tokens: &mut Tokens<'_>) -> Result<Binding, Refusal>
    ensures { Reads (bodies.one_parameter tokens.old) result tokens.new }
{
    tokens.expect(Sort::LeftParenthesis)?;
    let name = binding(alloc, tokens)?;
    tokens.expect(Sort::RightParenthesis)?;
    Ok(name)
}
