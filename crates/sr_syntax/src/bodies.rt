ghost use Rattle.std.specs.Prelude.{◌≡◌};
ghost use Rattle.sr_syntax.specs.Input.{Reads};
ghost use Rattle.sr_syntax.specs.Bodies as spec;

use crate::grown::{Grove, OpenFunction};
use crate::names::binding;
use crate::refusal::Refusal;
use crate::sorts::{Sort, same_sort};
use crate::tokens::Tokens;
use sqlite_items::Items;
use sr_ast::{Binding, Parameters};
use std::alloc::Global;

/// The last parameter, behind its `...`, and the closing parenthesis (15.1).
#[tactic(auto, unfolding(crate::specs::Bodies::rest_parameter))]
fn rest_parameter(
    alloc: Global,
    tokens: &mut Tokens<'_>,
    names: Items<Binding>,
) -> Result<Parameters, Refusal>
    ensures { Reads (spec.rest_parameter names tokens.old) result tokens.new }
{
    let last = binding(alloc, tokens)?;
    tokens.expect(Sort::RightParenthesis)?;
    Ok(Parameters {
        names,
        rest: Some(last),
    })
}

/// Parameters and the closing parenthesis (15.1).
#[tactic(auto, unfolding(crate::specs::Bodies::parameters, crate::specs::Bodies::parameters_from))]
fn parameters(alloc: Global, tokens: &mut Tokens<'_>) -> Result<Parameters, Refusal>
    ensures { Reads (spec.parameters tokens.old) result tokens.new }
{
    let mut names = Items::new(alloc);
    for _turn in 0..tokens.turns() {
        if tokens.eat(Sort::RightParenthesis) {
            return Ok(Parameters { names, rest: None });
        }
        if tokens.eat(Sort::Ellipsis) {
            return rest_parameter(alloc, tokens, names);
        }
        names.push(binding(alloc, tokens)?)?;
        if !tokens.eat(Sort::Comma) {
            tokens.expect(Sort::RightParenthesis)?;
            return Ok(Parameters { names, rest: None });
        }
    }
    Err(tokens.refuse())
}

/// Parameters in parentheses (15.1).
#[tactic(auto, unfolding(crate::specs::Bodies::parameter_list))]
pub fn parameter_list(alloc: Global, tokens: &mut Tokens<'_>) -> Result<Parameters, Refusal>
    ensures { Reads (spec.parameter_list tokens.old) result tokens.new }
{
    tokens.expect(Sort::LeftParenthesis)?;
    parameters(alloc, tokens)
}

/// Parentheses with no parameter in them, as those of a getter (15.4).
#[tactic(auto, unfolding(crate::specs::Bodies::no_parameters))]
pub fn no_parameters(tokens: &mut Tokens<'_>) -> Result<(), Refusal>
    ensures { Reads (spec.no_parameters tokens.old) result tokens.new }
{
    tokens.expect(Sort::LeftParenthesis)?;
    tokens.expect(Sort::RightParenthesis)
}

/// `=>`, with no line end before it (15.3).
#[tactic(auto, unfolding(crate::specs::Bodies::arrow_token))]
pub fn arrow_token(tokens: &mut Tokens<'_>) -> Result<(), Refusal>
    ensures { Reads (spec.arrow_token tokens.old) result tokens.new }
{
    if tokens.sees(Sort::Arrow) && !tokens.line_before() {
        tokens.take();
        Ok(())
    } else {
        Err(tokens.refuse())
    }
}

/// The parameter of an arrow function that stands in no parentheses (15.3).
#[tactic(auto, unfolding(crate::specs::Bodies::arrow_parameter))]
fn arrow_parameter(alloc: Global, tokens: &mut Tokens<'_>) -> Result<Parameters, Refusal>
    ensures { Reads (spec.arrow_parameter tokens.old) result tokens.new }
{
    let name = binding(alloc, tokens)?;
    let mut names = Items::new(alloc);
    names.push(name)?;
    Ok(Parameters { names, rest: None })
}

/// The parameters of an arrow function: a name, or parameters in parentheses (15.3).
#[tactic(auto, unfolding(crate::specs::Bodies::arrow_parameters))]
pub fn arrow_parameters(alloc: Global, tokens: &mut Tokens<'_>) -> Result<Parameters, Refusal>
    ensures { Reads (spec.arrow_parameters tokens.old) result tokens.new }
{
    if tokens.sees(Sort::LeftParenthesis) {
        parameter_list(alloc, tokens)
    } else {
        arrow_parameter(alloc, tokens)
    }
}

/// Whether an arrow function begins here: with a name before `=>`, or a parenthesis of which the closing one stands before it.
#[tactic(auto, unfolding(crate::specs::Bodies::begins_arrow))]
pub fn begins_arrow(tokens: &Tokens<'_>) -> bool
    ensures { result ≡ spec.begins_arrow tokens.now }
{
    (tokens.sees(Sort::Identifier) || tokens.sees(Sort::LeftParenthesis))
        && same_sort(tokens.ahead(), Sort::Arrow)
}

/// A function declaration up to the brace of its body, behind `function`, with the items before it (15.2).
#[tactic(auto, unfolding(crate::specs::Bodies::opened))]
pub fn opened(
    alloc: Global,
    tokens: &mut Tokens<'_>,
    from: usize,
    before: Grove,
) -> Result<OpenFunction, Refusal>
    ensures { Reads (spec.opened from before tokens.old) result tokens.new }
{
    let name = binding(alloc, tokens)?;
    let parameters = parameter_list(alloc, tokens)?;
    tokens.expect(Sort::LeftBrace)?;
    Ok(OpenFunction {
        from,
        name,
        parameters,
        before,
    })
}
