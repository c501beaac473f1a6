ghost use Rattle.std.specs.Prelude.{◌≡◌, ◌++◌, OnOk};
ghost use Rattle.sr_early.specs.Faults as spec;

use sqlite_items::Items;
use sr_ast::{Binding, Declaration, LexicalKind, Parameters, Tree};
use sr_names::places::put_if;
use sr_names::scopes::{self, Table};
use sr_names::{names, strictness};
use sr_shared::Shared;
use std::alloc::{AllocError, Global};

/// Notes the parameters that stand twice, where they may not (ECMA-262 15.1.1).
fn distinct_parameters(
    alloc: Global,
    places: &mut Items<usize>,
    distinct: bool,
    parameters: &Parameters,
) -> Result<(), AllocError>
    ensures { OnOk result (places.new ≡ places.old ++ spec.distinct_faults distinct parameters.now) }
{
    if distinct || parameters.rest.is_some() {
        Table::noting(alloc, places, names::parameter_names(alloc, parameters)?)?;
    }
    Ok(())
}

/// Notes what is wrong with the names of a function and of its parameters, where its own code is strict or not (15.2.1).
pub fn head(
    alloc: Global,
    places: &mut Items<usize>,
    strict: bool,
    distinct: bool,
    called: &Option<Binding>,
    parameters: &Parameters,
) -> Result<(), AllocError>
    ensures { OnOk result (places.new ≡ places.old ++ spec.head_faults strict distinct called.now parameters.now) }
{
    strictness::binding_if_there(places, strict, called)?;
    strictness::bindings(places, strict, parameters.names.as_slice())?;
    strictness::binding_if_there(places, strict, &parameters.rest)?;
    distinct_parameters(alloc, places, strict || distinct, parameters)
}

/// Notes `use strict` at its place, beside a parameter after `...` (15.2.1).
pub fn directive_beside_rest(
    places: &mut Items<usize>,
    rest: &Option<Binding>,
    directive: Option<usize>,
) -> Result<(), AllocError>
    ensures { OnOk result (places.new ≡ places.old ++ spec.directive_faults rest.now directive) }
{
    match (rest, directive) {
        (Some(_), Some(at)) => places.push(at),
        _ => Ok(()),
    }
}

/// Notes the names of a body that are declared twice in it, or declared lexically and parameters too (15.2.1).
pub fn body_names(
    alloc: Global,
    places: &mut Items<usize>,
    parameters: &Parameters,
    items: &[Shared<Tree>],
    by_var: &[Binding],
) -> Result<(), AllocError>
    ensures { OnOk result (places.new ≡ places.old ++ spec.body_with by_var.now parameters.now items.now) }
{
    let declared = names::top_names(alloc, items)?;
    let bound = Table::new(alloc, names::parameter_names(alloc, parameters)?)?;
    scopes::among(places, &bound, declared.as_slice())?;
    scopes::scope(alloc, places, declared, by_var)
}

/// Notes the names of declarations that have no value.
fn without_value(places: &mut Items<usize>, declarations: &[Declaration]) -> Result<(), AllocError>
    ensures { OnOk result (places.new ≡ places.old ++ spec.without_value declarations.now) }
{
    for declaration in declarations {
        put_if(places, declaration.value.is_none(), declaration.from)?;
    }
    Ok(())
}

/// Notes the names of `const` that have no value (14.3.1.1).
pub fn values(
    places: &mut Items<usize>,
    kind: LexicalKind,
    declarations: &[Declaration],
) -> Result<(), AllocError>
    ensures { OnOk result (places.new ≡ places.old ++ spec.value_faults kind declarations.now) }
{
    match kind {
        LexicalKind::Let => Ok(()),
        LexicalKind::Const => without_value(places, declarations),
    }
}
