ghost use Rattle.std.specs.Prelude.{◌≡◌, ◌∷◌, [], All, IfSome, is_some, option_map};
ghost use Rattle.sr_model.specs.Environments as spec;
ghost use Rattle.sr_value.specs.Plain.{number_of, value_of};
ghost use Rattle.sr_heap.specs.Live.{Extent, IsLiveScope, IsLiveValue};
ghost use Rattle.sr_heap.specs.Plain.{scope_of};
ghost use Rattle.sr_heap.specs.Records.{IsLiveEnvironment, environment_of, environments_of};

use crate::Binding;
use crate::bindings::bound;
use crate::names::Named;
use sr_tag::{EnvK, Ref};
use sr_text::Str;
use sr_value::Value;
use std::alloc::Global;

/// An environment record (ECMA-262 9.1.1): its bindings, the this value that that of a function may have, and the environment around
/// it, where none is the global one.
#[derive(Drop)]
pub(crate) struct Environment {
    pub bindings: Named<Binding>,
    pub this: Option<Value>,
    pub outer: Option<Ref<EnvK>>,
}

impl Environment {
    /// One with no bindings, which takes no memory.
    pub fn new(alloc: Global, this: Option<Value>, outer: Option<Ref<EnvK>>) -> Environment
        ensures same { environment_of result ≡ record { bindings = []; this = option_map value_of this; outer = scope_of outer } }
        ensures live { (e : Extent) → IfSome this (IsLiveValue e) → IfSome outer (IsLiveScope e) → IsLiveEnvironment e result }
    {
        Environment {
            bindings: Named::new(alloc),
            this,
            outer,
        }
    }
}

/// Whether a name is bound in the environment of a reference.
fn is_bound(environments: &[Environment], at: &Ref<EnvK>, name: &Str) -> bool
    ensures { result ≡ is_some (spec.binding (environments_of environments.now) (number_of at.now) name.now) }
{
    match environments.get(at.place()) {
        Some(environment) => bound(&environment.bindings, name).is_some(),
        None => false,
    }
}

/// The environment around that of a reference.
fn around(environments: &[Environment], at: &Ref<EnvK>) -> Option<Ref<EnvK>>
    ensures same { scope_of result ≡ spec.outer (environments_of environments.now) (number_of at.now) }
    ensures live { (e : Extent) → All (IsLiveEnvironment e) environments.now → IfSome result (IsLiveScope e) }
{
    match environments.get(at.place()) {
        Some(environment) => environment.outer,
        None => None,
    }
}

/// The environment in which a name is bound, from one outward; none where none of these has it.
pub(crate) fn holder(
    environments: &[Environment],
    from: Option<Ref<EnvK>>,
    name: &Str,
) -> Option<Ref<EnvK>>
    ensures same { scope_of result ≡ spec.holder (environments_of environments.now) (scope_of from) name.now }
    ensures live { (e : Extent) → All (IsLiveEnvironment e) environments.now → IfSome from (IsLiveScope e) → IfSome result (IsLiveScope e) }
{
    let mut next = from;
    let mut left = environments.len();
    while left > 0 {
        left -= 1;
        let Some(here) = next else {
            return None;
        };
        if is_bound(environments, &here, name) {
            return next;
        }
        next = around(environments, &here);
    }
    None
}
