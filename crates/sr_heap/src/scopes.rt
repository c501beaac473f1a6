ghost use Rattle.std.specs.Prelude.{◌≡◌, ◌∷◌, ◌++◌, [], length, IfOk, IfSome, IsSome, OnOk, OnErr, None, option_map};
ghost use Rattle.std.specs.Option.{option_copied};
ghost use Rattle.sr_value.specs.Plain.{number_of, value_of};
ghost use Rattle.sr_model.specs.Values.{member};
ghost use Rattle.sr_model.specs.Numbered.{item};
ghost use Rattle.sr_model.specs.Environments as spec;
ghost use Rattle.sr_heap.specs.Live.{IsLiveBinding, IsLiveScope, IsLiveValue, KeepsLive, extent, with_environments, with_lexical, with_sources, with_var_names};
ghost use Rattle.sr_heap.specs.Plain.{binding_of, scope_of};

use crate::Binding;
use crate::bindings::{bound, create, rebind};
use crate::environments::{Environment, holder};
use crate::heap::Heap;
use sr_tag::{EnvK, Ref};
use sr_text::Str;
use sr_value::Value;
use std::alloc::AllocError;

impl<C: Drop, B: Drop> Heap<C, B> {
    /// NewDeclarativeEnvironment (ECMA-262 9.1.2.2), and with a this value NewFunctionEnvironment (9.1.2.4): an environment with no
    /// bindings inside another one, where none is the global one. It comes last. Where no memory is found, nothing is changed.
    pub fn make_environment(
        &mut self,
        this: Option<Value>,
        outer: Option<Ref<EnvK>>,
    ) -> Result<Ref<EnvK>, AllocError>
        requires this { IfSome this (IsLiveValue (extent self.old)) }
        requires outer { IfSome outer (IsLiveScope (extent self.old)) }
        ensures made { OnOk result (self.new ≡ with_environments (spec.make_environment self.old.store.environments (option_map value_of this) (scope_of outer)) self.old) }
        ensures last { IfOk result (λ r. number_of r ≡ length self.new.store.environments) }
        ensures live { IfOk result (IsLiveScope (extent self.new)) }
        ensures kept { OnOk result (KeepsLive (extent self.old) (extent self.new)) }
        ensures unchanged { OnErr result (self.new ≡ self.old) }
    {
        let place = self.environments.len();
        let environment = Environment::new(self.alloc, this, outer);
        self.environments.push(environment)?;
        Ok(Ref::at(self.tag, place))
    }

    /// The environment around one, where none is the global one.
    pub fn outer(&self, at: &Ref<EnvK>) -> Option<Ref<EnvK>>
        requires { IsLiveScope (extent self.now) at.now }
        ensures same { scope_of result ≡ spec.outer self.now.store.environments (number_of at.now) }
        ensures live { IfSome result (IsLiveScope (extent self.now)) }
    {
        self.environments[at.place()].outer
    }

    /// GetThisBinding (ECMA-262 9.1.1.3.4): the this value, where this is the environment of a function that has one.
    pub fn this(&self, at: &Ref<EnvK>) -> Option<&Value>
        requires { IsLiveScope (extent self.now) at.now }
        ensures same { option_map value_of (option_copied result) ≡ spec.this self.now.store.environments (number_of at.now) }
        ensures live { IfSome (option_copied result) (IsLiveValue (extent self.now)) }
    {
        self.environments[at.place()].this.as_ref()
    }

    /// The environment in which a name is bound, from one outward, where none is the global one (ECMA-262 9.1.2.1
    /// GetIdentifierReference).
    pub fn holder(&self, from: Option<Ref<EnvK>>, name: &Str) -> Option<Ref<EnvK>>
        requires { IfSome from (IsLiveScope (extent self.now)) }
        ensures same { scope_of result ≡ spec.holder self.now.store.environments (scope_of from) name.now }
        ensures live { IfSome result (IsLiveScope (extent self.now)) }
    {
        holder(&self.environments, from, name)
    }

    /// The binding of a name in an environment, if it has one there (ECMA-262 9.1.1.1.1 HasBinding, 9.1.1.1.6 GetBindingValue).
    pub fn binding(&self, at: &Ref<EnvK>, name: &Str) -> Option<&Binding>
        requires { IsLiveScope (extent self.now) at.now }
        ensures same { option_map binding_of (option_copied result) ≡ spec.binding self.now.store.environments (number_of at.now) name.now }
        ensures live { IfSome (option_copied result) (IsLiveBinding (extent self.now)) }
    {
        bound(&self.environments[at.place()].bindings, name)
    }

    /// CreateMutableBinding and CreateImmutableBinding (ECMA-262 9.1.1.1.2, 9.1.1.1.3): a binding with no value for a name that has
    /// none there. Where no memory is found, nothing is changed.
    pub fn create_binding(&mut self, at: &Ref<EnvK>, name: Str) -> Result<(), AllocError>
        requires live { IsLiveScope (extent self.old) at.now }
        requires new { spec.binding self.old.store.environments (number_of at.now) name ≡ None }
        ensures after { OnOk result (self.new ≡ with_environments (spec.create_binding self.old.store.environments (number_of at.now) name) self.old) }
        ensures kept { extent self.new ≡ extent self.old }
        ensures unchanged { OnErr result (self.new ≡ self.old) }
    {
        create(&mut self.environments[at.place()].bindings, name)
    }

    /// InitializeBinding and SetMutableBinding (ECMA-262 9.1.1.1.4, 9.1.1.1.5): another binding in the place of the one that the name
    /// has there.
    pub fn set_binding(&mut self, at: &Ref<EnvK>, name: &Str, binding: Binding)
        requires live { IsLiveScope (extent self.old) at.now }
        requires own { IsLiveBinding (extent self.old) binding }
        requires there { IsSome (spec.binding self.old.store.environments (number_of at.now) name.now) }
        ensures after { self.new ≡ with_environments (spec.set_binding self.old.store.environments (number_of at.now) name.now (binding_of binding)) self.old }
        ensures kept { extent self.new ≡ extent self.old }
    {
        rebind(&mut self.environments[at.place()].bindings, name, binding);
    }

    /// The lexical binding of a name in the global environment (ECMA-262 9.1.1.4), if it has one.
    pub fn lexical(&self, name: &Str) -> Option<&Binding>
        ensures same { option_map binding_of (option_copied result) ≡ spec.bound name.now self.now.store.lexical }
        ensures live { IfSome (option_copied result) (IsLiveBinding (extent self.now)) }
    {
        bound(&self.lexical, name)
    }

    /// Makes a lexical binding with no value in the global environment for a name that has none there. Where no memory is found,
    /// nothing is changed.
    pub fn create_lexical(&mut self, name: Str) -> Result<(), AllocError>
        requires { spec.bound name self.old.store.lexical ≡ None }
        ensures after { OnOk result (self.new ≡ with_lexical (spec.created name self.old.store.lexical) self.old) }
        ensures unchanged { OnErr result (self.new ≡ self.old) }
    {
        create(&mut self.lexical, name)
    }

    /// Puts a binding in the place of the lexical one that the name has in the global environment.
    pub fn set_lexical(&mut self, name: &Str, binding: Binding)
        requires own { IsLiveBinding (extent self.old) binding }
        requires there { IsSome (spec.bound name.now self.old.store.lexical) }
        ensures after { self.new ≡ with_lexical (spec.rebound name.now (binding_of binding) self.old.store.lexical) self.old }
    {
        rebind(&mut self.lexical, name, binding);
    }

    /// Whether `var` or a function declared this name in the global environment (ECMA-262 9.1.1.4.12 HasVarDeclaration).
    #[tactic(auto, using(crate::proofs::Tested::member_is))]
    pub fn is_var_name(&self, name: &Str) -> bool
        ensures { result ≡ member name.now self.now.store.var_names }
    {
        self.var_names.has(name)
    }

    /// Notes that `var` or a function declares this name. Where no memory is found, nothing is changed.
    #[tactic(auto, using(crate::proofs::Tested::absent_name, crate::proofs::Tested::keys_added))]
    pub fn add_var_name(&mut self, name: Str) -> Result<(), AllocError>
        ensures after { OnOk result (self.new ≡ with_var_names (spec.with_var_name name self.old.store.var_names) self.old) }
        ensures unchanged { OnErr result (self.new ≡ self.old) }
    {
        if self.is_var_name(&name) {
            Ok(())
        } else {
            self.var_names.add(name, ())
        }
    }

    /// Adds the text of a source, behind the others. Where no memory is found, nothing is changed.
    pub fn add_source(&mut self, text: Str) -> Result<(), AllocError>
        ensures added { OnOk result (self.new ≡ with_sources (self.old.store.sources ++ text ∷ []) self.old) }
        ensures unchanged { OnErr result (self.new ≡ self.old) }
    {
        self.sources.push(text)
    }

    /// How many sources there are. The last one has this number.
    pub fn sources(&self) -> usize
        ensures { result ≡ length self.now.store.sources }
    {
        self.sources.len()
    }

    /// The text of the source with this number, from 1.
    pub fn source(&self, number: usize) -> Option<&Str>
        ensures { option_copied result ≡ item self.now.store.sources number }
    {
        self.sources.get(number.checked_sub(1)?)
    }
}
