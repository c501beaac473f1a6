use sqlite_items::{Boxed, Items};
use sr_tag::{EnvK, ObjK, Ref};
use sr_text::Str;
use sr_value::Value;

/// What a user function holds (ECMA-262 10.2), with the type of its code.
#[derive(Drop)]
pub struct Closure<C: Drop> {
    /// Its code.
    pub code: C,
    /// The number of the source that has the code, from 1.
    pub source: u32,
    /// The environment in which it was made; none is the global one.
    pub environment: Option<Ref<EnvK>>,
}

/// What a built-in function holds (ECMA-262 10.3), with the type that tells which one it is.
#[derive(Drop)]
pub struct Native<B: Drop> {
    /// Which one it is.
    pub function: B,
    /// The name that it was made with.
    pub name: Str,
    /// The values that it keeps.
    pub kept: Items<Value>,
}

/// What a bound function holds (ECMA-262 10.4.1).
#[derive(Drop)]
pub struct Bound {
    /// The function that it calls.
    pub target: Ref<ObjK>,
    /// The this value that it passes on.
    pub this: Value,
    /// The arguments that come before its own.
    pub arguments: Items<Value>,
}

/// The kind of an object: what it holds besides its prototype, its properties and whether it is extensible. What is rare stands
/// behind a pointer, so that an ordinary object takes no room for it.
#[derive(Drop)]
pub enum ObjectKind<C: Drop, B: Drop> {
    Ordinary,
    Function(Closure<C>),
    BuiltIn(Boxed<Native<B>>),
    Bound(Boxed<Bound>),
    Error,
}
