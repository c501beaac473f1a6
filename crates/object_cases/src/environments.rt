ghost use Rattle.std.specs.Prelude.{◌≡◌, IfOk, IfSome};
ghost use Rattle.std.specs.List.{All};
ghost use Rattle.sr_heap.specs.Live.{Extent, IsLiveBinding, IsLiveScope, IsLiveValue, extent};

use crate::cells::{shown, text, value};
use crate::methods::{Plain, empty};
use anyhow::{Context, Result, bail};
use case_tables::split_cell;
use sr_heap::{Binding, Heap};
use sr_tag::{EnvK, Ref};
use sr_text::Str;
use sr_value::Value;
use std::alloc::Global;

/// The environment of a number, from 1, among those that were made; 0 is the global one.
fn environment(made: &[Ref<EnvK>], number: &str) -> Result<Option<Ref<EnvK>>>
    ensures { IfOk result (λ o. (e : Extent) → All (IsLiveScope e) made.now → IfSome o (IsLiveScope e)) }
{
    let Some(place) = number.parse::<usize>()?.checked_sub(1) else {
        return Ok(None);
    };
    Ok(Some(*made.get(place).context("no such environment")?))
}

/// The number of an environment, and the this value that stands behind `:`, if there is one.
fn inside(alloc: Global, word: &str) -> Result<(&str, Option<Value>)>
    ensures { IfOk result (λ p. (e : Extent) → IfSome p.1 (IsLiveValue e)) }
{
    match word.split_once(':') {
        Some((number, cell)) => Ok((number, Some(value(alloc, cell)?))),
        None => Ok((word, None)),
    }
}

/// Makes environments inside those of these numbers; one has a this value where `:` and a value stand behind its number.
fn make(alloc: Global, heap: &mut Heap<Plain, Plain>, words: &str) -> Result<Vec<Ref<EnvK>>>
    ensures { IfOk result (λ made. All (IsLiveScope (extent heap.new)) made.items) }
{
    let mut made = Vec::new(alloc);
    for word in words.split(' ') {
        let (number, this) = inside(alloc, word)?;
        let outer = environment(made.as_slice(), number)?;
        let at = heap.make_environment(this, outer)?;
        made.push(at)?;
    }
    Ok(made)
}

/// The binding of a name in an environment, where none is the global one.
fn bound<'a>(
    heap: &'a Heap<Plain, Plain>,
    at: &Option<Ref<EnvK>>,
    name: &Str,
) -> Option<&'a Binding>
    requires { IfSome at.now (IsLiveScope (extent heap.now)) }
{
    match at {
        Some(at) => heap.binding(at, name),
        None => heap.lexical(name),
    }
}

/// Creates a binding, where the name has none there, and tells whether it had none.
fn create(heap: &mut Heap<Plain, Plain>, at: &Option<Ref<EnvK>>, name: Str) -> Result<bool>
    requires { IfSome at.now (IsLiveScope (extent heap.old)) }
    ensures { extent heap.new ≡ extent heap.old }
{
    match at {
        Some(at) => {
            if heap.binding(at, &name).is_some() {
                return Ok(false);
            }
            heap.create_binding(at, name)?;
        }
        None => {
            if heap.lexical(&name).is_some() {
                return Ok(false);
            }
            heap.create_lexical(name)?;
        }
    }
    Ok(true)
}

/// Puts a binding in the place of the one that the name has there, and tells whether it had one.
fn set(heap: &mut Heap<Plain, Plain>, at: &Option<Ref<EnvK>>, name: &Str, binding: Binding) -> bool
    requires live { IfSome at.now (IsLiveScope (extent heap.old)) }
    requires own { IsLiveBinding (extent heap.old) binding }
    ensures { extent heap.new ≡ extent heap.old }
{
    match at {
        Some(at) => {
            if heap.binding(at, name).is_none() {
                return false;
            }
            heap.set_binding(at, name, binding);
        }
        None => {
            if heap.lexical(name).is_none() {
                return false;
            }
            heap.set_lexical(name, binding);
        }
    }
    true
}

/// A binding as a cell writes it: `none`, `empty`, or its value behind `=`, behind `:` where it stays, or behind `~`
/// where it is the own name of a function expression.
fn shown_binding(alloc: Global, binding: Option<&Binding>) -> Result<String> {
    match binding {
        None => Ok(String::from_str(alloc, "none")?),
        Some(Binding::Uninitialized) => Ok(String::from_str(alloc, "empty")?),
        Some(Binding::Mutable(value)) => {
            let value = shown(alloc, value)?;
            Ok(format!(in alloc; "={value}")?)
        }
        Some(Binding::Constant(value)) => {
            let value = shown(alloc, value)?;
            Ok(format!(in alloc; ":{value}")?)
        }
        Some(Binding::OwnName(value)) => {
            let value = shown(alloc, value)?;
            Ok(format!(in alloc; "~{value}")?)
        }
    }
}

/// The this value and the number of the environment around, of an environment.
fn shown_environment(
    alloc: Global,
    heap: &Heap<Plain, Plain>,
    at: &Option<Ref<EnvK>>,
) -> Result<String>
    requires { IfSome at.now (IsLiveScope (extent heap.now)) }
{
    let Some(at) = at else {
        return Ok(String::from_str(alloc, "global")?);
    };
    let this = match heap.this(at) {
        Some(value) => shown(alloc, value)?,
        None => String::from_str(alloc, "none")?,
    };
    let outer = match heap.outer(at) {
        Some(outer) => outer.place().saturating_add(1),
        None => 0,
    };
    Ok(format!(in alloc; "{this} in {outer}")?)
}

/// What `get` and `create` of a name in an environment answer.
fn asked(
    alloc: Global,
    heap: &mut Heap<Plain, Plain>,
    at: &Option<Ref<EnvK>>,
    operation: &str,
    name: Str,
) -> Result<String>
    requires { IfSome at.now (IsLiveScope (extent heap.old)) }
    ensures { extent heap.new ≡ extent heap.old }
{
    match operation {
        "get" => shown_binding(alloc, bound(heap, at, &name)),
        "create" => {
            let created = create(heap, at, name)?;
            Ok(format!(in alloc; "{created}")?)
        }
        _ => bail!("no such operation: {operation}"),
    }
}

/// The binding by which `set` gives a name a value that may change, and `fix` one that stays.
fn binding(alloc: Global, operation: &str, cell: &str) -> Result<Binding>
    ensures { IfOk result (λ b. (e : Extent) → IsLiveBinding e b) }
{
    let value = value(alloc, cell)?;
    match operation {
        "set" => Ok(Binding::Mutable(value)),
        "fix" => Ok(Binding::Constant(value)),
        _ => bail!("no such operation: {operation}"),
    }
}

/// What `NUMBER`, `NUMBER/get/NAME`, `NUMBER/create/NAME`, `NUMBER/set/NAME/VALUE` or `NUMBER/fix/NAME/VALUE` answers: what the
/// environment is, the binding of the name, or whether it is created or gets the value.
fn answer(
    alloc: Global,
    heap: &mut Heap<Plain, Plain>,
    made: &[Ref<EnvK>],
    word: &str,
) -> Result<String>
    requires { All (IsLiveScope (extent heap.old)) made.now }
    ensures { extent heap.new ≡ extent heap.old }
{
    let (number, rest) = match word.split_once('/') {
        Some(parts) => parts,
        None => return shown_environment(alloc, heap, &environment(made, word)?),
    };
    let at = environment(made, number)?;
    let (operation, rest) = rest.split_once('/').context("an operation and a name")?;
    match rest.split_once('/') {
        None => asked(alloc, heap, &at, operation, text(alloc, rest)?),
        Some((name, cell)) => {
            let binding = binding(alloc, operation, cell)?;
            let done = set(heap, &at, &text(alloc, name)?, binding);
            Ok(format!(in alloc; "{done}")?)
        }
    }
}

/// The answers to operations on environments, which are made first, in order.
pub fn answered(alloc: Global, case: &str) -> Result<String> {
    let (words, operations) = split_cell(case)?;
    let mut heap = empty(alloc);
    let made = make(alloc, &mut heap, words)?;
    let mut answers = String::new(alloc);
    for word in operations.split(' ') {
        if !answers.is_empty() {
            answers.push_str(", ")?;
        }
        let shown = answer(alloc, &mut heap, &made, word)?;
        answers.push_str(shown.as_str())?;
    }
    Ok(answers)
}

/// Whether each name is declared by `var` already, as it is noted; a name behind `?` is not noted. Then how many sources there are,
/// of which each name is one, and the last one.
pub fn noted(alloc: Global, case: &str) -> Result<String> {
    let mut heap = empty(alloc);
    let mut answers = String::new(alloc);
    for word in case.split(' ') {
        let name = text(alloc, word.strip_prefix('?').unwrap_or(word))?;
        let known = heap.is_var_name(&name);
        heap.add_source(name.clone()?)?;
        if !word.starts_with('?') {
            heap.add_var_name(name)?;
        }
        write!(&mut answers, "{known} ")?;
    }
    let count = heap.sources();
    let Some(last) = heap.source(count) else {
        bail!("there is no source");
    };
    let last = case_tables::quoted_units(alloc, last.units())?;
    write!(&mut answers, "{count} {last}")?;
    Ok(answers)
}
