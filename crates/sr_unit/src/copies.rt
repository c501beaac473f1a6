ghost use Rattle.std.specs.Prelude.{◌≡◌, IfOk};

use sqlite_items::Items;
use sr_ast::{Binding, ExportName, HeadBinding, ImportName, Imports, Parameters, PropertyName};
use sr_text::Str;
use std::alloc::{AllocError, Global};

/// A text, where there is one.
pub fn text_if_there(text: &Option<Str>) -> Result<Option<Str>, AllocError>
    ensures { IfOk result (λ copy. copy ≡ text.now) }
{
    match text {
        None => Ok(None),
        Some(text) => Ok(Some(text.clone()?)),
    }
}

/// Texts.
pub fn texts(alloc: Global, texts: &[Str]) -> Result<Items<Str>, AllocError>
    ensures { IfOk result (λ copies. copies ≡ texts.now) }
{
    let mut copies = Items::new(alloc);
    for text in texts {
        copies.push(text.clone()?)?;
    }
    Ok(copies)
}

/// The name of a property.
pub fn property_name(name: &PropertyName) -> Result<PropertyName, AllocError>
    ensures { IfOk result (λ copy. copy ≡ name.now) }
{
    match name {
        PropertyName::Text(text) => Ok(PropertyName::Text(text.clone()?)),
        PropertyName::Number(value) => Ok(PropertyName::Number(*value)),
    }
}

/// A name that is bound.
pub fn binding(binding: &Binding) -> Result<Binding, AllocError>
    ensures { IfOk result (λ copy. copy ≡ binding.now) }
{
    Ok(Binding {
        name: binding.name.clone()?,
        from: binding.from,
    })
}

/// A name that is bound, where there is one.
pub fn binding_if_there(bound: &Option<Binding>) -> Result<Option<Binding>, AllocError>
    ensures { IfOk result (λ copy. copy ≡ bound.now) }
{
    match bound {
        None => Ok(None),
        Some(bound) => Ok(Some(binding(bound)?)),
    }
}

/// Names that are bound.
fn bindings(alloc: Global, bound: &[Binding]) -> Result<Items<Binding>, AllocError>
    ensures { IfOk result (λ copies. copies ≡ bound.now) }
{
    let mut copies = Items::new(alloc);
    for one in bound {
        copies.push(binding(one)?)?;
    }
    Ok(copies)
}

/// The name that the head of a `for` declares.
pub fn head(head: &HeadBinding) -> Result<HeadBinding, AllocError>
    ensures { IfOk result (λ copy. copy ≡ head.now) }
{
    Ok(HeadBinding {
        kind: head.kind,
        binding: binding(&head.binding)?,
    })
}

/// The parameters of a function.
pub fn parameters(alloc: Global, parameters: &Parameters) -> Result<Parameters, AllocError>
    ensures { IfOk result (λ copy. copy ≡ parameters.now) }
{
    Ok(Parameters {
        names: bindings(alloc, parameters.names.as_slice())?,
        rest: binding_if_there(&parameters.rest)?,
    })
}

/// A name that a module imports.
fn import_name(name: &ImportName) -> Result<ImportName, AllocError>
    ensures { IfOk result (λ copy. copy ≡ name.now) }
{
    Ok(ImportName {
        imported: binding(&name.imported)?,
        local: binding(&name.local)?,
    })
}

/// Names that a module imports.
fn import_names(alloc: Global, names: &[ImportName]) -> Result<Items<ImportName>, AllocError>
    ensures { IfOk result (λ copies. copies ≡ names.now) }
{
    let mut copies = Items::new(alloc);
    for name in names {
        copies.push(import_name(name)?)?;
    }
    Ok(copies)
}

/// What a module imports beside the default export.
pub fn imports(alloc: Global, imports: &Imports) -> Result<Imports, AllocError>
    ensures { IfOk result (λ copy. copy ≡ imports.now) }
{
    match imports {
        Imports::Nothing => Ok(Imports::Nothing),
        Imports::Namespace(bound) => Ok(Imports::Namespace(binding(bound)?)),
        Imports::Names(names) => Ok(Imports::Names(import_names(alloc, names.as_slice())?)),
    }
}

/// A name that a module exports.
fn export_name(name: &ExportName) -> Result<ExportName, AllocError>
    ensures { IfOk result (λ copy. copy ≡ name.now) }
{
    Ok(ExportName {
        local: binding(&name.local)?,
        exported: binding(&name.exported)?,
    })
}

/// Names that a module exports.
pub fn export_names(alloc: Global, names: &[ExportName]) -> Result<Items<ExportName>, AllocError>
    ensures { IfOk result (λ copies. copies ≡ names.now) }
{
    let mut copies = Items::new(alloc);
    for name in names {
        copies.push(export_name(name)?)?;
    }
    Ok(copies)
}
