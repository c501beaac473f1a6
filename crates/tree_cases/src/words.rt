//! Words for what stands in trees and is no tree.

use source_tables::put_units;
use sr_ast::{
    Binding, Declaration, ExportName, HeadBinding, HeadKind, Imports, Link, Parameters, Property,
    PropertyName,
};
use sr_num::Num;
use sr_text::Str;
use std::alloc::AllocError;
use std::fmt::Write;

pub fn put_number(out: &mut String, value: Num) -> Result<(), AllocError> {
    match value.get() {
        Some(value) => write!(out, "{value}"),
        None => out.push_str("NaN"),
    }
}

/// Puts a text in quotes at the end.
pub fn put_quoted(out: &mut String, text: &Str) -> Result<(), AllocError> {
    out.push_str("'")?;
    put_units(out, text.units())?;
    out.push_str("'")
}

/// Puts how a property or a call is linked at the end.
pub fn put_link(out: &mut String, link: Link) -> Result<(), AllocError> {
    out.push_str(match link {
        Link::Plain => "",
        Link::Optional => "?",
        Link::Chained => "~",
    })
}

/// Puts a name and its place at the end.
pub fn put_binding(out: &mut String, binding: &Binding) -> Result<(), AllocError> {
    put_units(out, binding.name.units())?;
    let from = binding.from;
    write!(out, "@{from}")
}

/// Puts a name and its place behind a mark at the end, where there is one.
pub fn put_binding_after(
    out: &mut String,
    mark: &str,
    binding: &Option<Binding>,
) -> Result<(), AllocError> {
    match binding {
        None => Ok(()),
        Some(binding) => {
            out.push_str(mark)?;
            put_binding(out, binding)
        }
    }
}

/// Puts a label behind a colon at the end, where there is one.
pub fn put_label(out: &mut String, label: &Option<Str>) -> Result<(), AllocError> {
    match label {
        None => Ok(()),
        Some(label) => {
            out.push_str(":")?;
            put_units(out, label.units())
        }
    }
}

/// Puts the parameters of a function at the end.
pub fn put_parameters(out: &mut String, parameters: &Parameters) -> Result<(), AllocError> {
    out.push_str("(")?;
    let mut between = "";
    for name in parameters.names.as_slice() {
        out.push_str(between)?;
        put_binding(out, name)?;
        between = ",";
    }
    if parameters.rest.is_some() {
        out.push_str(between)?;
    }
    put_binding_after(out, "...", &parameters.rest)?;
    out.push_str(")")
}

/// Puts the name of a property at the end.
pub fn put_key(out: &mut String, name: &PropertyName) -> Result<(), AllocError> {
    match name {
        PropertyName::Text(text) => put_units(out, text.units()),
        PropertyName::Number(value) => put_number(out, *value),
    }
}

/// Puts what a property of an object is, without its value, at the end.
fn put_property(out: &mut String, property: &Property) -> Result<(), AllocError> {
    match property {
        Property::Named(name, _) => {
            put_key(out, name)?;
            out.push_str(":")
        }
        Property::Computed(_, _) => out.push_str("[]:"),
        Property::Spread(_) => out.push_str("..."),
        Property::Method(_) => out.push_str("m"),
    }
}

/// Puts what the properties of an object are at the end.
pub fn put_properties(out: &mut String, properties: &[Property]) -> Result<(), AllocError> {
    out.push_str("(")?;
    let mut between = "";
    for property in properties {
        out.push_str(between)?;
        put_property(out, property)?;
        between = " ";
    }
    out.push_str(")")
}

/// Puts the declared names at the end, with `=` behind those that have a value.
pub fn put_declared(out: &mut String, declarations: &[Declaration]) -> Result<(), AllocError> {
    out.push_str("(")?;
    let mut between = "";
    for declaration in declarations {
        out.push_str(between)?;
        put_units(out, declaration.name.units())?;
        out.push_str(if declaration.value.is_some() { "=" } else { "" })?;
        between = " ";
    }
    out.push_str(")")
}

/// Puts what the head of a `for` declares at the end.
pub fn put_head(out: &mut String, head: &HeadBinding) -> Result<(), AllocError> {
    out.push_str(match head.kind {
        HeadKind::Var => "[var ",
        HeadKind::Let => "[let ",
        HeadKind::Const => "[const ",
    })?;
    put_binding(out, &head.binding)?;
    out.push_str("]")
}

/// Puts two names of an import or an export at the end.
fn put_pair(out: &mut String, from: &Binding, to: &Binding) -> Result<(), AllocError> {
    put_binding(out, from)?;
    out.push_str(">")?;
    put_binding(out, to)
}

/// Puts what an import takes beside the default export at the end.
pub fn put_imports(out: &mut String, imports: &Imports) -> Result<(), AllocError> {
    match imports {
        Imports::Nothing => Ok(()),
        Imports::Namespace(name) => {
            out.push_str("*")?;
            put_binding(out, name)
        }
        Imports::Names(names) => {
            out.push_str("{")?;
            let mut between = "";
            for name in names.as_slice() {
                out.push_str(between)?;
                put_pair(out, &name.imported, &name.local)?;
                between = " ";
            }
            out.push_str("}")
        }
    }
}

/// Puts the names that are exported at the end.
pub fn put_exports(out: &mut String, names: &[ExportName]) -> Result<(), AllocError> {
    out.push_str("{")?;
    let mut between = "";
    for name in names {
        out.push_str(between)?;
        put_pair(out, &name.local, &name.exported)?;
        between = " ";
    }
    out.push_str("}")
}

/// Puts the texts of a template at the end.
pub fn put_texts(out: &mut String, texts: &[Str]) -> Result<(), AllocError> {
    for text in texts {
        put_quoted(out, text)?;
    }
    Ok(())
}
