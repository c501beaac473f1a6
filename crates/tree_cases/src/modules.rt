//! Imports and exports in short.

use crate::trees::put_last;
use crate::words::{put_binding_after, put_exports, put_imports, put_quoted};
use sr_ast::{ExportName, Node};
use sr_text::Str;
use std::alloc::AllocError;

/// Puts an `export` of names at the end.
fn put_export_names(
    out: &mut String,
    names: &[ExportName],
    module: &Option<Str>,
) -> Result<(), AllocError> {
    out.push_str("export")?;
    put_exports(out, names)?;
    match module {
        None => Ok(()),
        Some(module) => put_quoted(out, module),
    }
}

/// Puts an import or an export at the end.
#[cycle(print)]
pub fn put_module_item(out: &mut String, node: &Node) -> Result<(), AllocError> {
    match node {
        Node::Import(first, others, module) => {
            out.push_str("import")?;
            put_binding_after(out, ":", first)?;
            put_imports(out, others)?;
            put_quoted(out, module)
        }
        Node::ExportAll(outer, module) => {
            out.push_str("export*")?;
            put_binding_after(out, "", outer)?;
            put_quoted(out, module)
        }
        Node::ExportNames(names, module) => put_export_names(out, names.as_slice(), module),
        Node::Export(part) => {
            out.push_str("(export")?;
            put_last(out, part)
        }
        Node::ExportDefault(part) => {
            out.push_str("(default")?;
            put_last(out, part)
        }
        _ => out.push_str("another node"),
    }
}
