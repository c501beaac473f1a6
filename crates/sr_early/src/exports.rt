ghost use Rattle.std.specs.Prelude.{◌≡◌, ◌++◌, OnOk};
ghost use Rattle.sr_early.specs.Exports as spec;

use sqlite_items::Items;
use sr_ast::{Binding, ExportName, ImportName, Imports};
use sr_names::places::put_if;
use sr_names::strictness::reference;
use sr_text::Str;
use std::alloc::AllocError;

/// Whether a code unit is a leading surrogate (ECMA-262 6.1.4).
fn is_leading(unit: u16) -> bool
    ensures { result ≡ spec.is_leading unit }
{
    unit >= 0xD800 && unit <= 0xDBFF
}

/// Whether a code unit is a trailing surrogate (6.1.4).
fn is_trailing(unit: u16) -> bool
    ensures { result ≡ spec.is_trailing unit }
{
    unit >= 0xDC00 && unit <= 0xDFFF
}

/// Whether a text has no surrogate but in pairs (7.2.9).
fn is_well_formed(units: &[u16]) -> bool
    ensures { result ≡ spec.is_well_formed units.now }
{
    let mut behind = false;
    for unit in units {
        if is_trailing(*unit) != behind {
            return false;
        }
        behind = is_leading(*unit);
    }
    !behind
}

/// Notes a name of an import or an export that is not well formed.
fn unpaired_name(places: &mut Items<usize>, name: &Binding) -> Result<(), AllocError>
    ensures { OnOk result (places.new ≡ places.old ++ spec.unpaired_name name.now) }
{
    put_if(places, !is_well_formed(name.name.units()), name.from)
}

/// The same, where there is a name.
pub fn unpaired_if_there(
    places: &mut Items<usize>,
    name: &Option<Binding>,
) -> Result<(), AllocError>
    ensures { OnOk result (places.new ≡ places.old ++ spec.unpaired_if_there name.now) }
{
    match name {
        None => Ok(()),
        Some(name) => unpaired_name(places, name),
    }
}

/// Notes the names that an import takes and that are not well formed (16.2).
pub fn unpaired_imports(places: &mut Items<usize>, others: &Imports) -> Result<(), AllocError>
    ensures { OnOk result (places.new ≡ places.old ++ spec.unpaired_imports others.now) }
{
    match others {
        Imports::Nothing | Imports::Namespace(_) => Ok(()),
        Imports::Names(names) => unpaired_imported(places, names.as_slice()),
    }
}

/// The same of names.
fn unpaired_imported(places: &mut Items<usize>, names: &[ImportName]) -> Result<(), AllocError>
    ensures { OnOk result (places.new ≡ places.old ++ spec.unpaired_imported names.now) }
{
    for name in names {
        unpaired_name(places, &name.imported)?;
    }
    Ok(())
}

/// Notes the names here of an export that are not well formed.
fn unpaired_local(places: &mut Items<usize>, names: &[ExportName]) -> Result<(), AllocError>
    ensures { OnOk result (places.new ≡ places.old ++ spec.unpaired_local names.now) }
{
    for name in names {
        unpaired_name(places, &name.local)?;
    }
    Ok(())
}

/// Notes the names that an export gives and that are not well formed.
fn unpaired_outer(places: &mut Items<usize>, names: &[ExportName]) -> Result<(), AllocError>
    ensures { OnOk result (places.new ≡ places.old ++ spec.unpaired_outer names.now) }
{
    for name in names {
        unpaired_name(places, &name.exported)?;
    }
    Ok(())
}

/// Notes the names here of an export that are reserved (16.2.3.1).
fn references(
    places: &mut Items<usize>,
    strict: bool,
    names: &[ExportName],
) -> Result<(), AllocError>
    ensures { OnOk result (places.new ≡ places.old ++ spec.references_faults strict names.now) }
{
    for name in names {
        reference(places, strict, &name.local.name, name.local.from)?;
    }
    Ok(())
}

/// Notes what is wrong with the names of an export (16.2.3).
pub fn export_names(
    places: &mut Items<usize>,
    strict: bool,
    names: &[ExportName],
    from: &Option<Str>,
) -> Result<(), AllocError>
    ensures { OnOk result (places.new ≡ places.old ++ spec.names_faults strict names.now from.now) }
{
    match from {
        None => references(places, strict, names)?,
        Some(_) => unpaired_local(places, names)?,
    }
    unpaired_outer(places, names)
}
