ghost use Rattle.std.specs.Prelude.{◌≡◌, IfOk};
ghost use Rattle.sr_syntax.specs.Input.{Reads};
ghost use Rattle.sr_syntax.specs.Modules as spec;

use sqlite_items::Items;
use sr_ast::{Binding, ExportName, ImportName, Imports};
use sr_syntax::names::binding;
use sr_syntax::refusal::Refusal;
use sr_syntax::sorts::Sort;
use sr_syntax::tokens::Tokens;
use sr_text::Str;
use std::alloc::{AllocError, Global};

/// The same name, at the same place.
fn again(x: &Binding) -> Result<Binding, AllocError>
    ensures { IfOk result (λ r. r ≡ x.now) }
{
    Ok(Binding {
        name: x.name.clone()?,
        from: x.from,
    })
}

/// The string literal that names a module (ECMA-262 16.2.2).
#[tactic(auto, unfolding(sr_syntax::specs::Modules::module_name))]
fn module_name(alloc: Global, tokens: &mut Tokens<'_>) -> Result<Str, Refusal>
    ensures { Reads (spec.module_name tokens.old) result tokens.new }
{
    if tokens.sees(Sort::Text) {
        tokens.take_text(alloc)
    } else {
        Err(tokens.refuse())
    }
}

/// `from` and the name of a module (16.2.2).
#[tactic(auto, unfolding(sr_syntax::specs::Modules::from_clause))]
pub fn from_clause(alloc: Global, tokens: &mut Tokens<'_>) -> Result<Str, Refusal>
    ensures { Reads (spec.from_clause tokens.old) result tokens.new }
{
    tokens.expect_text(b"from")?;
    module_name(alloc, tokens)
}

/// The name of an import or an export outside of this module: a name, reserved or not, or a string literal (16.2).
#[tactic(auto, unfolding(sr_syntax::specs::Modules::export_name))]
fn export_name(alloc: Global, tokens: &mut Tokens<'_>) -> Result<Binding, Refusal>
    ensures { Reads (spec.export_name tokens.old) result tokens.new }
{
    if !tokens.sees_word() && !tokens.sees(Sort::Text) {
        return Err(tokens.refuse());
    }
    let from = tokens.place();
    let name = tokens.take_text(alloc)?;
    Ok(Binding { name, from })
}

/// `as` and the name in this module (16.2.2).
#[tactic(auto, unfolding(sr_syntax::specs::Modules::local_name))]
fn local_name(alloc: Global, tokens: &mut Tokens<'_>) -> Result<Binding, Refusal>
    ensures { Reads (spec.local_name tokens.old) result tokens.new }
{
    tokens.expect_text(b"as")?;
    binding(alloc, tokens)
}

/// An imported name and the one in this module, which is the same where no other is written (16.2.2).
#[tactic(auto, unfolding(sr_syntax::specs::Modules::import_name))]
fn import_name(alloc: Global, tokens: &mut Tokens<'_>) -> Result<ImportName, Refusal>
    ensures { Reads (spec.import_name tokens.old) result tokens.new }
{
    let is_name = tokens.sees(Sort::Identifier);
    let imported = export_name(alloc, tokens)?;
    let local = if tokens.sees_text(b"as") || !is_name {
        local_name(alloc, tokens)?
    } else {
        again(&imported)?
    };
    Ok(ImportName { imported, local })
}

/// Imported names and the closing brace (16.2.2).
#[tactic(auto, unfolding(sr_syntax::specs::Modules::import_names, sr_syntax::specs::Modules::import_names_from))]
fn import_names(alloc: Global, tokens: &mut Tokens<'_>) -> Result<Items<ImportName>, Refusal>
    ensures { Reads (spec.import_names tokens.old) result tokens.new }
{
    let mut found = Items::new(alloc);
    for _turn in 0..tokens.turns() {
        if tokens.eat(Sort::RightBrace) {
            return Ok(found);
        }
        found.push(import_name(alloc, tokens)?)?;
        if !tokens.eat(Sort::Comma) {
            tokens.expect(Sort::RightBrace)?;
            return Ok(found);
        }
    }
    Err(tokens.refuse())
}

/// What is imported beside the default export: the namespace, or names (16.2.2).
#[tactic(auto, unfolding(sr_syntax::specs::Modules::imported))]
pub fn imported(alloc: Global, tokens: &mut Tokens<'_>) -> Result<Imports, Refusal>
    ensures { Reads (spec.imported tokens.old) result tokens.new }
{
    match tokens.peek() {
        Sort::Multiply => {
            tokens.take();
            Ok(Imports::Namespace(local_name(alloc, tokens)?))
        }
        Sort::LeftBrace => {
            tokens.take();
            Ok(Imports::Names(import_names(alloc, tokens)?))
        }
        _ => Err(tokens.refuse()),
    }
}

/// An exported name and the one in this module; and whether the latter is a name that is not reserved (16.2.3).
#[tactic(auto, unfolding(sr_syntax::specs::Modules::export_spec))]
fn export_spec(alloc: Global, tokens: &mut Tokens<'_>) -> Result<(ExportName, bool), Refusal>
    ensures { Reads (spec.export_spec tokens.old) result tokens.new }
{
    let is_name = tokens.sees(Sort::Identifier);
    let local = export_name(alloc, tokens)?;
    let exported = if tokens.sees_text(b"as") {
        tokens.take();
        export_name(alloc, tokens)?
    } else {
        again(&local)?
    };
    Ok((ExportName { local, exported }, is_name))
}

/// Exported names and the closing brace; and whether each name in this module is one that is not reserved (16.2.3).
#[tactic(auto, unfolding(sr_syntax::specs::Modules::export_specs, sr_syntax::specs::Modules::export_specs_from))]
pub fn export_specs(
    alloc: Global,
    tokens: &mut Tokens<'_>,
) -> Result<(Items<ExportName>, bool), Refusal>
    ensures { Reads (spec.export_specs tokens.old) result tokens.new }
{
    let mut found = Items::new(alloc);
    let mut all_names = true;
    for _turn in 0..tokens.turns() {
        if tokens.eat(Sort::RightBrace) {
            return Ok((found, all_names));
        }
        let (export, is_name) = export_spec(alloc, tokens)?;
        found.push(export)?;
        all_names = all_names && is_name;
        if !tokens.eat(Sort::Comma) {
            tokens.expect(Sort::RightBrace)?;
            return Ok((found, all_names));
        }
    }
    Err(tokens.refuse())
}

/// `as` and the name of an export, where they are written (16.2.3).
#[tactic(auto, unfolding(sr_syntax::specs::Modules::exported_as))]
pub fn exported_as(alloc: Global, tokens: &mut Tokens<'_>) -> Result<Option<Binding>, Refusal>
    ensures { Reads (spec.exported_as tokens.old) result tokens.new }
{
    if !tokens.sees_text(b"as") {
        return Ok(None);
    }
    tokens.take();
    Ok(Some(export_name(alloc, tokens)?))
}
