ghost use Rattle.std.specs.Prelude.{◌≡◌, IfOk, IfSome, IfNone};
ghost use Rattle.sr_ast.specs.declared.reading.Reading.{Reading};
ghost use Rattle.sr_ast.specs.Script.{Script};
ghost use Rattle.sr_script.specs.Names.{script_names};
ghost use Rattle.sr_script.specs.Built.{HasBody, IsReading, IsSource};
ghost use Rattle.sr_script.specs.Built as spec;

use crate::declared::Names;
use crate::form::script_fits;
use crate::names::put_all;
use sqlite_items::Items;
use sr_ast::{Reading, ScriptCode, SourceCode, Tree};
use sr_lex::{Token, TokenKind, lex_to_failure};
use sr_shared::Shared;
use sr_text::{Goal, Str};
use sr_unit::{Refusal, read_tokens};
use std::alloc::{AllocError, Global};

/// Whether the first token is a string literal.
fn begins_with_string(tokens: &[Token]) -> bool
    ensures { result ≡ spec.begins_with_string tokens.now }
{
    match tokens {
        [] => false,
        [first, ..] => matches!(first.kind, TokenKind::Text),
    }
}

/// The names that these statements declare.
fn names_of(alloc: Global, body: &[Shared<Tree>]) -> Result<Names, AllocError>
    ensures { IfOk result (λ n. n ≡ script_names body.now) }
{
    let mut list = Items::new(alloc);
    put_all(&mut list, body)?;
    Names::new(alloc, list)
}

/// The script of these tokens and statements; none where it is not built.
fn of_statements(
    alloc: Global,
    tokens: &[Token],
    body: Items<Shared<Tree>>,
) -> Result<Option<ScriptCode>, AllocError>
    ensures script { IfOk result (λ read. IfSome read (HasBody tokens.now body)) }
    ensures no_script { IfOk result (λ read. IfNone read ((x : Script) → ¬ (HasBody tokens.now body x))) }
{
    if begins_with_string(tokens) {
        return Ok(None);
    }
    let names = names_of(alloc, body.as_slice())?;
    if script_fits(&names, body.as_slice()) {
        let script = ScriptCode::new(alloc, body, names.into_list())?;
        Ok(Some(script))
    } else {
        Ok(None)
    }
}

/// What the text is (ECMA-262 16.1.6); none where it is a script that is not built.
fn read_text(alloc: Global, text: &Str) -> Result<Option<Reading>, AllocError>
    ensures reading { IfOk result (λ read. IfSome read (IsReading text.now)) }
    ensures no_reading { IfOk result (λ read. IfNone read ((r : Reading) → ¬ (IsReading text.now r))) }
{
    let lexed = lex_to_failure(alloc, text)?;
    match read_tokens(alloc, Goal::Script, text, &lexed) {
        Ok(body) => match of_statements(alloc, &lexed.tokens, body)? {
            Some(script) => Ok(Some(Reading::Script(script))),
            None => Ok(None),
        },
        Err(Refusal::Refused(why)) => Ok(Some(Reading::Refused(why))),
        Err(Refusal::Memory) => Err(AllocError),
    }
}

/// The source of the text: what it is, and how many code units it has (ECMA-262 16.1.6). A text that is no script is one too;
/// there is none where the text is a script that is not built.
pub fn read_source(alloc: Global, text: &Str) -> Result<Option<SourceCode>, AllocError>
    ensures source { IfOk result (λ read. IfSome read (IsSource text.now)) }
    ensures no_source { IfOk result (λ read. IfNone read ((r : Reading) → ¬ (IsReading text.now r))) }
{
    match read_text(alloc, text)? {
        Some(reading) => Ok(Some(SourceCode {
            reading,
            units: text.units().len(),
        })),
        None => Ok(None),
    }
}
