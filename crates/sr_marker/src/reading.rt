ghost use Rattle.std.specs.Prelude.{◌≡◌, ◌≢◌, IfOk, Err};
ghost use Rattle.sr_syntax.specs.declared.refusal.Refusal.TheVariants.{Memory};
ghost use Rattle.sr_marker.specs.Places as spec;

use sqlite_items::Items;
use sr_ast::Tree;
use sr_parse::{module_items, script};
use sr_shared::Shared;
use sr_syntax::refusal::Refusal;
use sr_syntax::sorts::{Content, Lexeme, Sort};
use sr_syntax::tokens::Tokens;
use sr_text::Goal;
use std::alloc::{AllocError, Global};

/// What a text is read as.
#[derive(Clone, Copy)]
pub struct Reading {
    /// A script or a module.
    pub goal: Goal,
    /// The number of the text's code units.
    pub size: usize,
}

/// Where a token stands. Places are counted in code units.
#[derive(Clone, Copy)]
pub struct Spot {
    /// The place of its first code unit.
    pub from: usize,
    /// The place after its last code unit.
    pub to: usize,
    /// Whether a line end stands before it.
    pub line_before: bool,
}

/// Where this token stands.
pub fn spot_of(lexeme: &Lexeme) -> Spot
    ensures { result ≡ spec.spot_of lexeme.now }
{
    Spot {
        from: lexeme.from,
        to: lexeme.to,
        line_before: lexeme.line_before,
    }
}

/// A token of this sort that stands there.
pub fn stand_in(sort: Sort, at: Spot) -> Lexeme
    ensures { result ≡ spec.stand_in sort at }
{
    Lexeme {
        sort,
        content: Content::Nothing,
        from: at.from,
        to: at.to,
        line_before: at.line_before,
        ahead: Sort::End,
    }
}

/// The items that all these tokens are.
#[tactic(auto, using(crate::proofs::ReadTokens::script_goal, crate::proofs::ReadTokens::module_goal))]
fn items_of(
    alloc: Global,
    reading: Reading,
    lexemes: &[Lexeme],
) -> Result<Items<Shared<Tree>>, Refusal>
    ensures { result ≢ Err Memory → spec.read_by reading.goal lexemes.now reading.size ≡ result }
{
    let mut tokens = Tokens::new(lexemes, reading.size);
    match reading.goal {
        Goal::Script => script(alloc, &mut tokens),
        Goal::Module => module_items(alloc, &mut tokens),
    }
}

/// Whether reading these tokens goes behind a place.
fn goes_behind(
    alloc: Global,
    reading: Reading,
    lexemes: &[Lexeme],
    place: usize,
) -> Result<bool, AllocError>
    ensures { IfOk result (λ b. b ≡ spec.goes_behind place (spec.read_by reading.goal lexemes.now reading.size)) }
{
    match items_of(alloc, reading, lexemes) {
        Ok(_) | Err(Refusal::TooDeep) => Ok(true),
        Err(Refusal::Syntax(at)) => Ok(at > place),
        Err(Refusal::Memory) => Err(AllocError),
    }
}

/// Whether reading takes a token of this sort that stands there behind these tokens, which are left as they are.
#[tactic(auto, unfolding(crate::specs::Places::could_stand), using(crate::proofs::Lists::cut_back))]
pub fn could_stand(
    alloc: Global,
    reading: Reading,
    before: &mut Vec<Lexeme>,
    at: Spot,
    sort: Sort,
) -> Result<bool, AllocError>
    ensures value { IfOk result (λ b. b ≡ spec.could_stand reading before.old.items at sort) }
    ensures kept { IfOk result (λ _. before.new.items ≡ before.old.items) }
{
    let count = before.len();
    before.push(stand_in(sort, at))?;
    let goes = goes_behind(alloc, reading, before, at.from)?;
    before.truncate(count);
    Ok(goes)
}
