ghost use Rattle.std.specs.Prelude.{◌≡◌, ◌≤◌, ◌==◌, ◌++◌, ◌↔◌, IsTrue, IfOk};
ghost use Rattle.std.specs.Option.{option_copied, option_eq};
ghost use Rattle.std.specs.Ordering.{on, eq_of_both};
ghost use Rattle.std.specs.Cmp.Lexicographic.{pointwise};
ghost use Rattle.std.specs.Cmp.Rules.{comparing, hashing};
ghost use Rattle.std.proofs.Common.{rules};
ghost use Rattle.std.specs.Hash as fed;

use sr_tag::Path;
use sr_text::Str;
use std::alloc::{AllocError, Global};
use std::hash::{Hash, Hasher};
use std::marker::Model;
use std::rc::Rc;

/// A well-known symbol (ECMA-262 6.1.5.1), the same in all realms.
#[derive(Clone, Copy, Debug, PartialEq, Eq, Hash)]
pub enum WellKnown {
    /// `Symbol.iterator`
    Iterator,
    /// `Symbol.toPrimitive`
    ToPrimitive,
    /// `Symbol.toStringTag`
    ToStringTag,
}

/// The number of a made symbol among those of its maker, from 1.
#[derive(Clone, Copy, Debug, PartialEq, Eq, Hash)]
pub struct MadeNumber {
    number: u64,
}

impl Model for MadeNumber {
    ghost use Rattle.std.specs.Prelude.{ℕ, ◌≤◌};

    ghost Value = { ℕ };

    ghost view = { λ n. n.number };

    ghost invariant = { λ n. 1 ≤ n.number };

    ghost inverse = { λ v. record { number = v } };
}

impl MadeNumber {
    /// The number, counted from 1.
    pub fn of(number: u64) -> MadeNumber
        requires { 1 ≤ number }
        ensures { result ≡ number }
    {
        MadeNumber { number }
    }

    /// The number, counted from 1.
    pub fn get(&self) -> u64
        ensures value { result ≡ self.now }
        ensures from { 1 ≤ result }
    {
        self.number
    }
}

/// What a made symbol is told by.
#[derive(Debug, Drop)]
struct MadeParts {
    maker: Path,
    number: MadeNumber,
    description: Option<Str>,
}

/// A symbol that `Symbol` made: the path of the realm that made it, its number there, and its description (ECMA-262
/// 20.4.1.1). A clone shares them.
#[derive(Debug, Drop)]
pub struct MadeSymbol {
    parts: Rc<MadeParts>,
}

impl Model for MadeSymbol {
    ghost use Rattle.sr_value.specs.Made.{Made};

    ghost Value = { Made };

    ghost view = { λ s. record { maker = s.parts.value.maker; number = s.parts.value.number; description = s.parts.value.description } };
}

impl MadeSymbol {
    /// The symbol of these parts. It takes memory once, for itself and all its clones; `AllocError` comes for want of it.
    pub fn of(
        alloc: Global,
        maker: Path,
        number: MadeNumber,
        description: Option<Str>,
    ) -> Result<MadeSymbol, AllocError>
        ensures maker { IfOk result (λ s. s.maker ≡ maker) }
        ensures number { IfOk result (λ s. s.number ≡ number) }
        ensures description { IfOk result (λ s. s.description ≡ description) }
    {
        let parts = MadeParts {
            maker,
            number,
            description,
        };
        Ok(MadeSymbol {
            parts: Rc::new(alloc, parts)?,
        })
    }

    /// The path of the realm that made it.
    pub fn maker(&self) -> &Path
        ensures { result.now ≡ self.now.maker }
    {
        &self.parts.maker
    }

    /// Its number among the symbols that its maker made.
    pub fn number(&self) -> MadeNumber
        ensures { result ≡ self.now.number }
    {
        self.parts.number
    }

    /// Its description, if it has one.
    pub fn description(&self) -> Option<&Str>
        ensures { option_copied result ≡ self.now.description }
    {
        self.parts.description.as_ref()
    }

    /// Whether both are one symbol.
    fn same(&self, other: &MadeSymbol) -> bool
        ensures { IsTrue result ↔ (self.now ≡ other.now) }
    {
        self.parts.number == other.parts.number
            && same_path(&self.parts.maker, &other.parts.maker)
            && same_description(&self.parts.description, &other.parts.description)
    }
}

/// Shares the parts, and takes no memory.
impl Clone for MadeSymbol {
    ghost is_clone = { λ s copy. copy ≡ s };

    fn clone(&self) -> Result<MadeSymbol, AllocError> {
        Ok(MadeSymbol {
            parts: self.parts.clone()?,
        })
    }
}

impl PartialEq for MadeSymbol {
    ghost eq = { eq_of_both (on (λ s. s.number) ◌==◌) (eq_of_both (on (λ s. s.maker) (pointwise ◌==◌)) (on (λ s. s.description) (option_eq (pointwise ◌==◌)))) };

    ghost laws = { Prim.search (comparing, rules) depth 9 };

    fn eq(&self, other: &MadeSymbol) -> bool {
        self.parts.number == other.parts.number
            && self.parts.maker == other.parts.maker
            && self.parts.description == other.parts.description
    }
}

impl Eq for MadeSymbol {
    ghost laws = { Prim.search (comparing, rules) depth 9 };
}

/// Hashes the path and the number, and leaves the description out.
impl Hash for MadeSymbol {
    ghost hash_input = { λ s. fed.slice fed.u32 s.maker ++ fed.u64 s.number };

    ghost respects_eq = { Prim.search (hashing, rules) };

    fn hash<H: Hasher>(&self, state: &mut H) {
        self.parts.maker.hash(state);
        self.parts.number.hash(state);
    }
}

/// A symbol (ECMA-262 6.1.5), of at most 16 bytes. Its parts carry the invariant of the type: there are three well-known
/// symbols, and the number of a made symbol is at least 1. A clone shares the texts and the path, and takes no memory.
#[derive(Clone, Debug, Drop, PartialEq, Eq, Hash)]
pub enum Symbol {
    WellKnown(WellKnown),
    /// The symbol that `Symbol.for` gives for a text.
    Registered(Str),
    /// A symbol that `Symbol` made.
    Made(MadeSymbol),
}

const _: () = prove!(size_of::<Symbol>() <= 16);

/// Whether both are one list of code units.
pub(crate) fn same_text(a: &Str, b: &Str) -> bool
    ensures { IsTrue result ↔ (a.now ≡ b.now) }
{
    a.units() == b.units()
}

fn same_path(a: &Path, b: &Path) -> bool
    ensures { IsTrue result ↔ (a.now ≡ b.now) }
{
    a.numbers() == b.numbers()
}

fn same_description(a: &Option<Str>, b: &Option<Str>) -> bool
    ensures { IsTrue result ↔ (a.now ≡ b.now) }
{
    match (a, b) {
        (None, None) => true,
        (Some(a), Some(b)) => same_text(a, b),
        _ => false,
    }
}

impl Symbol {
    /// Whether both are one symbol.
    pub fn same(&self, other: &Symbol) -> bool
        ensures { IsTrue result ↔ (self.now ≡ other.now) }
    {
        match (self, other) {
            (Symbol::WellKnown(a), Symbol::WellKnown(b)) => *a == *b,
            (Symbol::Registered(a), Symbol::Registered(b)) => same_text(a, b),
            (Symbol::Made(a), Symbol::Made(b)) => a.same(b),
            _ => false,
        }
    }
}
