ghost use Rattle.std.specs.Prelude.{◌≡◌, ℕ, ◌≤◌, ◌==◌, ◌↔◌, [], ◌∷◌, ◌++◌, IfOk, IsErrOf};
ghost use Rattle.std.specs.Cmp.Lexicographic.{pointwise};
ghost use Rattle.std.specs.Cmp.Rules.{comparing, hashing};
ghost use Rattle.std.proofs.Common.{rules};
ghost use Rattle.std.specs.Hash as fed;
ghost use Rattle.sr_tag.specs.Path.{IsPath, number_count};

use crate::refusal::ChildRefusal;
use std::alloc::{AllocError, Global};
use std::fmt::{self, Debug, Formatter, Write};
use std::hash::{Hash, Hasher};
use std::marker::Model;
use std::rc::Rc;

/// The most numbers that stand in a path after its first, which is 0.
pub(crate) const MAX_STEPS: usize = 63;

/// The path of a realm: 0, and then for each realm on the way from the initial one to it the number of that realm among
/// its parent's children, from 1; at most 64 numbers with the 0. Contracts see the list of the numbers after the 0.
/// A clone shares them.
#[derive(Drop)]
pub struct Path {
    numbers: Rc<Vec<u32>>,
}

impl Model for Path {
    ghost use Rattle.std.specs.Prelude.{List, ℕ};
    ghost use Rattle.sr_tag.specs.Path.{IsPath};

    ghost Value = { List ℕ };

    ghost view = { λ p. p.numbers.value.items };

    ghost invariant = { λ p. IsPath p.numbers.value.items };
}

impl Path {
    /// The path of the initial realm, `0`.
    pub fn root(alloc: Global) -> Result<Path, AllocError>
        ensures { IfOk result (λ p. p ≡ []) }
    {
        Path::of_numbers(alloc, &[])
    }

    /// The path of the `k`-th child. `TooLong` comes exactly where this path has 64 numbers.
    pub fn child(&self, alloc: Global, k: u32) -> Result<Path, ChildRefusal>
        requires { 1 ≤ k }
        ensures ok { IfOk result (λ p. p ≡ self.now ++ k ∷ []) }
        ensures too_long { IsErrOf result ChildRefusal.TooLong ↔ (number_count self.now ≡ 64) }
    {
        let numbers = self.numbers();
        if numbers.len() == MAX_STEPS {
            return Err(ChildRefusal::TooLong);
        }
        let mut longer = Vec::with_capacity(alloc, numbers.len() + 1)?;
        longer.extend_from_slice(numbers)?;
        longer.push(k)?;
        Ok(Path::of_vec(alloc, longer)?)
    }

    /// The path of these numbers after the 0.
    pub(crate) fn of_numbers(alloc: Global, numbers: &[u32]) -> Result<Path, AllocError>
        requires { IsPath numbers.now }
        ensures { IfOk result (λ p. p ≡ numbers.now) }
    {
        Path::of_vec(alloc, Vec::from_slice(alloc, numbers)?)
    }

    fn of_vec(alloc: Global, numbers: Vec<u32>) -> Result<Path, AllocError>
        requires { IsPath numbers.items }
        ensures { IfOk result (λ p. p ≡ numbers.items) }
    {
        Ok(Path {
            numbers: Rc::new(alloc, numbers)?,
        })
    }

    /// The numbers after the 0.
    pub fn numbers(&self) -> &[u32]
        ensures value { result.now ≡ self.now }
        ensures path { IsPath result.now }
    {
        self.numbers.as_slice()
    }
}

/// Shares the numbers, and takes no memory.
impl Clone for Path {
    ghost is_clone = { λ p copy. copy ≡ p };

    fn clone(&self) -> Result<Path, AllocError> {
        Ok(Path {
            numbers: self.numbers.clone()?,
        })
    }
}

impl PartialEq for Path {
    ghost eq = { λ p q. pointwise ◌==◌ p q };

    ghost laws = { Prim.search (comparing, rules) };

    fn eq(&self, other: &Path) -> bool {
        self.numbers() == other.numbers()
    }
}

impl Eq for Path {
    ghost laws = { Prim.search (comparing, rules) };
}

impl Hash for Path {
    ghost hash_input = { λ p. fed.slice fed.u32 p };

    ghost respects_eq = { Prim.search (hashing, rules) };

    fn hash<H: Hasher>(&self, state: &mut H) {
        self.numbers().hash(state);
    }
}

impl Debug for Path {
    fn fmt<W: Write>(&self, f: &mut Formatter<W>) -> fmt::Result {
        self.numbers().fmt(f)
    }
}
