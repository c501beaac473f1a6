ghost use Rattle.std.specs.Prelude.{◌≡◌, suc, IfOk, MatchOption};
ghost use Rattle.std.specs.Option.{option_copied};
ghost use Rattle.sr_state.specs.Lists.{Here};

use sqlite_items::Items;
use std::alloc::AllocError;

/// The number before another one.
pub fn before(number: u32) -> Option<u32>
    ensures { MatchOption result (number ≡ 0) (λ n. number ≡ suc n) }
{
    number.checked_sub(1)
}

/// The number after another one. No list is so long that there is none.
pub fn after(number: u32) -> Result<u32, AllocError>
    ensures { IfOk result (λ next. next ≡ suc number) }
{
    number.checked_add(1).ok_or(AllocError)
}

/// The item of this number, from 0.
#[tactic(auto, using(crate::proofs::Drops::here_some, crate::proofs::Drops::here_none))]
pub fn here<T>(items: &Items<T>, at: u32) -> Option<&T>
    ensures { Here at items.now (option_copied result) }
{
    items.get(at as usize)
}
