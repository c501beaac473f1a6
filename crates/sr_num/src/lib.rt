//! Numbers of the profile: NaN, and the integers of at most 2^53 - 1 in absolute value.
//! Each operation gives the exact result, or says by name why the profile has none. Nothing here takes memory.
#![tactic(auto)]

/// Sums, products, quotients and remainders.
mod arithmetic;
/// The bit operators.
mod bits;
/// What holds of texts of numbers as they are defined here.
pub mod laws;
/// The number itself.
mod num;
/// Powers.
mod power;
/// The number that a text writes.
mod reading;
/// Why an operation has no result.
mod stop;

pub use num::Num;
pub use reading::read_number;
pub use stop::NumStop;
