use sr_num::{Num, NumStop};
use sr_text::Str;
use sr_value::Value;

/// What a computation came to in which no code of the user runs.
#[derive(Debug, Drop)]
pub enum Computed<T> {
    /// It has a value.
    Is(T),
    /// It leaves the integers of the profile.
    Stops(NumStop),
    /// A TypeError is thrown.
    Fails,
}

/// The numbers before and after `++` or `--`.
#[derive(Clone, Copy, Debug, PartialEq, Eq)]
pub struct Stepped {
    /// The old value as a number.
    pub before: Num,
    /// The new value.
    pub after: Num,
}

/// What an operator came to.
#[derive(Debug, Drop)]
pub enum Operated {
    /// A value.
    Gives(Value),
    /// The string of both texts, which is still to be made.
    Joins(Str, Str),
    /// It leaves the integers of the profile.
    Halts(NumStop),
    /// A TypeError is thrown.
    Rejects,
}
