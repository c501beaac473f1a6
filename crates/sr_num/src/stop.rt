use thiserror::Error;

/// Why an operation has no result among the numbers of the profile.
#[derive(Clone, Copy, Debug, PartialEq, Eq, Error)]
pub enum NumStop {
    /// The result is -0.
    #[error("negative zero")]
    NegativeZero,
    /// The exact result is no integer.
    #[error("fraction")]
    Fraction,
    /// The result is infinite.
    #[error("infinite")]
    Infinite,
    /// The exact result is an integer above 2^53 - 1 in absolute value.
    #[error("unsafe integer")]
    Unsafe,
    /// The text writes a decimal with a point or an exponent, or `Infinity`.
    #[error("number form")]
    Form,
}
