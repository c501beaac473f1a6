/// A wrapper of a realm stands for an export of the realm that owns the function. Realms are told by their places in the table of
/// all realms.
#[derive(Debug, Clone, Copy, PartialEq, Eq)]
pub struct Link {
    /// The realm that has the wrapper.
    pub realm: usize,
    /// The number of the wrapper there, from 1.
    pub wrapper: usize,
    /// The realm that owns the function.
    pub owner: usize,
    /// The number of the function among its exports, from 1.
    pub export: usize,
}
