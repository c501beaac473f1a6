/// What a source text is to be read as (ECMA-262 16.1, 16.2).
#[derive(Debug, Clone, Copy, PartialEq, Eq)]
pub enum Goal {
    /// A script.
    Script,
    /// A module.
    Module,
}
