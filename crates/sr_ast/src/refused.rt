use sr_text::Marker;

/// Why a text is no script and no module (ECMA-262 16.1, 16.2). Places are counted in code units.
#[derive(Debug, Clone, Copy, PartialEq, Eq)]
pub enum Refused {
    /// It breaks a rule of the language, at this place.
    Syntax(usize),
    /// It breaks a rule, and has something that is left out by name, at this place.
    Unsupported(Marker, usize),
    /// More of its rules would be open at once than may be, or a tree of it would be deeper than may be.
    TooDeep,
}
