ghost use Rattle.std.specs.Prelude.{◌≡◌, ◌<◌, suc};
ghost use Rattle.sr_intrin.specs.Numbers as numbers;

/// The name of an error (ECMA-262 20.5.5).
#[derive(Clone, Copy, Debug, Drop, PartialEq, Eq)]
pub enum ErrorName {
    /// `Error`
    Error,
    /// `TypeError`
    Type,
    /// `RangeError`
    Range,
    /// `SyntaxError`
    Syntax,
    /// `ReferenceError`
    Reference,
}

/// A built-in function.
#[derive(Clone, Copy, Debug, Drop, PartialEq, Eq)]
pub enum BuiltIn {
    /// `Function.prototype`, which gives undefined.
    FunctionPrototype,
    /// The constructor of the errors of this name.
    Error(ErrorName),
    /// `print`
    Print,
}

/// An object that each realm has.
#[derive(Clone, Copy, Debug, Drop, PartialEq, Eq)]
pub enum Intrinsic {
    /// The global object.
    Global,
    /// `Object.prototype`
    ObjectPrototype,
    /// `Function.prototype`
    FunctionPrototype,
    /// The constructor of the errors of this name.
    Error(ErrorName),
    /// Their prototype.
    ErrorPrototype(ErrorName),
    /// `Boolean.prototype`
    BooleanPrototype,
    /// `Number.prototype`
    NumberPrototype,
    /// `String.prototype`
    StringPrototype,
    /// `print`
    Print,
}

impl Intrinsic {
    /// Its place among the objects of a realm, from 0.
    pub fn place(self) -> usize
        ensures number { suc result ≡ numbers.number_of self }
        ensures there { result < numbers.intrinsic_count }
    {
        match self {
            Intrinsic::Global => 0,
            Intrinsic::ObjectPrototype => 1,
            Intrinsic::FunctionPrototype => 2,
            Intrinsic::Error(name) => 3 + 2 * name.place(),
            Intrinsic::ErrorPrototype(name) => 4 + 2 * name.place(),
            Intrinsic::BooleanPrototype => 13,
            Intrinsic::NumberPrototype => 14,
            Intrinsic::StringPrototype => 15,
            Intrinsic::Print => 16,
        }
    }
}

impl ErrorName {
    /// Its place among the names, from 0.
    fn place(self) -> usize
        ensures same { result ≡ numbers.error_place self }
        ensures there { result < 5 }
    {
        match self {
            ErrorName::Error => 0,
            ErrorName::Type => 1,
            ErrorName::Range => 2,
            ErrorName::Syntax => 3,
            ErrorName::Reference => 4,
        }
    }
}
