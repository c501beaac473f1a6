ghost use Rattle.std.specs.Prelude.{◌≡◌};
ghost use Rattle.sr_value.specs.declared.value.Value.TheVariants.{Undefined};

use crate::Symbol;
use sr_num::Num;
use sr_tag::{ObjK, Ref};
use sr_text::Str;

/// A value of the language (ECMA-262 6.1), of at most 24 bytes. A clone shares the texts and the path, and takes no memory.
#[derive(Clone, Debug, Drop, PartialEq, Eq, Hash)]
pub enum Value {
    Undefined,
    Null,
    Bool(bool),
    Num(Num),
    Str(Str),
    Sym(Symbol),
    /// An object, by a reference to its record. The value alone does not say that the record is there.
    Obj(Ref<ObjK>),
}

const _: () = prove!(size_of::<Value>() <= 24);

/// The key of a property (ECMA-262 6.1.7): a text or a symbol.
#[derive(Clone, Debug, Drop, PartialEq, Eq, Hash)]
pub enum Key {
    Text(Str),
    Sym(Symbol),
}

/// The value `undefined`.
impl Default for Value {
    fn default() -> Value
        ensures { result ≡ Undefined }
    {
        Value::Undefined
    }
}
