ghost use Rattle.std.specs.Prelude.{◌≡◌};
ghost use Rattle.sr_model.specs.Values.{same};
ghost use Rattle.sr_script.specs.Form as spec;
ghost use Rattle.sr_script.specs.Table.{table_of};

/// The names that no script declares: `eval`, and those of the global object (ECMA-262 19).
const NEVER_DECLARED: [&[u8]; 23] = [
    b"eval",
    b"globalThis",
    b"NaN",
    b"undefined",
    b"isNaN",
    b"print",
    b"Object",
    b"Function",
    b"Error",
    b"TypeError",
    b"RangeError",
    b"SyntaxError",
    b"ReferenceError",
    b"Boolean",
    b"Symbol",
    b"Number",
    b"Math",
    b"String",
    b"Array",
    b"Map",
    b"Set",
    b"Promise",
    b"ShadowRealm",
];

/// Whether the units are these characters.
pub fn is(units: &[u16], text: &[u8]) -> bool
    ensures { result ≡ same units.now text.now }
{
    match units {
        [] => match text {
            [] => true,
            [_, ..] => false,
        },
        [unit, units @ ..] => match text {
            [] => false,
            [byte, bytes @ ..] => *unit == u16::from(*byte) && is(units, bytes),
        },
    }
}

/// Whether the units are one of these texts.
fn is_one_of(texts: &[&[u8]], units: &[u16]) -> bool
    ensures { result ≡ spec.is_one_of (table_of texts.now) units.now }
{
    for text in texts {
        if is(units, text) {
            return true;
        }
    }
    false
}

/// Whether a script may declare this name.
#[tactic(auto, unfolding(crate::specs::Form::may_declare))]
pub fn may_declare(name: &[u16]) -> bool
    ensures { result ≡ spec.may_declare name.now }
{
    !is_one_of(&NEVER_DECLARED, name)
}
