ghost use Rattle.std.specs.Prelude.{◌≡◌};
ghost use Rattle.std.specs.Str.{bytes_eq};

/// Whether the code units are these characters, each of which is of ASCII.
pub fn spells(units: &[u16], word: &[u8]) -> bool
    ensures { result ≡ bytes_eq units.now word.now }
{
    match units {
        [] => match word {
            [] => true,
            [_, ..] => false,
        },
        [unit, units @ ..] => match word {
            [] => false,
            [byte, bytes @ ..] => *unit == u16::from(*byte) && spells(units, bytes),
        },
    }
}
