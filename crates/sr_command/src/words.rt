ghost use Rattle.std.specs.Prelude.{◌≡◌, Option, map, string_bytes};
ghost use Rattle.std.specs.List.{list_all};
ghost use Rattle.std.specs.Option.{option_map};
ghost use Rattle.sr_command.specs.Words.{command, command_of, bound_of, is_digit, is_numeral, file_of, is_unbuilt_name};

/// The bound of steps where the words give none.
const DEFAULT_BOUND: u64 = 10_000_000;

/// The largest bound of steps.
const LARGEST_BOUND: u64 = 1_000_000_000;

/// What the words ask for.
#[derive(Clone, Copy)]
pub(crate) struct Asked<'a> {
    /// The bound of steps.
    pub bound: u64,
    /// The file's name.
    pub name: &'a str,
}

/// What the words ask for: `FILE`, or `--steps N FILE`. None where they are refused.
pub(crate) fn command(words: &[String]) -> Option<Asked<'_>>
    ensures { option_map (λ asked. record { bound = asked.bound; name = asked.name.now }) result ≡ command (map string_bytes words.now) }
{
    match words {
        [] => None,
        [file] => asked_of(Some(DEFAULT_BOUND), file.as_str()),
        [_, _] => None,
        [option, steps, file] => {
            if option.as_str() != "--steps" {
                return None;
            }
            asked_of(bound_of(steps.as_str()), file.as_str())
        }
        [_, _, _, _, ..] => None,
    }
}

/// What a bound and a file ask for, where the bound is there and the file's name is one: it is not empty and does not
/// begin with `-`.
fn asked_of(bound: Option<u64>, name: &str) -> Option<Asked<'_>>
    ensures { option_map (λ asked. record { bound = asked.bound; name = asked.name.now }) result ≡ command_of bound (file_of name.now) }
{
    match (bound, name.as_bytes()) {
        (None, _) | (_, [] | [b'-', ..]) => None,
        (Some(bound), [_, ..]) => Some(Asked { bound, name }),
    }
}

/// The bound that a word gives, in decimal digits alone and with no 0 before another digit: from 1 to the largest one.
fn bound_of(word: &str) -> Option<u64>
    ensures { result ≡ bound_of word.now }
{
    if !is_numeral(word.as_bytes()) {
        return None;
    }
    match word.parse::<u64>() {
        Ok(bound) if 1 <= bound && bound <= LARGEST_BOUND => Some(bound),
        _ => None,
    }
}

/// Whether a word is decimal digits alone, with no 0 before another digit.
fn is_numeral(word: &[u8]) -> bool
    ensures { result ≡ is_numeral word.now }
{
    match word {
        [] => false,
        [b'0'] => true,
        [b'0', ..] => false,
        [_, ..] => are_digits(word),
    }
}

/// Whether all bytes are decimal digits.
fn are_digits(word: &[u8]) -> bool
    ensures { result ≡ list_all is_digit word.now }
{
    word.iter().all(|b| b.is_ascii_digit())
}

/// Whether the files of this name are not built: it has a `/`, or it ends in `.mjs`.
pub(crate) fn is_unbuilt(name: &str) -> bool
    ensures { result ≡ is_unbuilt_name name.now }
{
    name.as_bytes().contains(&b'/') || name.as_bytes().ends_with(b".mjs")
}
