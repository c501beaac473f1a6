ghost use Rattle.std.specs.Prelude.{◌≡◌, ◌≤◌};
ghost use Rattle.std.specs.Char.{digit_value};
ghost use Rattle.sr_lex.specs.Units as spec;
ghost use Rattle.sr_lex.specs.Units.{begins_with_digit, begins_with};
ghost use Rattle.sr_lex.specs.Strings.{is_quote, is_hex_digit, single_escape};

pub const LINE_FEED: u16 = 0x0A;

pub const CARRIAGE_RETURN: u16 = 0x0D;

pub const BACKQUOTE: u16 = 0x60;

pub const LEFT_BRACE: u16 = 0x7B;

pub const RIGHT_BRACE: u16 = 0x7D;

#[tactic(auto, unfolding(crate::specs::Units::is_line_end))]
pub fn is_line_end(unit: u16) -> bool
    ensures { result ≡ spec.is_line_end unit }
{
    unit == LINE_FEED || unit == CARRIAGE_RETURN || unit == 0x2028 || unit == 0x2029
}

/// White space other than line ends (ECMA-262 12.2).
#[tactic(auto, unfolding(crate::specs::Units::is_white_space))]
pub fn is_white_space(unit: u16) -> bool
    ensures { result ≡ spec.is_white_space unit }
{
    matches!(
        unit,
        0x09 | 0x0B | 0x0C | 0x20 | 0xA0 | 0x1680 | 0x2000..=0x200A
            | 0x202F
            | 0x205F
            | 0x3000
            | 0xFEFF
    )
}

#[tactic(auto, unfolding(crate::specs::Units::is_digit))]
pub fn is_digit(unit: u16) -> bool
    ensures { result ≡ spec.is_digit unit }
{
    0x30 <= unit && unit <= 0x39
}

/// A letter A to Z or a to z, `_` or `$`.
#[tactic(auto, unfolding(crate::specs::Units::is_name_start))]
pub fn is_name_start(unit: u16) -> bool
    ensures { result ≡ spec.is_name_start unit }
{
    (0x41 <= unit && unit <= 0x5A) || (0x61 <= unit && unit <= 0x7A) || unit == 0x5F || unit == 0x24
}

#[tactic(auto, unfolding(crate::specs::Units::is_name_part))]
pub fn is_name_part(unit: u16) -> bool
    ensures { result ≡ spec.is_name_part unit }
{
    is_name_start(unit) || is_digit(unit)
}

#[tactic(auto, unfolding(crate::specs::Strings::is_quote))]
pub fn is_quote(unit: u16) -> bool
    ensures { result ≡ is_quote unit }
{
    unit == 0x22 || unit == 0x27
}

/// The value of a digit or a letter, as a digit of a base up to 36, and 36 for any other unit.
pub fn digit_value(unit: u16) -> u32
    ensures value { result ≡ digit_value unit }
    ensures within { result ≤ 36 }
{
    let unit = u32::from(unit);
    match unit {
        0x30..=0x39 => unit - 0x30,
        0x41..=0x5A => unit - 0x37,
        0x61..=0x7A => unit - 0x57,
        _ => 36,
    }
}

#[tactic(auto, unfolding(crate::specs::Strings::is_hex_digit))]
pub fn is_hex_digit(unit: u16) -> bool
    ensures { result ≡ is_hex_digit unit }
{
    digit_value(unit) < 16
}

/// What a unit that follows a backslash stands for, where it stands for another.
#[tactic(auto, unfolding(crate::specs::Strings::single_escape))]
pub fn single_escape(unit: u16) -> Option<u16>
    ensures { result ≡ single_escape unit }
{
    match unit {
        0x62 => Some(0x08),
        0x74 => Some(0x09),
        0x6E => Some(LINE_FEED),
        0x76 => Some(0x0B),
        0x66 => Some(0x0C),
        0x72 => Some(CARRIAGE_RETURN),
        _ => None,
    }
}

/// Whether the first of the units is this one.
pub fn begins_with(unit: u16, units: &[u16]) -> bool
    ensures { result ≡ begins_with unit units.now }
{
    match units {
        [] => false,
        [first, ..] => *first == unit,
    }
}

/// Whether the first of the units is a digit.
pub fn begins_with_digit(units: &[u16]) -> bool
    ensures { result ≡ begins_with_digit units.now }
{
    match units {
        [] => false,
        [first, ..] => is_digit(*first),
    }
}
