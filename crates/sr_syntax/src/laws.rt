ghost use Rattle.sr_syntax.specs.Laws.{OneSorting};

use sr_lex::laws::{one_number, one_piece_value, one_value};

/// The tokens of a text are one list of tokens to the grammar.
pub fn one_sorting()
    ensures { OneSorting }
{
    one_value();
    one_number();
    one_piece_value();
}
