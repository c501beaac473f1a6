ghost use Rattle.sr_num.specs.DecimalGrammar.{DecimalsAreOfTheGrammar};
ghost use Rattle.sr_num.specs.TextGrammar.{TextsAreReadByTheGrammar};

/// The texts that `read_number` takes for a StrUnsignedDecimalLiteral are those of the grammar (ECMA-262 7.1.4.1).
pub fn decimals_are_of_the_grammar()
    ensures { DecimalsAreOfTheGrammar }
{}

/// `read_number` reads the grammar of a StringNumericLiteral (ECMA-262 7.1.4.1): a text comes to what the grammar says,
/// and to NaN where the grammar does not have it.
pub fn texts_are_read_by_the_grammar()
    ensures { TextsAreReadByTheGrammar }
{}
