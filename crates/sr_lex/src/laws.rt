ghost use Rattle.sr_lex.specs.Laws.{OneReading, OneFailure, OneFront, TokensOrFailure, EachTextIsRead, OneValue, OneNumber, OnePieceValue};

/// A text has the tokens of one list at most.
pub fn one_reading()
    ensures { OneReading }
{}

/// A text fails at one place at most.
pub fn one_failure()
    ensures { OneFailure }
{}

/// A text fails after the tokens of one list at most.
pub fn one_front()
    ensures { OneFront }
{}

/// A text that has tokens does not fail.
pub fn tokens_or_failure()
    ensures { TokensOrFailure }
{}

/// A text has tokens or fails.
pub fn each_text_is_read()
    ensures { EachTextIsRead }
{}

/// A string literal has one value.
pub fn one_value()
    ensures { OneValue }
{}

/// A number literal has one value.
pub fn one_number()
    ensures { OneNumber }
{}

/// A template piece has one value.
pub fn one_piece_value()
    ensures { OnePieceValue }
{}
