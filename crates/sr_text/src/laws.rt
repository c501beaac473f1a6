//! Laws of the definitions, each the contract of a function that does nothing.

ghost use Rattle.sr_text.specs.Laws.{DecodedOnce, DecodedOrFaulty, NoFaultWhereDecoded, OneFirstFault, EncodesBack, NumeralsAreRight};

/// Bytes are decoded as one list of code units alone.
pub fn decoded_once()
    ensures { DecodedOnce }
{}

/// Bytes that are decoded have no fault.
pub fn no_fault_where_decoded()
    ensures { NoFaultWhereDecoded }
{}

/// Bytes have one first fault at most.
pub fn one_first_fault()
    ensures { OneFirstFault }
{}

/// Bytes have either a first fault or code units that they are decoded as.
pub fn decoded_or_faulty()
    ensures { DecodedOrFaulty }
{}

/// Encoding what was decoded gives the bytes back.
pub fn encodes_back()
    ensures { EncodesBack }
{}

/// A number is written in digits of the radix that are worth it, with no `0` before another digit.
pub fn numerals_are_right()
    ensures { NumeralsAreRight }
{}
