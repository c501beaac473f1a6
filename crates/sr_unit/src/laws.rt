ghost use Rattle.sr_unit.specs.Laws.{OneUnit, EachUnit};

use sr_lex::laws::{each_text_is_read, one_failure, one_front, one_reading, tokens_or_failure};
use sr_syntax::laws::one_sorting;

/// A text is read as one unit at most, or refused for one reason.
pub fn one_unit()
    ensures { OneUnit }
{
    one_reading();
    one_failure();
    one_front();
    tokens_or_failure();
    one_sorting();
}

/// Each text is read as a unit or refused.
#[tactic(auto, using(crate::proofs::Outcomes::each_unit))]
pub fn each_unit()
    ensures { EachUnit }
{
    each_text_is_read();
}
