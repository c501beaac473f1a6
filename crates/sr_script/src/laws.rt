ghost use Rattle.sr_script.specs.Built.{OneReading};

use sr_lex::laws::{one_failure, one_front, one_reading as one_list, tokens_or_failure};
use sr_syntax::laws::one_sorting;

/// A text has one reading at most.
pub fn one_reading()
    ensures { OneReading }
{
    one_list();
    one_failure();
    one_front();
    tokens_or_failure();
    one_sorting();
}
