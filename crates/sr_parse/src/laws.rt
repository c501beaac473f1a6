ghost use Rattle.sr_parse.specs.Laws.{OneScript, EachScript, OneModule, EachModule};

use sr_lex::laws::{each_text_is_read, one_failure, one_reading, tokens_or_failure};
use sr_syntax::laws::one_sorting;

/// A text is read as one list of statements at most, or refused for one reason.
pub fn one_script()
    ensures { OneScript }
{
    one_reading();
    one_failure();
    tokens_or_failure();
    one_sorting();
}

/// Each text is read or refused.
pub fn each_script()
    ensures { EachScript }
{
    each_text_is_read();
}

/// A text is read as one module at most, or refused for one reason.
pub fn one_module()
    ensures { OneModule }
{
    one_reading();
    one_failure();
    tokens_or_failure();
    one_sorting();
}

/// Each text is read as a module or refused.
pub fn each_module()
    ensures { EachModule }
{
    each_text_is_read();
}
