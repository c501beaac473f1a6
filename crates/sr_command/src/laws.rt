ghost use Rattle.sr_command.specs.Laws.{OneRun, EachLeadsToTheEnd};

use sr_script::laws;

/// Words and the answers of the loader have one end at most: what is written, and how it ends, is determined. And what is
/// written up to any point of the run is the beginning of all that it writes.
pub fn one_run()
    ensures one { OneRun }
    ensures each { EachLeadsToTheEnd }
{
    laws::one_reading();
}
