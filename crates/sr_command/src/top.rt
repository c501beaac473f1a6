ghost use Rattle.std.specs.Prelude.{◌≡◌, ◌≢◌, ◌⊎◌, ◌≤◌, None, Some, Ok, IfSome, IsErrOf, map, string_bytes};
ghost use Rattle.sr_outside.specs.Counts.{Rose, Raised};
ghost use Rattle.sr_outside.specs.Loading.{IsHeld};
ghost use Rattle.sr_command.specs.Words.{asked};
ghost use Rattle.sr_command.specs.Writes.{streams};
ghost use Rattle.sr_command.specs.Answers.{ReachesRun, Completes, BreaksOff, Starves, StarvesAtOnce};

use crate::run::{end_not_built, end_with, run_file};
use crate::words::{command, is_unbuilt};
use crate::{Status, laws};
use sr_outside::{Loader, Sink, WriteRefusal};
use std::alloc::Global;

/// The status where a sink failed.
const WRITE_FAILED: u8 = 7;

/// The status for want of memory.
const OUT_OF_MEMORY: u8 = 8;

/// Does all that the command does, and answers the status of the process.
///
/// The words are those after the program's name: `FILE`, or `--steps N FILE` with a bound of steps. The file is asked from
/// the loader, run as a script, and what it prints goes to `out`, each line as one write; a line that names the cause of
/// another end goes to `err`.
///
/// | Status | Cause |
/// |---|---|
/// | 0 | the file ran to its end |
/// | 1 | the file ended in a throw; a text that is no script throws a SyntaxError |
/// | 2 | the words are not of the command |
/// | 3 | the run stopped by a listed stop |
/// | 4 | the next charge would pass the bound of steps |
/// | 5 | there is no such file, or it is not UTF-8 |
/// | 6 | the loader failed, and its count of faults rose in this call |
/// | 7 | a sink failed, and its count of faults rose in this call |
/// | 8 | want of memory |
/// | 9 | the file has a name, or holds a script, of a form that is not built |
///
/// After 7 and 8 the streams have gained the first writes of all that the run writes in the end, after 7 with a first part of
/// the next one, and then a first part of the line `write failed` or `memory`.
pub fn shadow_run<L: Loader, O: Sink, E: Sink>(
    alloc: Global,
    words: &Vec<String>,
    loader: &mut L,
    out: &mut O,
    err: &mut E,
) -> u8
    ensures completes { result ≢ 7 → result ≢ 8 → Completes (map string_bytes words.now.items) (L.last loader.old) (L.last loader.new) result
        (streams (O.written out.old) (E.written err.old)) (streams (O.written out.new) (E.written err.new)) }
    ensures breaks_off { result ≡ 7 → BreaksOff (map string_bytes words.now.items) (L.last loader.old) (L.last loader.new)
        (streams (O.written out.old) (E.written err.old)) (streams (O.written out.new) (E.written err.new)) }
    ensures starves { result ≡ 8 → Starves (map string_bytes words.now.items) (L.last loader.old) (L.last loader.new)
        (streams (O.written out.old) (E.written err.old)) (streams (O.written out.new) (E.written err.new))
        ⊎ StarvesAtOnce (streams (O.written out.old) (E.written err.old)) (streams (O.written out.new) (E.written err.new)) }
    ensures unasked { asked (map string_bytes words.now.items) ≡ None → loader.new ≡ loader.old }
    ensures asked_once { asked (map string_bytes words.now.items) ≢ None → Raised (L.calls loader.old) (L.calls loader.new) }
    ensures honest { IfSome (asked (map string_bytes words.now.items)) (λ name. L.faults loader.new ≡ L.faults loader.old
        → IfSome (L.last loader.new) (λ last. IsHeld (L.held loader.old) name (Ok last.1))) }
    ensures read_cause { result ≡ 6 → Rose (L.faults loader.old) (L.faults loader.new) }
    ensures write_cause { result ≡ 7 → Rose (O.faults out.old) (O.faults out.new) ⊎ Rose (E.faults err.old) (E.faults err.new) }
{
    laws::one_run();
    match run_words(alloc, words, loader, out, err) {
        Ok(status) => status.code(),
        Err(WriteRefusal::Failed) => {
            let _ = err.write_all(b"write failed\n");
            WRITE_FAILED
        }
        Err(WriteRefusal::Memory) => {
            let _ = err.write_all(b"memory\n");
            OUT_OF_MEMORY
        }
    }
}

/// Runs what the words ask for.
fn run_words<L: Loader, O: Sink, E: Sink>(
    alloc: Global,
    words: &[String],
    loader: &mut L,
    out: &mut O,
    err: &mut E,
) -> Result<Status, WriteRefusal>
    ensures reaches { ReachesRun (map string_bytes words.now) (L.last loader.old) (L.last loader.new) result
        (streams (O.written out.old) (E.written err.old)) (streams (O.written out.new) (E.written err.new)) }
    ensures unasked { asked (map string_bytes words.now) ≡ None → loader.new ≡ loader.old }
    ensures asked_once { asked (map string_bytes words.now) ≢ None → Raised (L.calls loader.old) (L.calls loader.new) }
    ensures honest { IfSome (asked (map string_bytes words.now)) (λ name. L.faults loader.new ≡ L.faults loader.old
        → IfSome (L.last loader.new) (λ last. IsHeld (L.held loader.old) name (Ok last.1))) }
    ensures read_cause { result ≡ Ok Status.ReadFailed → Rose (L.faults loader.old) (L.faults loader.new) }
    ensures cause { IsErrOf result WriteRefusal.Failed → Rose (O.faults out.old) (O.faults out.new) ⊎ Rose (E.faults err.old) (E.faults err.new) }
    ensures out_faults { O.faults out.old ≤ O.faults out.new }
    ensures err_faults { E.faults err.old ≤ E.faults err.new }
{
    let Some(asked) = command(words) else {
        return end_with(b"words refused\n", Status::WordsRefused, err);
    };
    if is_unbuilt(asked.name) {
        return end_not_built(alloc, asked.name, err);
    }
    run_file(alloc, asked, loader, out, err)
}
