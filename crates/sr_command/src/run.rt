ghost use Rattle.std.specs.Prelude.{◌≡◌, ◌≤◌, ◌⊎◌, List, ℕ, Option, Some, Ok, IfOk, IfSome, IsErrOf, length};
ghost use Rattle.sr_outside.specs.Counts.{Rose, Raised};
ghost use Rattle.sr_outside.specs.Loading.{IsHeld};
ghost use Rattle.sr_outside.specs.declared.loader.Loaded.{Loaded};
ghost use Rattle.sr_outside.specs.declared.loader.Loaded.TheVariants.{Text};
ghost use Rattle.sr_ast.specs.declared.reading.Reading.{Reading};
ghost use Rattle.sr_machine.specs.Running.{given, source_as};
ghost use Rattle.sr_command.specs.Writes.{streams};
ghost use Rattle.sr_command.specs.Courses as courses;
ghost use Rattle.sr_command.specs.Courses.{line_ending};
ghost use Rattle.sr_command.specs.Stops.{number_name, stop_line, stop_ending, uncaught_line, last_ending};
ghost use Rattle.sr_command.specs.Runs.{not_built, too_long, RunsReading, RunsText, RunsFile};
ghost use Rattle.sr_command.specs.Reaching.{ComesTo, RanOut, Reaches};

use crate::Status;
use crate::words::Asked;
use sr_ast::SourceCode;
use sr_machine::{Advance, Live, StopAt};
use sr_num::NumStop;
use sr_outside::{Loaded, Loader, Sink, WriteRefusal};
use sr_script::read_source;
use sr_state::{Source, StopName};
use sr_text::{Marker, Str, TextRefusal};
use std::alloc::{AllocError, Global};

/// Writes a line on the errors, as one write, and ends with this status.
pub(crate) fn end_with<E: Sink>(
    line: &[u8],
    status: Status,
    err: &mut E,
) -> Result<Status, WriteRefusal>
    ensures status { IfOk result (λ ended. ended ≡ status) }
    ensures comes { (out : Option (List ℕ)) → ComesTo (line_ending status line.now) result (streams out (E.written err.old)) (streams out (E.written err.new)) }
    ensures cause { IsErrOf result WriteRefusal.Failed → Rose (E.faults err.old) (E.faults err.new) }
    ensures faults { E.faults err.old ≤ E.faults err.new }
{
    err.write_all(line)?;
    Ok(status)
}

/// Ends the run of a file that is not built.
pub(crate) fn end_not_built<E: Sink>(
    alloc: Global,
    name: &str,
    err: &mut E,
) -> Result<Status, WriteRefusal>
    ensures status { IfOk result (λ ended. ended ≡ Status.NotBuilt) }
    ensures comes { (out : Option (List ℕ)) → ComesTo (not_built name.now) result (streams out (E.written err.old)) (streams out (E.written err.new)) }
    ensures cause { IsErrOf result WriteRefusal.Failed → Rose (E.faults err.old) (E.faults err.new) }
    ensures faults { E.faults err.old ≤ E.faults err.new }
{
    let line = format!(in alloc; "not built: {name}\n")?;
    end_with(line.as_bytes(), Status::NotBuilt, err)
}

/// The name of a stop of arithmetic.
fn number_name(stop: NumStop) -> &'static str
    ensures { result.now ≡ number_name stop }
{
    match stop {
        NumStop::NegativeZero => "negative zero",
        NumStop::Fraction => "fraction",
        NumStop::Infinite => "infinite",
        NumStop::Unsafe => "unsafe integer",
        NumStop::Form => "number form",
    }
}

/// The name of what is left out of the language by name.
fn marker_name(marker: Marker) -> &'static str
    ensures { result.now ≡ courses.marker_name marker }
{
    match marker {
        Marker::NumberForm => "number form",
        Marker::Bigint => "bigint",
        Marker::UnsafeLiteral => "unsafe literal",
        Marker::IdentifierEscape => "identifier escape",
        Marker::NonAscii => "non-ASCII identifier",
        Marker::Hash => "#",
        Marker::At => "@",
        Marker::Class => "class",
        Marker::Async => "async",
        Marker::Await => "await",
        Marker::Yield => "yield",
        Marker::Super => "super",
        Marker::With => "with",
        Marker::Arguments => "arguments",
        Marker::Proto => "__proto__",
        Marker::ImportCall => "import call",
        Marker::NewTarget => "new.target",
        Marker::Generator => "generator",
        Marker::RegularExpression => "regular expression",
        Marker::TaggedTemplate => "tagged template",
        Marker::Pattern => "pattern",
        Marker::DefaultParameter => "default parameter",
        Marker::ComputedAccessor => "computed accessor",
    }
}

/// Ends a run that stopped by a stop of this name, which is in the first realm.
fn end_by_name<E: Sink>(
    alloc: Global,
    name: &str,
    status: Status,
    stop: StopAt,
    err: &mut E,
) -> Result<Status, WriteRefusal>
    ensures comes { (out : Option (List ℕ)) → ComesTo (line_ending status (stop_line name.now stop.source stop.at)) result (streams out (E.written err.old)) (streams out (E.written err.new)) }
    ensures status { IfOk result (λ ended. ended ≡ status) }
    ensures cause { IsErrOf result WriteRefusal.Failed → Rose (E.faults err.old) (E.faults err.new) }
    ensures faults { E.faults err.old ≤ E.faults err.new }
{
    let source = stop.source;
    let at = stop.at;
    let line = format!(in alloc; "stop: {name}, realm 0, source {source}, at {at}\n")?;
    end_with(line.as_bytes(), status, err)
}

/// Ends the run of a text that is too long for a string.
fn end_too_long<E: Sink>(alloc: Global, err: &mut E) -> Result<Status, WriteRefusal>
    ensures comes { (out : Option (List ℕ)) → ComesTo too_long result (streams out (E.written err.old)) (streams out (E.written err.new)) }
    ensures read { result ≡ Ok Status.ReadFailed → ⊥ }
    ensures cause { IsErrOf result WriteRefusal.Failed → Rose (E.faults err.old) (E.faults err.new) }
    ensures faults { E.faults err.old ≤ E.faults err.new }
{
    let stop = StopAt {
        name: StopName::StringLength,
        source: 0,
        at: 0,
    };
    end_by_name(alloc, "string length", Status::Stopped, stop, err)
}

/// Ends a run that stopped, with this bound of steps.
fn end_by_stop<E: Sink>(
    alloc: Global,
    bound: u64,
    stop: StopAt,
    err: &mut E,
) -> Result<Status, WriteRefusal>
    ensures comes { (out : Option (List ℕ)) → ComesTo (stop_ending bound stop) result (streams out (E.written err.old)) (streams out (E.written err.new)) }
    ensures read { result ≡ Ok Status.ReadFailed → ⊥ }
    ensures cause { IsErrOf result WriteRefusal.Failed → Rose (E.faults err.old) (E.faults err.new) }
    ensures faults { E.faults err.old ≤ E.faults err.new }
{
    match stop.name {
        StopName::Number(number) => {
            end_by_name(alloc, number_name(number), Status::Stopped, stop, err)
        }
        StopName::StringLength => {
            end_by_name(alloc, "string length", Status::Stopped, stop, err)
        }
        StopName::CallDepth => end_by_name(alloc, "call depth", Status::Stopped, stop, err),
        StopName::SyntaxDepth => end_by_name(alloc, "syntax depth", Status::Stopped, stop, err),
        StopName::Unsupported(marker, at) => {
            let marker = marker_name(marker);
            let name = format!(in alloc; "unsupported {marker} at {at}")?;
            end_by_name(alloc, name.as_str(), Status::Stopped, stop, err)
        }
        StopName::Steps(used, cost) => {
            let name = format!(in alloc; "steps {used} of {bound}, charge {cost}")?;
            end_by_name(alloc, name.as_str(), Status::OutOfSteps, stop, err)
        }
    }
}

/// The line of an uncaught throw in a file, by what is told of it.
fn uncaught_line(alloc: Global, name: &str, text: &Str) -> Result<Vec<u8>, AllocError>
    ensures { IfOk result (λ line. line.items ≡ uncaught_line name.now text.now) }
{
    let mut line = Vec::from_slice(alloc, b"uncaught ")?;
    line.extend_from_slice(name.as_bytes())?;
    line.extend_from_slice(b": ")?;
    line.extend_from_slice(text.to_utf8(alloc)?.as_slice())?;
    line.push(b'\n')?;
    Ok(line)
}

/// Ends a run in which nothing is left to do, by what is told of the throw in which the source ended.
fn end_of_run<E: Sink>(
    alloc: Global,
    name: &str,
    thrown: Option<Str>,
    err: &mut E,
) -> Result<Status, WriteRefusal>
    ensures comes { (out : Option (List ℕ)) → ComesTo (last_ending name.now thrown) result (streams out (E.written err.old)) (streams out (E.written err.new)) }
    ensures read { result ≡ Ok Status.ReadFailed → ⊥ }
    ensures cause { IsErrOf result WriteRefusal.Failed → Rose (E.faults err.old) (E.faults err.new) }
    ensures faults { E.faults err.old ≤ E.faults err.new }
{
    match thrown {
        None => Ok(Status::Ran),
        Some(text) => {
            let line = uncaught_line(alloc, name, &text)?;
            end_with(line.as_slice(), Status::Threw, err)
        }
    }
}

/// Runs the source of a text that was given to a run, as it was asked.
fn run_to_end<O: Sink, E: Sink>(
    alloc: Global,
    asked: Asked<'_>,
    live: &mut Live,
    out: &mut O,
    err: &mut E,
) -> Result<Status, WriteRefusal>
    requires { (text : List ℕ) × (r : Reading) × (live.old ≡ given asked.bound (source_as (λ _. r) text)) }
    ensures reaches { (text : List ℕ) (r : Reading) → live.old ≡ given asked.entry.bound (source_as (λ _. r) text) → Reaches (RunsReading asked.entry.bound asked.entry.name.now text r) result (streams (O.written out.old) (E.written err.old)) (streams (O.written out.new) (E.written err.new)) }
    ensures read { result ≡ Ok Status.ReadFailed → ⊥ }
    ensures cause { IsErrOf result WriteRefusal.Failed → Rose (O.faults out.old) (O.faults out.new) ⊎ Rose (E.faults err.old) (E.faults err.new) }
    ensures out_faults { O.faults out.old ≤ O.faults out.new }
    ensures err_faults { E.faults err.old ≤ E.faults err.new }
{
    'steps: loop {
        match live.advance(out) {
            Advance::Going => continue 'steps,
            Advance::Thrown(text) => return end_of_run(alloc, asked.name, Some(text), err),
            Advance::Done => return end_of_run(alloc, asked.name, None, err),
            Advance::Stop(stop) => return end_by_stop(alloc, asked.bound, stop, err),
            Advance::Write => return Err(WriteRefusal::Failed),
            Advance::Memory => return Err(WriteRefusal::Memory),
        }
    }
}

/// Runs the source of a text that the file has.
fn run_source<O: Sink, E: Sink>(
    alloc: Global,
    asked: Asked<'_>,
    text: &Str,
    code: SourceCode,
    out: &mut O,
    err: &mut E,
) -> Result<Status, WriteRefusal>
    requires { code.units ≡ length text.now }
    ensures reaches { Reaches (RunsReading asked.entry.bound asked.entry.name.now text.now code.reading) result (streams (O.written out.old) (E.written err.old)) (streams (O.written out.new) (E.written err.new)) }
    ensures read { result ≡ Ok Status.ReadFailed → ⊥ }
    ensures cause { IsErrOf result WriteRefusal.Failed → Rose (O.faults out.old) (O.faults out.new) ⊎ Rose (E.faults err.old) (E.faults err.new) }
    ensures out_faults { O.faults out.old ≤ O.faults out.new }
    ensures err_faults { E.faults err.old ≤ E.faults err.new }
{
    let mut live = Live::open(alloc, asked.bound)?;
    let copy = text.clone()?;
    live.give_source(Source { text: copy, code });
    run_to_end(alloc, asked, &mut live, out, err)
}

/// Runs a text that the file has.
fn run_text<O: Sink, E: Sink>(
    alloc: Global,
    asked: Asked<'_>,
    text: &Str,
    out: &mut O,
    err: &mut E,
) -> Result<Status, WriteRefusal>
    ensures reaches { Reaches (RunsText asked.entry.bound asked.entry.name.now text.now) result (streams (O.written out.old) (E.written err.old)) (streams (O.written out.new) (E.written err.new)) }
    ensures read { result ≡ Ok Status.ReadFailed → ⊥ }
    ensures cause { IsErrOf result WriteRefusal.Failed → Rose (O.faults out.old) (O.faults out.new) ⊎ Rose (E.faults err.old) (E.faults err.new) }
    ensures out_faults { O.faults out.old ≤ O.faults out.new }
    ensures err_faults { E.faults err.old ≤ E.faults err.new }
{
    match read_source(alloc, text)? {
        Some(code) => run_source(alloc, asked, text, code, out, err),
        None => end_not_built(alloc, asked.name, err),
    }
}

/// Runs the file, which has these bytes.
fn run_bytes<O: Sink, E: Sink>(
    alloc: Global,
    asked: Asked<'_>,
    bytes: &[u8],
    out: &mut O,
    err: &mut E,
) -> Result<Status, WriteRefusal>
    ensures reaches { Reaches (RunsFile asked.entry.bound asked.entry.name.now (Text bytes.now)) result (streams (O.written out.old) (E.written err.old)) (streams (O.written out.new) (E.written err.new)) }
    ensures read { result ≡ Ok Status.ReadFailed → ⊥ }
    ensures cause { IsErrOf result WriteRefusal.Failed → Rose (O.faults out.old) (O.faults out.new) ⊎ Rose (E.faults err.old) (E.faults err.new) }
    ensures out_faults { O.faults out.old ≤ O.faults out.new }
    ensures err_faults { E.faults err.old ≤ E.faults err.new }
{
    match Str::from_utf8(alloc, bytes) {
        Ok(text) => run_text(alloc, asked, &text, out, err),
        Err(TextRefusal::NotUtf8(at)) => {
            let name = asked.name;
            let line = format!(in alloc; "not UTF-8: {name} at {at}\n")?;
            end_with(line.as_bytes(), Status::NoText, err)
        }
        Err(TextRefusal::TooLong) => end_too_long(alloc, err),
        Err(TextRefusal::Memory) => Err(WriteRefusal::Memory),
    }
}

/// Loads the file and runs it.
pub(crate) fn run_file<L: Loader, O: Sink, E: Sink>(
    alloc: Global,
    asked: Asked<'_>,
    loader: &mut L,
    out: &mut O,
    err: &mut E,
) -> Result<Status, WriteRefusal>
    ensures reaches { ((answer : Loaded) × (L.last loader.new ≡ Some (asked.entry.name.now, answer))
        × Reaches (RunsFile asked.entry.bound asked.entry.name.now answer) result (streams (O.written out.old) (E.written err.old)) (streams (O.written out.new) (E.written err.new)))
        ⊎ RanOut result (streams (O.written out.old) (E.written err.old)) (streams (O.written out.new) (E.written err.new)) }
    ensures asked_once { Raised (L.calls loader.old) (L.calls loader.new) }
    ensures honest { L.faults loader.new ≡ L.faults loader.old → IfSome (L.last loader.new) (λ last. IsHeld (L.held loader.old) asked.entry.name.now (Ok last.1)) }
    ensures read_cause { result ≡ Ok Status.ReadFailed → Rose (L.faults loader.old) (L.faults loader.new) }
    ensures cause { IsErrOf result WriteRefusal.Failed → Rose (O.faults out.old) (O.faults out.new) ⊎ Rose (E.faults err.old) (E.faults err.new) }
    ensures out_faults { O.faults out.old ≤ O.faults out.new }
    ensures err_faults { E.faults err.old ≤ E.faults err.new }
{
    let name = asked.name;
    match loader.load(name.as_bytes())? {
        Loaded::Text(bytes) => run_bytes(alloc, asked, bytes.as_slice(), out, err),
        Loaded::Absent => {
            let line = format!(in alloc; "absent: {name}\n")?;
            end_with(line.as_bytes(), Status::NoText, err)
        }
        Loaded::Failed => {
            let line = format!(in alloc; "read failed: {name}\n")?;
            end_with(line.as_bytes(), Status::ReadFailed, err)
        }
    }
}
