ghost use Rattle.std.specs.Prelude.{◌≡◌, ◌≤◌, ◌<◌, ℕ, Some, None, [], OnOk, IfOk, IfSome, IsErrOf, Option};
ghost use Rattle.std.specs.Io.KnownBytes.{Appends};
ghost use Rattle.sr_ast.specs.declared.reading.Reading.{Reading};
ghost use Rattle.sr_model.specs.Values.{Text};
ghost use Rattle.sr_outside.specs.Counts.{Rose};
ghost use Rattle.sr_outside.specs.Writing.{AppendsPart};
ghost use Rattle.sr_machine.specs.Going.{line_of, left_of, printed, AtRest, GoesOn, BreaksOff};
ghost use Rattle.sr_machine.specs.Running.{opened, giving, answer_of, thrown_in, told, Remembers, Stopped};

use crate::reports::report;
use crate::steps::step;
use sqlite_items::Items;
use sr_outside::{Sink, WriteRefusal};
use sr_state::{
    Abrupt, Activity, Answer, Completion, Context, Frame, Next, Source, State, StopName,
};
use sr_text::Str;
use std::alloc::{AllocError, Global};
use std::marker::Model;

/// A stop, and the source and the start of the last tree whose charge was paid. Places are counted in code units.
#[derive(Clone, Copy, Debug, PartialEq, Eq)]
pub struct StopAt {
    /// Its name.
    pub name: StopName,
    /// The number of the source, and 0 where no tree has paid.
    pub source: u32,
    /// The start of the tree.
    pub at: usize,
}

/// What a step of a run came to.
#[derive(Debug, Drop)]
pub enum Advance {
    /// More is left to do.
    Going,
    /// The source has ended in a throw, of which this is told. It comes once.
    Thrown(Str),
    /// Nothing is left to do.
    Done,
    /// The run stopped, in this step or an earlier one.
    Stop(StopAt),
    /// The sink failed, in this step or an earlier one.
    Write,
    /// Want of memory, in this step or an earlier one.
    Memory,
}

/// What ended a run before its end.
#[derive(Clone, Copy, Debug, PartialEq, Eq)]
pub enum Ended {
    /// A stop.
    Stop(StopAt),
    /// A write that the sink refused.
    Write,
    /// Want of memory.
    Memory,
}

/// The run of a source.
pub struct Live {
    alloc: Global,
    state: State,
    over: Option<Ended>,
}

// Written by hand, so that the crates above prove nothing of how a state is dropped.
impl Drop for Live {
    fn drop(self) {
        let Live {
            alloc: _,
            state,
            over: _,
        } = self;
        drop(state);
    }
}

impl Model for Live {
    ghost use Rattle.std.specs.Prelude.{◌≡◌, None};
    ghost use Rattle.std.specs.Coded.{codes};
    ghost use Rattle.sr_ast.specs.contracts.tree.Tree as kind;
    ghost use Rattle.sr_machine.specs.Running.{Running};

    ghost Value = { Running };

    ghost coded = { Prim.hlevel (codes, kind.the_row.coded) };

    ghost view = { λ live. record { held = live.state; over = live.over } };

    ghost invariant = { λ live. live.over ≡ None → live.state.outer.cut ≡ None };
}

impl Live {
    /// A run with this bound of steps, to which nothing was given yet.
    pub fn open(alloc: Global, bound: u64) -> Result<Live, AllocError>
        ensures { IfOk result (λ live. live ≡ opened bound) }
    {
        Ok(Live {
            alloc,
            state: State::new(alloc, bound)?,
            over: None,
        })
    }

    /// Gives the run a source to run.
    pub fn give_source(&mut self, source: Source)
        ensures { self.new ≡ giving source self.old }
    {
        let activity = Activity::Source(source);
        let frame = Frame::new(activity, Context::no_source(), 0, Items::new(self.alloc));
        self.state.replace_top(frame);
    }

    /// The report of the throw in which the source ended; none where it ended normally, or where that was told.
    fn thrown(&self) -> Result<Option<Str>, AllocError>
        ensures { IfOk result (λ text. text ≡ thrown_in self.now.held) }
    {
        match self.state.answer() {
            Answer::Done(Completion::Abrupt(Abrupt::Throw(value))) => {
                Ok(Some(report(self.alloc, &self.state, value)?))
            }
            Answer::Done(Completion::Abrupt(Abrupt::Return(_))) => Ok(None),
            Answer::Done(Completion::Abrupt(Abrupt::Break(_))) => Ok(None),
            Answer::Done(Completion::Abrupt(Abrupt::Continue(_))) => Ok(None),
            Answer::Done(Completion::Normal(_)) => Ok(None),
            Answer::Empty => Ok(None),
        }
    }

    /// Takes one step, in which at most one charge is paid and at most one line is printed, as one write. After a stop, a
    /// refused write or want of memory every further step answers the same and does nothing.
    pub fn advance<O: Sink>(&mut self, out: &mut O) -> Advance
        ensures going { result ≡ Advance.Going → GoesOn self.old.held self.new.held (O.written out.old) (O.written out.new) }
        ensures on { result ≡ Advance.Going → self.new.over ≡ None }
        ensures over { Remembers result self.new.over }
        ensures thrown { (text : Text) → result ≡ Advance.Thrown text → AtRest self.old.held × (thrown_in self.old.held ≡ Some text) × (self.new ≡ told self.old) }
        ensures thrown_falls { (text : Text) → result ≡ Advance.Thrown text → left_of self.new.held < left_of self.old.held }
        ensures thrown_unwritten { (text : Text) → result ≡ Advance.Thrown text → O.written out.new ≡ O.written out.old }
        ensures done { result ≡ Advance.Done → AtRest self.old.held × (thrown_in self.old.held ≡ None) × (self.new ≡ self.old) }
        ensures done_unwritten { result ≡ Advance.Done → O.written out.new ≡ O.written out.old }
        ensures rest { self.old.over ≡ None → AtRest self.old.held → (result ≡ Advance.Going → ⊥) × (result ≡ Advance.Write → ⊥) × ((s : _) → result ≡ Advance.Stop s → ⊥) }
        ensures stop { self.old.over ≡ None → (s : _) → result ≡ Advance.Stop s → Stopped s self.old.held self.new.held }
        ensures stop_unwritten { (s : _) → result ≡ Advance.Stop s → O.written out.new ≡ O.written out.old }
        ensures write { result ≡ Advance.Write → self.old.over ≡ None → BreaksOff self.old.held (O.written out.old) (O.written out.new) }
        ensures cause { result ≡ Advance.Write → self.old.over ≡ None → Rose (O.faults out.old) (O.faults out.new) }
        ensures memory { result ≡ Advance.Memory → O.written out.new ≡ O.written out.old }
        ensures ended { IfSome self.old.over (λ end. (result ≡ answer_of end) × (self.new ≡ self.old) × (O.written out.new ≡ O.written out.old)) }
        ensures faults { O.faults out.old ≤ O.faults out.new }
    {
        if let Some(end) = self.over {
            return answer_to(end);
        }
        if self.state.is_idle() {
            return self.finish();
        }
        match step(&mut self.state) {
            Err(_) => end_by(&mut self.over, Ended::Memory),
            Ok(Next::Going) => Advance::Going,
            Ok(Next::Ended) => {
                self.state.pop();
                Advance::Going
            }
            Ok(Next::Print(text)) => self.print(text, out),
            Ok(Next::Halt(name)) => {
                let stop = StopAt {
                    name,
                    source: self.state.last_source(),
                    at: self.state.last_at(),
                };
                end_by(&mut self.over, Ended::Stop(stop))
            }
            Ok(Next::CutOff) => unreachable!(),
        }
    }

    /// Nothing is left to do: where the source has ended in a throw, this is told once.
    fn finish(&mut self) -> Advance
        ensures thrown { (text : Text) → result ≡ Advance.Thrown text → (thrown_in self.old.held ≡ Some text) × (self.new ≡ told self.old) }
        ensures done { result ≡ Advance.Done → (thrown_in self.old.held ≡ None) × (self.new ≡ self.old) }
        ensures falls { (text : Text) → result ≡ Advance.Thrown text → left_of self.new.held < left_of self.old.held }
        ensures others { (result ≡ Advance.Going → ⊥) × (result ≡ Advance.Write → ⊥) × ((s : _) → result ≡ Advance.Stop s → ⊥) }
        ensures over { Remembers result self.new.over }
    {
        match self.thrown() {
            Err(_) => end_by(&mut self.over, Ended::Memory),
            Ok(None) => Advance::Done,
            Ok(Some(text)) => {
                self.state.put_answer(Answer::Empty);
                Advance::Thrown(text)
            }
        }
    }

    /// Prints a line of the frame on top, and gives that an empty end.
    fn print<O: Sink>(&mut self, text: Str, out: &mut O) -> Advance
        ensures going { result ≡ Advance.Going → (self.new ≡ (let r = self.old in record r { held = printed text r.held })) × Appends (O.written out.old) (O.written out.new) (line_of text) }
        ensures others { (result ≡ Advance.Done → ⊥) × ((text : Text) → result ≡ Advance.Thrown text → ⊥) × ((s : _) → result ≡ Advance.Stop s → ⊥) }
        ensures write { result ≡ Advance.Write → AppendsPart (O.written out.old) (O.written out.new) (line_of text) × Rose (O.faults out.old) (O.faults out.new) }
        ensures memory { result ≡ Advance.Memory → O.written out.new ≡ O.written out.old }
        ensures over { Remembers result self.new.over }
        ensures faults { O.faults out.old ≤ O.faults out.new }
    {
        match print_line(self.alloc, &mut self.state, text, out) {
            Ok(()) => Advance::Going,
            Err(WriteRefusal::Failed) => end_by(&mut self.over, Ended::Write),
            Err(WriteRefusal::Memory) => end_by(&mut self.over, Ended::Memory),
        }
    }
}

/// A run ends here.
fn end_by(over: &mut Option<Ended>, end: Ended) -> Advance
    ensures answer { result ≡ answer_of end }
    ensures over { over.new ≡ Some end }
{
    *over = Some(end);
    answer_to(end)
}

/// The answer after the end.
fn answer_to(end: Ended) -> Advance
    ensures { result ≡ answer_of end }
{
    match end {
        Ended::Stop(stop) => Advance::Stop(stop),
        Ended::Write => Advance::Write,
        Ended::Memory => Advance::Memory,
    }
}

/// A line, written and printed in the realm; the frame on top is given an empty end.
fn print_line<O: Sink>(
    alloc: Global,
    state: &mut State,
    text: Str,
    out: &mut O,
) -> Result<(), WriteRefusal>
    ensures ok { OnOk result ((state.new ≡ printed text state.old) × Appends (O.written out.old) (O.written out.new) (line_of text)) }
    ensures failed { IsErrOf result WriteRefusal.Failed → AppendsPart (O.written out.old) (O.written out.new) (line_of text) × Rose (O.faults out.old) (O.faults out.new) }
    ensures memory { IsErrOf result WriteRefusal.Memory → O.written out.new ≡ O.written out.old }
    ensures faults { O.faults out.old ≤ O.faults out.new }
{
    let line = line_bytes(alloc, &text)?;
    state.add_line(text)?;
    out.write_all(&line)?;
    state.put_answer(Answer::Done(Completion::Normal(None)));
    Ok(())
}

/// What is written for a line: the string in UTF-8, and a newline.
fn line_bytes(alloc: Global, text: &Str) -> Result<Vec<u8>, AllocError>
    ensures { IfOk result (λ line. line.items ≡ line_of text.now) }
{
    let mut line = text.to_utf8(alloc)?;
    line.push(0x0A)?;
    Ok(line)
}
