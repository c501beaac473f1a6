ghost use Rattle.std.specs.Prelude.{◌≡◌, ◌++◌, length, Some, is_some, IfOk, IfSome, OnOk};
ghost use Rattle.sr_conv.specs.Plain.{value_of, option_of};
ghost use Rattle.sr_conv.specs.Answers.{GivesPrimitive, operated_of};
ghost use Rattle.sr_value.specs.Live.{Extent, IsLiveValue};
ghost use Rattle.sr_realm.specs.Errors.{type_error};
ghost use Rattle.sr_realm.specs.Live.{IsLiveKnown};
ghost use Rattle.sr_realm.specs.Plain.{known_of, write_of};
ghost use Rattle.sr_state.specs.Live.{IsLiveEnd};
ghost use Rattle.sr_state.specs.Step as step;
ghost use Rattle.sr_conv.specs.Operators.{Joins};
ghost use Rattle.sr_state.specs.declared.ends.Completion.TheVariants as completion;
ghost use Rattle.sr_state.specs.Trees.{value_in, text_in};
ghost use Rattle.sr_state.specs.Ends.{Comes};
ghost use Rattle.sr_state.specs.Held.{extent_in, pay_in, begun_in, keeping};
ghost use Rattle.sr_state.specs.Step.{operand_of};
ghost use Rattle.sr_state.specs.Parts.{Starts, Paying, Enters, Opens, Resumes, ResumesValue, BeginsPart, BeginsWith, Becomes, EndsWith, Makes, Operates, Checks, IsCost, PutsName, Throws, Uses, no_error, value_now, part_begun, kept_in, PaysFor, PaysKept, performing};

use crate::ends::{Abrupt, Answer, Completion, Next, Over, StopName};
use crate::frame::{Activity, Context, Frame};
use crate::state::State;
use sqlite_items::Items;
use sr_ast::{Code, Node, Tree};
use sr_conv::Operated;
use sr_intrin::{BuiltIn, ErrorName};
use sr_realm::{
    Known, Write, constant_message, type_message, undefined_message, uninitialized_message,
};
use sr_shared::Shared;
use sr_text::{MAX_UNITS, Str};
use sr_value::Value;
use std::alloc::{AllocError, Global};

/// The value that a name has, if it has one that is at hand.
fn at_hand(known: Known) -> Option<Value>
    ensures same { option_of result ≡ step.at_hand (known_of known) }
    ensures live { (e : Extent) → IsLiveKnown e known → IfSome result (IsLiveValue e) }
{
    match known {
        Known::Has(value) => Some(value),
        Known::Getter(_) | Known::NoValue | Known::NotBound => None,
    }
}

/// The value of an end; an empty one counts as undefined.
fn value_or_undefined(value: Option<Value>) -> Value
    ensures same { value_of result ≡ value_in (option_of value) }
    ensures live { (e : Extent) → IfSome value (IsLiveValue e) → IsLiveValue e result }
{
    match value {
        Some(value) => value,
        None => Value::Undefined,
    }
}

/// Whether a tree is a literal or a name.
fn is_operand(tree: &Tree) -> bool
    ensures { result ≡ is_some (operand_of tree.now) }
{
    match &tree.node {
        Node::Null | Node::Bool(_) | Node::Num(_) | Node::Text(_) | Node::Name(_) => true,
        _ => false,
    }
}

impl State {
    /// A step begins. One that was given an end is over.
    #[inline(always)]
    fn start(&mut self) -> Result<(), Next>
        ensures { Starts self.old result self.new }
    {
        match self.take_answer() {
            Answer::Done(_) => Err(Next::Going),
            Answer::Empty => Ok(()),
        }
    }

    /// Pays so many steps as a step begins, or the step is over.
    pub fn pay(&mut self, cost: u64) -> Result<(), Next>
        ensures { Paying cost (pay_in cost) self.old result self.new }
    {
        self.start()?;
        self.spend(cost)
    }

    /// Pays the step of a tree of the frame on top that begins at this place, counted in code units, as a step begins, or the step
    /// is over.
    #[inline(always)]
    pub fn begin(&mut self, at: usize) -> Result<(), Next>
        ensures { Paying 1 (begun_in self.old.top.context.source at) self.old result self.new }
    {
        self.start()?;
        self.spend_at(at)
    }

    /// Enters a function as a step begins, or the step is over: the limit of active calls is tested before the step of the entry is
    /// paid.
    pub fn enter(&mut self) -> Result<(), Next>
        ensures { Enters self.old result self.new }
    {
        self.start()?;
        if self.top().calls < MAX_CALLS {
            self.spend(1)?;
            self.deepen();
            Ok(())
        } else {
            Err(Next::Halt(StopName::CallDepth))
        }
    }

    /// Makes a frame for a part, above the one on top.
    fn push_part(&mut self, part: &Shared<Tree>) -> Result<(), AllocError>
        ensures { OnOk result (self.new ≡ part_begun part.now self.old) }
    {
        self.push(Activity::Tree(Code::new(part)?))
    }

    /// The frame on top goes on as that of a tree.
    pub fn become_part(&mut self, part: &Shared<Tree>) -> Result<Next, Over>
        ensures { Comes result (λ next. Becomes part.now self.old next self.new) }
    {
        let code = Activity::Tree(Code::new(part)?);
        let top = self.top();
        let frame = Frame::new(code, top.context, top.calls, Items::new(self.alloc()));
        self.replace_top(frame);
        Ok(Next::Going)
    }

    /// The value that a tree has now, where it is a literal or a name that has one.
    fn value_now(&self, tree: &Tree) -> Result<Option<Value>, AllocError>
        ensures same { IfOk result (λ v. option_of v ≡ value_now tree.now self.now) }
        ensures live { IfOk result (λ v. IfSome v (IsLiveValue (extent_in self.now.side))) }
    {
        match &tree.node {
            Node::Null => Ok(Some(Value::Null)),
            Node::Bool(truth) => Ok(Some(Value::Bool(*truth))),
            Node::Num(number) => Ok(Some(Value::Num(*number))),
            Node::Text(text) => Ok(Some(Value::Str(text.clone()?))),
            Node::Name(name) => Ok(at_hand(self.name(name)?)),
            _ => Ok(None),
        }
    }

    /// Begins a part: one that has a value now pays its step, and for any other a frame is made.
    fn open(&mut self, part: &Shared<Tree>) -> Result<Value, Over>
        ensures opens { Opens part.now self.old result self.new }
        ensures live { IfOk result (IsLiveValue (extent_in self.new.side)) }
    {
        match self.value_now(part.get())? {
            None => {
                self.push_part(part)?;
                Err(Over::Next(Next::Going))
            }
            Some(value) => {
                self.spend_at(part.get().from)?;
                Ok(value)
            }
        }
    }

    /// The end of a part as the step begins, where it ended normally: where it has not begun, it begins.
    pub fn resume(&mut self, part: &Shared<Tree>) -> Result<Option<Value>, Over>
        ensures resumes { Resumes part.now self.old result self.new }
        ensures live { IfOk result (λ v. IfSome v (IsLiveValue (extent_in self.new.side))) }
    {
        match self.take_answer() {
            Answer::Empty => Ok(Some(self.open(part)?)),
            Answer::Done(Completion::Normal(value)) => Ok(value),
            Answer::Done(Completion::Abrupt(abrupt)) => {
                self.put_answer(Answer::Done(Completion::Abrupt(abrupt)));
                Err(Over::Next(Next::Ended))
            }
        }
    }

    /// The value of a part as the step begins: where the part has not begun, it begins.
    pub fn resume_value(&mut self, part: &Shared<Tree>) -> Result<Value, Over>
        ensures resumes { ResumesValue part.now self.old result self.new }
        ensures live { IfOk result (IsLiveValue (extent_in self.new.side)) }
    {
        Ok(value_or_undefined(self.resume(part)?))
    }

    /// Begins a part later in a step: before a literal or a name the step ends, and for any other a frame is made.
    #[inline(always)]
    #[tactic(auto, using(crate::proofs::Operands::operand_there, crate::proofs::Operands::no_operand))]
    pub fn begin_part(&mut self, part: &Shared<Tree>) -> Result<Next, Over>
        ensures { Comes result (λ next. BeginsPart part.now self.old next self.new) }
    {
        if !is_operand(part.get()) {
            self.push_part(part)?;
        }
        Ok(Next::Going)
    }

    /// Pays the step of the tree of the frame on top, which begins at this place, counted in code units, and begins its first part:
    /// the frame is then at stage 1.
    pub fn begin_with(&mut self, at: usize, part: &Shared<Tree>) -> Result<Next, Over>
        ensures { Comes result (λ next. BeginsWith at part.now self.old next self.new) }
    {
        self.begin(at)?;
        self.set_stage(1);
        self.begin_part(part)
    }

    /// The frame on top ends.
    #[inline(always)]
    pub fn end(&mut self, end: Completion) -> Next
        requires { IsLiveEnd (extent_in self.old.side) end }
        ensures { EndsWith end self.old result self.new }
    {
        self.put_answer(Answer::Done(end));
        Next::Ended
    }

    /// The frame on top ends with a value.
    #[inline(always)]
    pub fn give(&mut self, value: Value) -> Next
        requires { IsLiveValue (extent_in self.old.side) value }
        ensures { EndsWith (completion.Normal (Some value)) self.old result self.new }
    {
        self.end(Completion::Normal(Some(value)))
    }

    /// The frame on top throws the value undefined: so does what no frame comes to, and what is not built.
    pub fn throw(&mut self) -> Next
        ensures { EndsWith no_error self.old result self.new }
    {
        self.end(Completion::Abrupt(Abrupt::Throw(Value::Undefined)))
    }

    /// The frame on top ends by the throw of a new error (ECMA-262 20.5).
    pub fn throw_error(&mut self, name: ErrorName, message: Str) -> Result<Next, AllocError>
        ensures { IfOk result (λ next. Throws (record { name = name; message = message }) self.old next self.new) }
    {
        let error = self.make_error(name, message)?;
        Ok(self.end(Completion::Abrupt(Abrupt::Throw(error))))
    }

    /// The frame on top ends by the throw of a TypeError that has no message of its own.
    pub fn throw_type_error(&mut self) -> Result<Next, AllocError>
        ensures { IfOk result (λ next. Throws type_error self.old next self.new) }
    {
        let message = type_message(self.alloc())?;
        self.throw_error(ErrorName::Type, message)
    }

    /// The value that a name gave; where it has none that is at hand, the frame on top ends (ECMA-262 6.2.5.5 GetValue).
    pub fn use_known(&mut self, name: &Str, known: Known) -> Result<Value, Over>
        requires { IsLiveKnown (extent_in self.old.side) known }
        ensures uses { Uses name.now (known_of known) self.old result self.new }
        ensures live { IfOk result (IsLiveValue (extent_in self.new.side)) }
    {
        match known {
            Known::Has(value) => Ok(value),
            Known::Getter(_) => Err(Over::Next(self.throw())),
            Known::NoValue => {
                let message = uninitialized_message(self.alloc(), name)?;
                Err(Over::Next(self.throw_error(ErrorName::Reference, message)?))
            }
            Known::NotBound => {
                let message = undefined_message(self.alloc(), name)?;
                Err(Over::Next(self.throw_error(ErrorName::Reference, message)?))
            }
        }
    }

    /// Gives a name that is bound where the frame on top keeps it a value. Where the name does not take it, that frame ends (ECMA-262
    /// 6.2.5.6 PutValue).
    pub fn put_name(&mut self, name: &Str, value: Value) -> Result<(), Over>
        requires { IsLiveValue (extent_in self.old.side) value }
        ensures { PutsName name.now value self.old result self.new }
    {
        let write = self.write_name(name, value)?;
        self.check_write(name, write)
    }

    /// After a write of a name: where the name does not take the value, the frame on top ends.
    fn check_write(&mut self, name: &Str, write: Write) -> Result<(), Over>
        ensures { Checks name.now (write_of write) self.old result self.new }
    {
        match write {
            Write::Written => Ok(()),
            Write::Setter(_) => Err(Over::Next(self.throw())),
            Write::TooEarly => {
                let message = uninitialized_message(self.alloc(), name)?;
                Err(Over::Next(self.throw_error(ErrorName::Reference, message)?))
            }
            Write::Fixed => {
                let message = constant_message(self.alloc(), name)?;
                Err(Over::Next(self.throw_error(ErrorName::Type, message)?))
            }
            Write::Unbound => {
                let message = undefined_message(self.alloc(), name)?;
                Err(Over::Next(self.throw_error(ErrorName::Reference, message)?))
            }
            Write::Rejected => Err(Over::Next(self.throw_type_error()?)),
        }
    }

    /// The value that the frame on top keeps, which is taken away; undefined where it keeps none.
    pub fn take_value(&mut self) -> Value
        ensures value { value_of result ≡ kept_in self.old }
        ensures live { IsLiveValue (extent_in self.new.side) result }
        ensures rest { self.new ≡ keeping None self.old }
    {
        value_or_undefined(self.take_kept())
    }

    /// The value that an operator came to.
    pub fn operated(&mut self, came: Operated, stage: u32) -> Result<Value, Over>
        requires { GivesPrimitive came }
        ensures operates { Operates stage (operated_of came) self.old result self.new }
        ensures live { IfOk result (IsLiveValue (extent_in self.new.side)) }
    {
        match came {
            Operated::Gives(value) => Ok(value),
            Operated::Halts(stop) => Err(Over::Next(Next::Halt(StopName::Number(stop)))),
            Operated::Rejects => Err(Over::Next(self.throw_type_error()?)),
            Operated::Joins(left, right) => self.joined(&left, &right, stage),
        }
    }

    /// Both strings as one.
    fn joined(&mut self, left: &Str, right: &Str, stage: u32) -> Result<Value, Over>
        ensures operates { Operates stage (Joins left.now right.now) self.old result self.new }
        ensures live { IfOk result (IsLiveValue (extent_in self.new.side)) }
    {
        if left.units().len() + right.units().len() > MAX_UNITS {
            return Err(Over::Next(Next::Halt(StopName::StringLength)));
        }
        let text = join(self.alloc(), left, right)?;
        Ok(Value::Str(self.made(text, stage)?))
    }

    /// A string that was made. One of n code units is made for n / 256 steps, rounded down: where that is more than none, the string
    /// is kept and the step ends, and the frame waits at this stage, at which it is paid.
    pub fn made(&mut self, text: Str, stage: u32) -> Result<Str, Next>
        ensures { Makes stage text self.old result self.new }
    {
        match string_cost(text.units().len()) {
            None => Ok(text),
            Some(_) => {
                self.set_stage(stage);
                self.keep(Value::Str(text));
                Err(Next::Going)
            }
        }
    }

    /// Pays for a string of so many code units, for which the frame on top waits. For one that costs nothing none waits.
    pub fn pay_for(&mut self, units: usize) -> Result<(), Next>
        ensures { PaysFor units self.old result self.new }
    {
        match string_cost(units) {
            None => Err(self.throw()),
            Some(more) => self.pay(more + 1),
        }
    }

    /// The string that the frame on top keeps, once it is paid.
    pub fn pay_kept(&mut self) -> Result<Value, Next>
        ensures pays { PaysKept self.old result self.new }
        ensures live { IfOk result (IsLiveValue (extent_in self.new.side)) }
    {
        self.pay_for(units_in(&self.top().value))?;
        Ok(self.take_value())
    }

    /// The frame on top goes on as a call of a built-in function, with the list that it keeps as the arguments.
    pub fn become_call(&mut self, function: BuiltIn) -> Next
        ensures next { result ≡ Next.Going }
        ensures state { self.new ≡ performing function self.old }
    {
        let arguments = self.take_list();
        let call = Activity::BuiltIn(function);
        let calls = self.top().calls;
        self.replace_top(Frame::new(call, Context::no_source(), calls, arguments));
        Next::Going
    }
}

/// How many calls may be active.
const MAX_CALLS: u32 = 100_000;

/// What a string of so many code units costs: one step more than this number, or none.
pub fn string_cost(units: usize) -> Option<u64>
    ensures { IsCost units result }
{
    if units < 256 {
        None
    } else {
        Some(units as u64 / 256 - 1)
    }
}

/// The code units of the string that a value is; of another value none.
fn units_in(value: &Option<Value>) -> usize
    ensures { result ≡ length (text_in (value_in (option_of value.now))) }
{
    match value {
        Some(Value::Str(text)) => text.units().len(),
        _ => 0,
    }
}

/// Both strings as one.
fn join(alloc: Global, left: &Str, right: &Str) -> Result<Str, AllocError>
    ensures { IfOk result (λ s. s ≡ left.now ++ right.now) }
{
    left.concat(alloc, right).map_err(|_| AllocError)
}
