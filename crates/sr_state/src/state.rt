ghost use Rattle.std.specs.Prelude.{◌≡◌, ◌≤◌, ◌<◌, ◌∷◌, ◌++◌, [], suc, Some, None, length, slice_set, reverse, OnOk, IfOk, IfSome};
ghost use Rattle.std.specs.List.{AllByRecursion};
ghost use Rattle.sr_value.specs.Live.{IsLiveScope, IsLiveValue, KeepsLiveValues};
ghost use Rattle.sr_value.specs.Plain.{value_of};
ghost use Rattle.sr_heap.specs.Live.{IsLiveBinding, extent};
ghost use Rattle.sr_heap.specs.Plain.{binding_of, scope_of};
ghost use Rattle.sr_intrin.specs.Numbers.{intrinsic_count};
ghost use Rattle.sr_model.specs.Values.{Object};
ghost use Rattle.sr_model.specs.Names as names;
ghost use Rattle.sr_model.specs.Holds.{next_object, next_source};
ghost use Rattle.sr_realm.specs.Errors.{with_error};
ghost use Rattle.sr_realm.specs.Live.{IsLiveBase, IsLiveKnown, IsLiveWrite};
ghost use Rattle.sr_realm.specs.Plain.{acceptance_of, base_of, declarations_of, known_of, write_of};
ghost use Rattle.sr_state.specs.Kept.{own_of};
ghost use Rattle.sr_state.specs.Live.{IsLiveAnswer, IsLiveFrame, IsSound};
ghost use Rattle.sr_state.specs.Parts.{EntersScope, Spends};
ghost use Rattle.sr_state.specs.Held.{first, first_tag, fresh_frame, fresh_own, pay_in, begun_in, idle, with_side, line_in, realm_in, stored_in, extent_in, store_as, cut_in, answered, topped, staged, keeping, basing, listing, placed, deeper, above, below, is_idle};

use crate::ends::{Answer, Next, StopName};
use crate::frame::{Activity, Context, Frame};
use crate::realm::Link;
use sqlite_items::Items;
use sr_ast::Code;
use sr_heap::{Binding, Heap};
use sr_intrin::{BuiltIn, ErrorName, build};
use sr_realm::{
    Accepted, Base, Declarations, Known, Write, accept, base_of_name, initialize, make_error,
    make_scope, value_at, value_of_name, write_name,
};
use sr_tag::{Path, Tag};
use sr_text::Str;
use sr_value::Value;
use std::alloc::{AllocError, Global};
use std::marker::Model;

/// A realm: what it holds, and the places of its children in the table of all realms.
#[derive(Drop)]
pub struct Kept {
    path: Path,
    heap: Heap<Code, BuiltIn>,
    last_source: u32,
    last_at: usize,
    lines: Items<Str>,
    own: u64,
    kids: Items<usize>,
}

impl Kept {
    /// A realm as it is made, with this tag.
    fn new(alloc: Global, tag: Tag, path: Path) -> Result<Kept, AllocError>
        ensures made { IfOk result (λ k. own_of k ≡ fresh_own tag (0 ∷ path)) }
        ensures count { IfOk result (λ k. intrinsic_count ≤ length k.heap.store.objects) }
    {
        Ok(Kept {
            path,
            heap: build(alloc, tag)?,
            last_source: 0,
            last_at: 0,
            lines: Items::new(alloc),
            own: 0,
            kids: Items::new(alloc),
        })
    }
}

/// An event that waits for the reply of another realm.
#[derive(Drop)]
pub struct Level {
    realm: usize,
    frames: Items<Frame>,
}

impl Model for Level {
    ghost use Rattle.std.specs.Prelude.{reverse};
    ghost use Rattle.std.specs.Coded.{codes};
    ghost use Rattle.sr_ast.specs.contracts.tree.Tree as kind;
    ghost use Rattle.sr_state.specs.Held as held;

    ghost Value = { held.Level };

    ghost coded = { Prim.hlevel (codes, kind.the_row.coded) };

    ghost view = { λ l. record { realm = l.realm; frames = reverse l.frames } };
}

/// The state of a run: the realm that runs, taken out of the table of all realms; that table, in which a blank stands in its place;
/// what joins realms; the events that wait for a reply; and of the event that is under way the frame on top and those below it. The
/// same state serves a run and a replay, which knows at how many own steps its next cut is.
#[derive(Drop)]
pub struct State {
    alloc: Global,
    here: Kept,
    place: usize,
    others: Vec<Kept>,
    links: Items<Link>,
    below: Items<Level>,
    used: u64,
    bound: u64,
    cut: Option<u64>,
    answer: Answer,
    top: Frame,
    frames: Items<Frame>,
}

impl Model for State {
    ghost use Rattle.std.specs.Prelude.{◌≤◌, ◌<◌, reverse, length, slice_set, map};
    ghost use Rattle.std.specs.Coded.{codes};
    ghost use Rattle.sr_ast.specs.contracts.tree.Tree as kind;
    ghost use Rattle.sr_state.specs.Held.{Held, blank, extent_of};
    ghost use Rattle.sr_state.specs.Kept.{own_of};
    ghost use Rattle.sr_state.specs.Live.{IsSound};

    ghost Value = { Held };

    ghost coded = { Prim.hlevel (codes, kind.the_row.coded) };

    ghost view = { λ s. record {
      side = record { own = own_of s.here; used = s.used };
      outer = record {
        here = s.place;
        others = slice_set (map own_of s.others.items) s.place blank;
        links = s.links;
        below = reverse s.below;
        bound = s.bound;
        cut = s.cut;
      };
      answer = s.answer;
      top = s.top;
      frames = reverse s.frames;
    } };

    ghost invariant = { λ s. (s.used ≤ s.bound) × (s.here.own ≤ s.used) × IsSound (extent_of (own_of s.here)) s.answer s.top (reverse s.frames) };
}

impl State {
    ghost use Rattle.sr_state.specs.Held.{Held};

    /// The first realm as it is made, with this bound of steps, and no frames.
    pub fn new(alloc: Global, bound: u64) -> Result<State, AllocError>
        ensures { IfOk result (λ s. s ≡ first bound) }
    {
        let tag = Tag { number: 0 };
        let mut others = Vec::new(alloc);
        others.push(Kept::new(alloc, tag, Path::root(alloc)?)?)?;
        Ok(State {
            alloc,
            here: Kept::new(alloc, tag, Path::root(alloc)?)?,
            place: 0,
            others,
            links: Items::new(alloc),
            below: Items::new(alloc),
            used: 0,
            bound,
            cut: None,
            answer: Answer::Empty,
            top: Frame::idle(alloc),
            frames: Items::new(alloc),
        })
    }

    /// The allocator of the state.
    pub fn alloc(&self) -> Global {
        self.alloc
    }

    /// What the realm that runs keeps.
    pub fn heap(&self) -> &Heap<Code, BuiltIn>
        ensures same { (let h = result.now in h.store) ≡ stored_in self.now.side }
        ensures extent { extent result.now ≡ extent_in self.now.side }
    {
        &self.here.heap
    }

    /// Where a name is bound (ECMA-262 9.1.2.1 GetIdentifierReference), from the environment of the frame on top outward.
    pub fn base(&self, name: &Str) -> Result<Base, AllocError>
        ensures same { IfOk result (λ b. base_of b ≡ names.base_of (stored_in self.now.side) (scope_of self.now.top.context.environment) name.now) }
        ensures live { IfOk result (IsLiveBase (extent_in self.now.side)) }
    {
        base_of_name(&self.here.heap, self.top.context.environment, name)
    }

    /// The value of a name, looked up from the environment of the frame on top outward (ECMA-262 6.2.5.5 GetValue).
    pub fn name(&self, name: &Str) -> Result<Known, AllocError>
        ensures same { IfOk result (λ k. known_of k ≡ names.value_of_name (stored_in self.now.side) (scope_of self.now.top.context.environment) name.now) }
        ensures live { IfOk result (IsLiveKnown (extent_in self.now.side)) }
    {
        value_of_name(&self.here.heap, self.top.context.environment, name)
    }

    /// The value of a name that is bound where the frame on top keeps it.
    pub fn name_there(&self, name: &Str) -> Result<Known, AllocError>
        ensures same { IfOk result (λ k. known_of k ≡ names.value_at (stored_in self.now.side) (base_of self.now.top.base) name.now) }
        ensures live { IfOk result (IsLiveKnown (extent_in self.now.side)) }
    {
        value_at(&self.here.heap, &self.top.base, name)
    }

    /// Gives a name that is bound where the frame on top keeps it a value (ECMA-262 6.2.5.6 PutValue), in the code of that frame.
    pub fn write_name(&mut self, name: &Str, value: Value) -> Result<Write, AllocError>
        requires { IsLiveValue (extent_in self.old.side) value }
        ensures answer { IfOk result (λ w. write_of w ≡ names.write_answer self.old.top.context.strict (stored_in self.old.side) (base_of self.old.top.base) name.now (value_of value)) }
        ensures after { OnOk result (self.new ≡ with_side self.old (store_as (names.write self.old.top.context.strict (stored_in self.old.side) (base_of self.old.top.base) name.now (value_of value)) self.old.side)) }
        ensures kept { extent_in self.new.side ≡ extent_in self.old.side }
        ensures live { IfOk result (IsLiveWrite (extent_in self.new.side)) }
    {
        write_name(
            &mut self.here.heap,
            self.top.context.strict,
            &self.top.base,
            name,
            value,
        )
    }

    /// Gives a name that is bound where the frame on top keeps it, and has no value yet, its first value (ECMA-262 6.2.5.8
    /// InitializeReferencedBinding).
    pub fn initialize(&mut self, name: &Str, binding: Binding)
        requires { IsLiveBinding (extent_in self.old.side) binding }
        ensures after { self.new ≡ with_side self.old (store_as (names.initialize (stored_in self.old.side) (base_of self.old.top.base) name.now (binding_of binding)) self.old.side) }
        ensures kept { extent_in self.new.side ≡ extent_in self.old.side }
    {
        initialize(&mut self.here.heap, &self.top.base, name, binding);
    }

    /// The frame on top goes on in an environment inside its own, in which these names have no value yet (ECMA-262 14.2.3
    /// BlockDeclarationInstantiation); where there are no names it stays where it is.
    pub fn enter_scope(&mut self, names: &[Str]) -> Result<(), AllocError>
        ensures { OnOk result (EntersScope names.now self.old self.new) }
    {
        match names {
            [] => Ok(()),
            [_, ..] => {
                let outer = self.top.context.environment;
                let scope = make_scope(&mut self.here.heap, outer, names)?;
                self.top.context.environment = Some(scope);
                Ok(())
            }
        }
    }

    /// Keeps the source of a script with this text, declares its names where nothing hinders it (ECMA-262 16.1.7), and answers its
    /// number and what comes of the names.
    pub fn accept(
        &mut self,
        declarations: Declarations<'_>,
        text: Str,
    ) -> Result<Accepted, AllocError>
        ensures number { IfOk result (λ a. a.number ≡ next_source (realm_in self.old.side)) }
        ensures acceptance { IfOk result (λ a. acceptance_of a.acceptance ≡ names.accept_answer (declarations_of declarations.entry) (names.with_source text (stored_in self.old.side))) }
        ensures after { OnOk result (self.new ≡ with_side self.old (store_as (names.accepted (declarations_of declarations.entry) text (stored_in self.old.side)) self.old.side)) }
        ensures kept { extent_in self.new.side ≡ extent_in self.old.side }
    {
        accept(&mut self.here.heap, declarations, text)
    }

    /// Makes an error object, and answers its value (ECMA-262 20.5.1.1).
    pub fn make_error(&mut self, name: ErrorName, message: Str) -> Result<Value, AllocError>
        ensures value { IfOk result (λ v. value_of v ≡ Object (next_object (realm_in self.old.side))) }
        ensures made { OnOk result (self.new ≡ with_side self.old (store_as (with_error (record { name = name; message = message }) (stored_in self.old.side)) self.old.side)) }
        ensures live { IfOk result (IsLiveValue (extent_in self.new.side)) }
        ensures kept { KeepsLiveValues (extent_in self.old.side) (extent_in self.new.side) }
    {
        let alloc = self.alloc;
        Ok(Value::Obj(make_error(alloc, &mut self.here.heap, name, message)?))
    }

    /// Prints a line, as far as the realm remembers it.
    pub fn add_line(&mut self, line: Str) -> Result<(), AllocError>
        ensures added { OnOk result (self.new ≡ with_side self.old (line_in line self.old.side)) }
        ensures kept { extent_in self.new.side ≡ extent_in self.old.side }
    {
        self.here.lines.push(line)
    }

    /// Whether a cut is next here, which only a replay knows of.
    fn is_cut(&self) -> bool
        ensures { result ≡ cut_in self.now.outer self.now.side }
    {
        match self.cut {
            None => false,
            Some(steps) => steps == self.here.own,
        }
    }

    /// Pays so many steps, or the step is over: a cut is next here, or the bound has no room for them.
    pub fn spend(&mut self, cost: u64) -> Result<(), Next>
        ensures { Spends cost (pay_in cost) self.old result self.new }
    {
        if self.is_cut() {
            Err(Next::CutOff)
        } else if cost <= self.bound - self.used {
            self.used += cost;
            self.here.own += cost;
            Ok(())
        } else {
            Err(Next::Halt(StopName::Steps(self.used, cost)))
        }
    }

    /// Pays the step of a tree of the frame on top that begins at this place, counted in code units, or the step is over.
    pub fn spend_at(&mut self, at: usize) -> Result<(), Next>
        ensures { Spends 1 (begun_in self.old.top.context.source at) self.old result self.new }
    {
        self.spend(1)?;
        self.here.last_source = self.top.context.source;
        self.here.last_at = at;
        Ok(())
    }

    /// The source of the last tree whose charge was paid, and 0 where none has paid.
    pub fn last_source(&self) -> u32
        ensures { result ≡ (let r = realm_in self.now.side in let i = r.inner in let h = i.rest in let l = h.last in l.source) }
    {
        self.here.last_source
    }

    /// The start of that tree.
    pub fn last_at(&self) -> usize
        ensures { result ≡ (let r = realm_in self.now.side in let i = r.inner in let h = i.rest in let l = h.last in l.at) }
    {
        self.here.last_at
    }

    /// What the frame on top is given.
    pub fn answer(&self) -> &Answer
        ensures same { result.now ≡ (let h = self.now in h.answer) }
        ensures live { IsLiveAnswer (extent_in self.now.side) result.now }
    {
        &self.answer
    }

    /// What the frame on top is given, which is taken away.
    pub fn take_answer(&mut self) -> Answer
        ensures answer { result ≡ self.old.answer }
        ensures live { IsLiveAnswer (extent_in self.new.side) result }
        ensures rest { self.new ≡ answered Answer.Empty self.old }
    {
        std::mem::replace(&mut self.answer, Answer::Empty)
    }

    /// Gives the frame on top an answer.
    #[inline(always)]
    pub fn put_answer(&mut self, answer: Answer)
        requires { IsLiveAnswer (extent_in self.old.side) answer }
        ensures { self.new ≡ answered answer self.old }
    {
        self.answer = answer;
    }

    /// The frame on top.
    pub fn top(&self) -> &Frame
        ensures same { result.now ≡ (let h = self.now in h.top) }
        ensures live { IsLiveFrame (extent_in self.now.side) self.now.top }
    {
        &self.top
    }

    /// How far the frame on top is.
    pub fn stage(&self) -> u32
        ensures { result ≡ self.now.top.stage }
    {
        self.top.stage
    }

    /// The frame on top is at another stage.
    pub fn set_stage(&mut self, stage: u32)
        ensures { self.new ≡ staged stage self.old }
    {
        self.top.stage = stage;
    }

    /// The frame on top is in another context.
    pub fn set_context(&mut self, context: Context)
        requires { IfSome context.environment (IsLiveScope (extent_in self.old.side)) }
        ensures { self.new ≡ placed context self.old }
    {
        self.top.context = context;
    }

    /// The frame on top keeps where the name of a target is bound.
    pub fn keep_base(&mut self, base: Base)
        requires { IsLiveBase (extent_in self.old.side) base }
        ensures { self.new ≡ basing base self.old }
    {
        self.top.base = base;
    }

    /// The frame on top has one more active call.
    pub fn deepen(&mut self)
        requires { self.old.top.calls < 100000 }
        ensures { self.new ≡ deeper self.old }
    {
        self.top.calls += 1;
    }

    /// The frame on top keeps this value.
    pub fn keep(&mut self, value: Value)
        requires { IsLiveValue (extent_in self.old.side) value }
        ensures { self.new ≡ keeping (Some value) self.old }
    {
        self.top.value = Some(value);
    }

    /// The value that the frame on top keeps, which is taken away.
    pub fn take_kept(&mut self) -> Option<Value>
        ensures value { result ≡ self.old.top.value }
        ensures live { IfSome result (IsLiveValue (extent_in self.new.side)) }
        ensures rest { self.new ≡ keeping None self.old }
    {
        self.top.value.take()
    }

    /// The frame on top keeps a value more in its list.
    pub fn keep_more(&mut self, value: Value) -> Result<(), AllocError>
        requires { IsLiveValue (extent_in self.old.side) value }
        ensures { OnOk result (self.new ≡ listing (self.old.top.list ++ value ∷ []) self.old) }
    {
        self.top.list.push(value)
    }

    /// In the list of the frame on top this value takes the place of the one at this place, counted from 0.
    pub fn set_in_list(&mut self, at: usize, value: Value)
        requires there { at < length self.old.top.list }
        requires live { IsLiveValue (extent_in self.old.side) value }
        ensures { self.new ≡ listing (slice_set self.old.top.list at value) self.old }
    {
        self.top.list.set(at, value);
    }

    /// The list of the frame on top, which is taken away.
    pub fn take_list(&mut self) -> Items<Value>
        ensures list { result ≡ self.old.top.list }
        ensures live { AllByRecursion (IsLiveValue (extent_in self.new.side)) result }
        ensures rest { self.new ≡ listing [] self.old }
    {
        std::mem::replace(&mut self.top.list, Items::new(self.alloc))
    }

    /// Another frame is on top, in place of the one that is there.
    pub fn replace_top(&mut self, frame: Frame)
        requires { IsLiveFrame (extent_in self.old.side) frame }
        ensures { self.new ≡ topped frame self.old }
    {
        self.top = frame;
    }

    /// A frame that begins this is put above the one on top, in the same context, with the same active calls. Its fields change in
    /// place.
    pub fn push(&mut self, activity: Activity) -> Result<(), AllocError>
        ensures { OnOk result (self.new ≡ (let h = self.old in let f = h.top in above (fresh_frame activity f.context f.calls []) h)) }
    {
        let waiting = Frame {
            activity: std::mem::replace(&mut self.top.activity, activity),
            context: self.top.context,
            stage: self.top.stage,
            calls: self.top.calls,
            value: self.top.value.take(),
            list: std::mem::replace(&mut self.top.list, Items::new(self.alloc)),
            base: std::mem::replace(&mut self.top.base, Base::Unresolvable),
        };
        self.top.stage = 0;
        self.frames.push(waiting)
    }

    /// The frame on top is taken away; where none is below it an idle one stands there.
    pub fn pop(&mut self)
        ensures { self.new ≡ (let h = self.old in below h.frames h) }
    {
        self.top = match self.frames.pop() {
            Some(frame) => frame,
            None => Frame::idle(self.alloc),
        };
    }

    /// Whether nothing is under way.
    pub fn is_idle(&self) -> bool
        ensures { result ≡ is_idle self.now.top.activity }
    {
        match &self.top.activity {
            Activity::Idle => true,
            Activity::Tree(_) | Activity::Source(_) | Activity::BuiltIn(_) => false,
        }
    }
}
