ghost use Rattle.std.specs.Prelude.{◌≡◌, IfOk};
ghost use Rattle.sr_state.specs.Held.{fresh_frame, idle, no_source};

use sqlite_items::Items;
use sr_ast::{Code, SourceCode};
use sr_intrin::BuiltIn;
use sr_realm::Base;
use sr_tag::{EnvK, Ref};
use sr_text::Str;
use sr_value::Value;
use std::alloc::{AllocError, Global};

/// Where a tree is evaluated (ECMA-262 9.4, an execution context).
#[derive(Clone, Copy, Debug, Drop)]
pub struct Context {
    /// The number of its source; of a source that is not accepted yet 0.
    pub source: u32,
    /// Whether its code is strict.
    pub strict: bool,
    /// Its environment; none is the global one.
    pub environment: Option<Ref<EnvK>>,
}

impl Context {
    /// The context of what has no source.
    pub fn no_source() -> Context
        ensures { result ≡ no_source }
    {
        Context {
            source: 0,
            strict: false,
            environment: None,
        }
    }
}

/// A source: its text, and what that is as it is read.
#[derive(Drop)]
pub struct Source {
    /// The text.
    pub text: Str,
    /// What it is.
    pub code: SourceCode,
}

impl Source {
    /// One more owner of the source, which is not copied.
    pub fn share(&self) -> Result<Source, AllocError>
        ensures { IfOk result (λ s. s ≡ self.now) }
    {
        Ok(Source {
            text: self.text.clone()?,
            code: self.code.share()?,
        })
    }
}

/// What a frame carries out.
#[derive(Drop)]
pub enum Activity {
    /// Nothing.
    Idle,
    /// A tree.
    Tree(Code),
    /// A source.
    Source(Source),
    /// A call of a built-in function, with the arguments as the list that is kept at first.
    BuiltIn(BuiltIn),
}

/// A task under way: how far it is, what it keeps, and the calls that are active.
#[derive(Drop)]
pub struct Frame {
    /// What it carries out.
    pub activity: Activity,
    /// Where.
    pub context: Context,
    /// How far it is.
    pub stage: u32,
    /// The calls that are active.
    pub calls: u32,
    /// A value that it keeps.
    pub value: Option<Value>,
    /// Further values that it keeps.
    pub list: Items<Value>,
    /// Where the name of a target is bound.
    pub base: Base,
}

impl Frame {
    /// A frame that begins this, in a context, with these active calls and this list.
    pub fn new(activity: Activity, context: Context, calls: u32, list: Items<Value>) -> Frame
        ensures { result ≡ fresh_frame activity context calls list }
    {
        Frame {
            activity,
            context,
            stage: 0,
            calls,
            value: None,
            list,
            base: Base::Unresolvable,
        }
    }

    /// A frame that carries nothing out.
    pub fn idle(alloc: Global) -> Frame
        ensures { result ≡ idle }
    {
        Frame::new(Activity::Idle, Context::no_source(), 0, Items::new(alloc))
    }
}
