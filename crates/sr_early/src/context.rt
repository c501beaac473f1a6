ghost use Rattle.std.specs.Prelude.{◌≡◌, ◌++◌, [], ◌∷◌, IfOk, OnOk};
ghost use Rattle.sr_early.specs.Targets as spec;

use sqlite_items::Items;
use sr_names::places::put_if;
use sr_shared::Shared;
use sr_text::Str;
use std::alloc::{AllocError, Global};

/// What stands around a tree, as far as the rules of the static semantics ask for it.
#[derive(Drop)]
pub struct Context {
    /// Whether it is strict mode code (ECMA-262 11.2.2).
    pub strict: bool,
    /// Whether it is in a function's body, where `return` may stand (14.10.1).
    pub in_function: bool,
    /// Whether it is in the body of a loop, which `continue` needs (14.8.1).
    pub in_loop: bool,
    /// Whether it is in the clauses of a `switch`, which serves for `break` (14.9.1).
    pub in_switch: bool,
    /// The labels around it (14.13.1).
    pub labels: Shared<Items<Str>>,
    /// Those that stand directly before a loop (8.3.3).
    pub loops: Shared<Items<Str>>,
}

/// No labels.
fn no_labels(alloc: Global) -> Result<Shared<Items<Str>>, AllocError>
    ensures { IfOk result (λ labels. labels ≡ []) }
{
    Shared::new(alloc, Items::new(alloc))
}

/// Labels, and one more.
fn with_label(alloc: Global, labels: &[Str], label: &Str) -> Result<Shared<Items<Str>>, AllocError>
    ensures { IfOk result (λ more. more ≡ labels.now ++ label.now ∷ []) }
{
    let mut more = Items::new(alloc);
    for one in labels {
        more.push(one.clone()?)?;
    }
    more.push(label.clone()?)?;
    Shared::new(alloc, more)
}

/// Whether a label is one of these.
fn is_one_of(labels: &[Str], label: &Str) -> bool
    ensures { result ≡ spec.is_one_of labels.now label.now }
{
    for one in labels {
        if label == one {
            return true;
        }
    }
    false
}

impl Context {
    /// What stands around the items of a script or a module.
    pub fn of_items(alloc: Global, strict: bool) -> Result<Context, AllocError>
        ensures { IfOk result (λ c. c ≡ spec.around_items strict) }
    {
        Ok(Context {
            strict,
            in_function: false,
            in_loop: false,
            in_switch: false,
            labels: no_labels(alloc)?,
            loops: no_labels(alloc)?,
        })
    }

    /// What stands around the body of a function: no label and no loop outside of it counts.
    pub fn of_body(alloc: Global, strict: bool) -> Result<Context, AllocError>
        ensures { IfOk result (λ c. c ≡ spec.around_body strict) }
    {
        Ok(Context {
            strict,
            in_function: true,
            in_loop: false,
            in_switch: false,
            labels: no_labels(alloc)?,
            loops: no_labels(alloc)?,
        })
    }

    /// What stands around the body of a loop.
    pub fn in_loop(&self) -> Result<Context, AllocError>
        ensures { IfOk result (λ c. c ≡ spec.in_loop self.now) }
    {
        Ok(Context {
            strict: self.strict,
            in_function: self.in_function,
            in_loop: true,
            in_switch: self.in_switch,
            labels: self.labels.share()?,
            loops: self.loops.share()?,
        })
    }

    /// What stands around the clauses of a `switch`.
    pub fn in_switch(&self) -> Result<Context, AllocError>
        ensures { IfOk result (λ c. c ≡ spec.in_switch self.now) }
    {
        Ok(Context {
            strict: self.strict,
            in_function: self.in_function,
            in_loop: self.in_loop,
            in_switch: true,
            labels: self.labels.share()?,
            loops: self.loops.share()?,
        })
    }

    /// The labels of loops, behind a label that stands before a loop or before another statement.
    fn loops_with(
        &self,
        alloc: Global,
        label: &Str,
        is_loop: bool,
    ) -> Result<Shared<Items<Str>>, AllocError>
        ensures { IfOk result (λ loops. loops ≡ (let c = spec.labelled label.now is_loop self.now in c.loops)) }
    {
        if is_loop {
            with_label(alloc, self.loops.get().as_slice(), label)
        } else {
            self.loops.share()
        }
    }

    /// What stands around a statement behind a label.
    pub fn labelled(&self, alloc: Global, label: &Str, is_loop: bool) -> Result<Context, AllocError>
        ensures { IfOk result (λ c. c ≡ spec.labelled label.now is_loop self.now) }
    {
        Ok(Context {
            strict: self.strict,
            in_function: self.in_function,
            in_loop: self.in_loop,
            in_switch: self.in_switch,
            labels: with_label(alloc, self.labels.get().as_slice(), label)?,
            loops: self.loops_with(alloc, label, is_loop)?,
        })
    }

    /// Notes a `continue` at this place that has no target.
    pub fn continue_at(
        &self,
        places: &mut Items<usize>,
        label: &Option<Str>,
        at: usize,
    ) -> Result<(), AllocError>
        ensures { OnOk result (places.new ≡ places.old ++ spec.continue_faults self.now label.now at) }
    {
        match label {
            None => put_if(places, !self.in_loop, at),
            Some(label) => { put_if(places, !is_one_of(self.loops.get().as_slice(), label), at) }
        }
    }

    /// Notes a `break` at this place that has no target.
    pub fn break_at(
        &self,
        places: &mut Items<usize>,
        label: &Option<Str>,
        at: usize,
    ) -> Result<(), AllocError>
        ensures { OnOk result (places.new ≡ places.old ++ spec.break_faults self.now label.now at) }
    {
        match label {
            None => put_if(places, !(self.in_loop || self.in_switch), at),
            Some(label) => { put_if(places, !is_one_of(self.labels.get().as_slice(), label), at) }
        }
    }

    /// Notes a `return` at this place in no function.
    pub fn return_at(&self, places: &mut Items<usize>, at: usize) -> Result<(), AllocError>
        ensures { OnOk result (places.new ≡ places.old ++ spec.return_faults self.now at) }
    {
        put_if(places, !self.in_function, at)
    }

    /// Notes a label at this place that stands in a statement with the same one.
    pub fn label_at(
        &self,
        places: &mut Items<usize>,
        label: &Str,
        at: usize,
    ) -> Result<(), AllocError>
        ensures { OnOk result (places.new ≡ places.old ++ spec.label_faults self.now label.now at) }
    {
        put_if(places, is_one_of(self.labels.get().as_slice(), label), at)
    }
}
