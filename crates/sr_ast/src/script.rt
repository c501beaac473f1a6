ghost use Rattle.std.specs.Prelude.{◌≡◌, IfOk, slice_get, length};
ghost use Rattle.std.specs.Option.{option_copied};
ghost use Rattle.sr_ast.specs.Script.{Script};

use crate::tree::Tree;
use sqlite_items::Items;
use sr_shared::Shared;
use sr_text::Str;
use std::alloc::{AllocError, Global};
use std::marker::Model;

/// A script (ECMA-262 16.1): its statements, and the names that it declares by `var`.
pub struct ScriptCode {
    body: Shared<Items<Shared<Tree>>>,
    names: Shared<Items<Str>>,
}

impl Model for ScriptCode {
    ghost use Rattle.std.specs.Prelude.{ℕ};
    ghost use Rattle.std.specs.Coded.{codes};
    ghost use Rattle.sr_ast.specs.Script.{Script};
    ghost use Rattle.sr_ast.specs.contracts.tree.Tree as kind;

    ghost Value = { Script };

    ghost coded = { Prim.hlevel (codes, kind.the_row.coded) };

    ghost view = { λ s. record { body = s.body; names = s.names } };
}

// Written by hand, so that the crates above prove nothing of how the kinds of trees are dropped.
impl Drop for ScriptCode {
    fn drop(self) {
        let ScriptCode { body, names } = self;
        drop(body);
        drop(names);
    }
}

impl ScriptCode {
    /// A script of these statements, which declares these names by `var`.
    pub fn new(
        alloc: Global,
        body: Items<Shared<Tree>>,
        names: Items<Str>,
    ) -> Result<ScriptCode, AllocError>
        ensures { IfOk result (λ s. s ≡ record { body = body; names = names }) }
    {
        Ok(ScriptCode {
            body: Shared::new(alloc, body)?,
            names: Shared::new(alloc, names)?,
        })
    }

    /// The statement at a place, from 0.
    pub fn statement(&self, at: usize) -> Option<&Shared<Tree>>
        ensures { option_copied result ≡ slice_get self.now.body at }
    {
        self.body.get().get(at)
    }

    /// The names that it declares by `var`, in order.
    pub fn names(&self) -> &[Str]
        ensures { result.now ≡ self.now.names }
    {
        self.names.get().as_slice()
    }

    /// One more owner of the script, which is not copied.
    pub fn share(&self) -> Result<ScriptCode, AllocError>
        ensures { IfOk result (λ s. s ≡ self.now) }
    {
        Ok(ScriptCode {
            body: self.body.share()?,
            names: self.names.share()?,
        })
    }
}
