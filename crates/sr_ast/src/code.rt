ghost use Rattle.std.specs.Prelude.{◌≡◌, IfOk};

use crate::tree::Tree;
use sr_shared::Shared;
use std::alloc::AllocError;
use std::marker::Model;

/// A shared tree, which contracts see as the tree.
pub struct Code {
    tree: Shared<Tree>,
}

impl Model for Code {
    ghost use Rattle.sr_ast.specs.declared.tree.Tree.{Tree};
    ghost use Rattle.sr_ast.specs.contracts.tree.Tree as kind;

    ghost Value = { Tree };

    ghost coded = { kind.the_row.coded };

    ghost view = { λ c. c.tree };
}

// Written by hand, so that the crates above prove nothing of how the kinds of trees are dropped.
impl Drop for Code {
    fn drop(self) {
        let Code { tree } = self;
        drop(tree);
    }
}

impl Code {
    /// A tree, shared with its other owners.
    pub fn new(tree: &Shared<Tree>) -> Result<Code, AllocError>
        ensures { IfOk result (λ c. c ≡ tree.now) }
    {
        Ok(Code {
            tree: tree.share()?,
        })
    }

    /// The tree.
    pub fn get(&self) -> &Tree
        ensures { result.now ≡ self.now }
    {
        self.tree.get()
    }

    /// One more owner of the tree, which is not copied.
    pub fn share(&self) -> Result<Code, AllocError>
        ensures { IfOk result (λ c. c ≡ self.now) }
    {
        Code::new(&self.tree)
    }
}
