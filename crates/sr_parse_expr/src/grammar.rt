ghost use Rattle.sr_syntax.specs.Input as input;
ghost use Rattle.sr_syntax.specs.Input.{Reads};
ghost use Rattle.sr_syntax.specs.Grammar as spec;
ghost use Rattle.sr_syntax.specs.Nests.{Nests};

use sr_ast::{Node, Tree};
use sr_shared::Shared;
use sr_syntax::grown::{Goal, Grown};
use sr_syntax::refusal::Refusal;
use sr_syntax::tokens::Tokens;
use std::alloc::Global;

/// The depth that no tree exceeds.
const MAX_DEPTH: usize = 1000;

/// The rules, above the parser of what is open while they are read, so that each is proved by itself.
#[derive(Clone, Copy)]
pub struct Grammar<F> {
    /// Where trees are made.
    pub alloc: Global,
    /// How many more may be open.
    pub depth: usize,
    /// The parser of what is open while it is read.
    pub tree: F,
}

impl<F: Fn(Global, &mut Tokens<'_>, usize, Goal) -> Result<Grown, Refusal>> Grammar<F> {
    /// A rule that is open while it is read.
    pub fn nest(&self, tokens: &mut Tokens<'_>, goal: Goal) -> Result<Grown, Refusal>
        requires { Nests self.now.depth (F.pre self.now.tree) (F.post self.now.tree) }
        ensures { Reads (spec.tree self.now.depth goal tokens.old) result tokens.new }
    {
        (self.tree)(self.alloc, tokens, self.depth, goal)
    }

    /// A whole tree from this place on, above parts of this depth.
    #[tactic(auto, unfolding(sr_syntax::specs::Input::complete))]
    pub fn complete(
        &self,
        tokens: &Tokens<'_>,
        node: Node,
        from: usize,
        tall: usize,
    ) -> Result<Grown, Refusal>
        ensures { Reads (input.complete node from tall tokens.now) result tokens.now }
    {
        if tall >= MAX_DEPTH {
            return Err(Refusal::TooDeep);
        }
        let tree = Tree {
            node,
            from,
            to: tokens.last(),
            number: 0,
        };
        Ok(Grown {
            tree: Shared::new(self.alloc, tree)?,
            height: tall + 1,
        })
    }
}
