ghost use Rattle.std.specs.Prelude.{◌≡◌, false, None, IfOk};
ghost use Rattle.sr_state.specs.Held.{is_idle};
ghost use Rattle.sr_state.specs.Step.{StepsWith};
ghost use Rattle.sr_stmt.specs.Rows.{operation};
ghost use Rattle.sr_machine.specs.Stages.{tree_at, FrameSteps};

use sr_ast::Tree;
use sr_state::{Activity, Next, State};
use std::alloc::AllocError;

/// A step of the frame on top, which carries out this tree.
fn step_tree(state: &mut State, tree: &Tree) -> Result<Next, AllocError>
    ensures { IfOk result (λ next. StepsWith operation (tree_at tree.now) state.old next state.new) }
{
    if sr_stmt::is_statement(&tree.node) {
        sr_stmt::step(state, tree)
    } else {
        sr_expr::step(state, tree)
    }
}

/// A step of the frame on top, by what it carries out.
fn carry_out(state: &mut State) -> Result<Next, AllocError>
    requires { is_idle state.old.top.activity ≡ false }
    ensures { IfOk result (λ next. FrameSteps state.old next state.new) }
{
    match &state.top().activity {
        Activity::Idle => unreachable!(),
        Activity::Tree(code) => {
            let tree = code.share()?;
            step_tree(state, tree.get())
        }
        Activity::Source(source) => {
            let source = source.share()?;
            sr_stmt::step_source(state, &source)
        }
        Activity::BuiltIn(function) => {
            let function = *function;
            sr_call::step(state, function)
        }
    }
}

/// A step of the frame on top in a run, which comes to no cut, and in which what stands outside the realm stays as it is.
#[tactic(auto, using(crate::proofs::Kept::uncut))]
pub(crate) fn step(state: &mut State) -> Result<Next, AllocError>
    requires busy { is_idle state.old.top.activity ≡ false }
    requires run { state.old.outer.cut ≡ None }
    ensures steps { IfOk result (λ next. FrameSteps state.old next state.new) }
    ensures uncut { IfOk result (λ next. (state.new.outer ≡ state.old.outer) × (next ≡ Next.CutOff → ⊥)) }
{
    carry_out(state)
}
