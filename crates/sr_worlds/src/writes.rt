//! What a run has written at some depth is the beginning of all that it writes in the end.

ghost use Rattle.std.specs.Prelude.{ℕ, ◌≤◌, List};
ghost use Rattle.sr_model.specs.Scripts.{Language};
ghost use Rattle.sr_model.specs.World.{World, Place};
ghost use Rattle.sr_worlds.specs.Evaluation.{ev};
ghost use Rattle.sr_worlds.specs.Live.{live};
ghost use Rattle.sr_worlds.specs.Run.{File, run};
ghost use Rattle.sr_worlds.specs.Laws.{writes_of, IsStart};

/// With a larger depth a task writes the same, and perhaps more after it; so does a run, with a larger depth and more turns.
#[tactic(auto, using(crate::proofs::LiveLarger::live_writes))]
pub fn more_depth_only_adds_writes<T, R>()
    ensures task { (l : Language T R) (bound d e : ℕ) → d ≤ e → (c : Place) (w : World R) (t : T) →
        IsStart (writes_of (ev l (live l bound) d c w t)) (writes_of (ev l (live l bound) e c w t)) }
    ensures run { (l : Language T R) (bound n m : ℕ) (files : List File) → n ≤ m →
        IsStart (writes_of (run l bound n files)) (writes_of (run l bound m files)) }
{}
