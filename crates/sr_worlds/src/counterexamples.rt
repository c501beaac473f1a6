//! Why two rules of runs are as they are: otherwise a realm of some run is not what its tape gives.

ghost use Rattle.std.specs.Prelude.{◌≡◌, [], ◌∷◌};
ghost use Rattle.sr_model.specs.Values.{root, child};
ghost use Rattle.sr_model.specs.Events.{Evaluate, Import, Turn, Took, Cut};
ghost use Rattle.sr_worlds.specs.Run.{realm_of, tape_of};
ghost use Rattle.sr_worlds.specs.Replay.{Fits, Misfit};
ghost use Rattle.sr_worlds.specs.Apart.{apart_run, apart_replay, at_once_run, at_once_replay};

/// If entering a function and its charge were two ports, a run could stop at a limit that other realms have used up, where
/// the replay goes on to an outcome: the cut would be left over.
pub fn entering_and_its_charge_must_be_one()
    ensures tape { tape_of (child root 1) apart_run ≡ Took (Evaluate []) ∷ Cut 0 ∷ [] }
    ensures replay { apart_replay ≡ Misfit 2 }
    ensures differs { apart_replay ≡ Fits (realm_of (child root 1) apart_run) → ⊥ }
{}

/// If a settling were taken at once, and not when the turn that told it has ended, a run could stop in the parent while the
/// child's turn has nothing more to pay: the replay would end that turn, and the cut would be left over.
pub fn a_settling_must_wait()
    ensures tape { tape_of (child root 1) at_once_run ≡ Took (Import [] []) ∷ Took Turn ∷ Cut 2 ∷ [] }
    ensures replay { at_once_replay ≡ Misfit 3 }
    ensures differs { at_once_replay ≡ Fits (realm_of (child root 1) at_once_run) → ⊥ }
{}
