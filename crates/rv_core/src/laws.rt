// The laws of runs. Each is a fact about the definitions alone, so its function does nothing.

ghost use Rattle.std.specs.Prelude.{◌≡◌, List, [], ◌∷◌, ◌++◌, option_and_then};
ghost use Rattle.history.specs.declared.events.Entry.{Entry};
ghost use Rattle.rv_core.specs.Runs.{AppProgram, ProgramState, reads, IsBegunRun};
ghost use Rattle.rv_core.specs.Waits.{goes_on};

/// One entry more goes on from where the program stands: so a core that waits for each of its accesses makes the runs
/// of the definition, and no others.
pub fn runs_grow_by_one()
    ensures { (start : AppProgram) (entries : List Entry) (entry : Entry)
        → reads start (entries ++ entry ∷ []) ≡ option_and_then (λ at. goes_on at entry.act) (reads start entries) }
{}

/// The front of a begun run is a begun run.
pub fn fronts_are_begun()
    ensures { (start : AppProgram) (front back : List Entry) (last : ProgramState) → IsBegunRun start (front ++ back) last
        → (at : ProgramState) × IsBegunRun start front at }
{}
