//! What playing a generated script comes to. Each function has an empty body, and its contract is the law.
ghost use Rattle.std.specs.Prelude.{◌≡◌, ℕ, None, Ok};
ghost use Rattle.faust_record.specs.Runs.{Run};
ghost use Rattle.faust_script.specs.Generated.{IsSampleSize, generated};
ghost use Rattle.faust_sim.specs.Play.{played};
ghost use Rattle.faust_premises.specs.Premises.{first_forged};
ghost use Rattle.faust_audit.specs.Departure.{first_departure};
ghost use Rattle.faust_joined.specs.Promised.{AreWellGiven};

/// For each seed and each size of a sample all events of the generated script can be played, so a run comes of it.
pub fn generated_scripts_play_through()
    ensures { (seed n ops : ℕ) → IsSampleSize n ops → (run : Run) × (played (generated seed n ops) ≡ Ok run) }
{}

/// In that run no reply departs from the protocol, no tag is forged, no client has a notice, and each reply completes an
/// operation.
pub fn generated_runs_are_honest()
    ensures stays { (seed n ops : ℕ) (run : Run) → IsSampleSize n ops → played (generated seed n ops) ≡ Ok run →
        first_departure run.config run.entries ≡ None }
    ensures unforged { (seed n ops : ℕ) (run : Run) → IsSampleSize n ops → played (generated seed n ops) ≡ Ok run →
        first_forged run.config run.entries ≡ None }
    ensures well_given { (seed n ops : ℕ) (run : Run) → IsSampleSize n ops → played (generated seed n ops) ≡ Ok run →
        AreWellGiven run.entries }
{}
