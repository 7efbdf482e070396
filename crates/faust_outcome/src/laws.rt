//! What the definitions of `specs/` say together. Each function has an empty body, and its contract is the law.
ghost use Rattle.std.specs.Prelude.{◌≡◌, ℕ, List};
ghost use Rattle.faust_outcome.specs.Gathering.{IsGathered};
ghost use Rattle.faust_outcome.specs.Outcomes.{AreRuns, IsText};
ghost use Rattle.faust_outcome.specs.Told.{IsWell};
ghost use Rattle.faust_outcome.specs.Words.{IsForm, IsInRange};
ghost use Rattle.faust_outcome.specs.declared.gathered.Gathered.{Gathered};
ghost use Rattle.faust_outcome.specs.declared.status.LiveStatus.{LiveStatus};
ghost use Rattle.faust_outcome.specs.declared.status.LiveStatus.TheVariants.{Done};
ghost use Rattle.faust_outcome.specs.declared.words.LiveCommand.{LiveCommand};

/// Words are the form of one command at most.
pub fn words_have_one_command()
    ensures { (words : List (List ℕ)) (command other : LiveCommand) → IsForm words command → IsForm words other → command ≡ other }
{}

/// Whatever is gathered has one text, at one status. So each status comes exactly where its case holds.
pub fn each_gathering_has_one_text()
    ensures some { (command : LiveCommand) (it : Gathered) → (status : LiveStatus) × (text : List ℕ) × IsText command it status text }
    ensures one { (command : LiveCommand) (it : Gathered) (status other : LiveStatus) (text another : List ℕ)
        → IsText command it status text → IsText command it other another → (status ≡ other) × (text ≡ another) }
{}

/// Where a run is told of, the headline holds of it, and each user was told of the completions of its operations, those
/// of its list in their order: of all of them, unless its client stopped.
pub fn what_a_done_run_tells()
    ensures { (command : LiveCommand) (it : Gathered) (text : List ℕ) → IsInRange command → IsGathered command it →
        AreRuns command it → IsText command it Done text → IsWell command it text }
{}
