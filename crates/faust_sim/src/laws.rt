//! What the clients of a run send, and how long a played run is. Each function has an empty body, and its contract is the law.
ghost use Rattle.std.specs.Prelude.{◌≡◌, ◌≤◌, ℕ, List, Ok, Some, length};
ghost use Rattle.std.specs.List.{AllByRecursion};
ghost use Rattle.faust_types.specs.Clients.{IsClient};
ghost use Rattle.faust_types.specs.declared.config.Config.{Config};
ghost use Rattle.faust_record.specs.Runs.{IsRun, Run, entries_of, next_message, sent_in};
ghost use Rattle.faust_record.specs.declared.entry.Entry.{Entry};
ghost use Rattle.faust_script.specs.declared.script.Script.{Script};
ghost use Rattle.faust_sim.specs.Play.{played};
ghost use Rattle.faust_sim.specs.Sent.{IsGivenBy, IsSentBy};

/// What a client of a run sends is in range, so it is read as it was sent; what arrives at the server was sent so. A
/// COMMIT that rides on a SUBMIT is that of the operation before.
#[tactic(auto, using(crate::proofs::Sendings::run_given, crate::proofs::Sendings::run_sent, crate::proofs::Sendings::due_sent))]
pub fn what_arrives_was_sent()
    ensures given { (config : Config) (entries : List Entry) (i : ℕ) → IsRun config entries → IsClient config.clients i →
        AllByRecursion (IsGivenBy config i) (entries_of i entries) }
    ensures sent { (config : Config) (entries : List Entry) (i : ℕ) → IsRun config entries → IsClient config.clients i →
        AllByRecursion (IsSentBy config i) (sent_in (entries_of i entries)) }
    ensures due { (config : Config) (entries : List Entry) (i : ℕ) (message : List ℕ) → IsRun config entries → IsClient config.clients i →
        next_message i entries ≡ Some message → IsSentBy config i message }
{}

/// Each event makes at most one entry, so the run of a script has no more entries than the script has events.
#[tactic(auto, using(crate::proofs::Lengths::played_short))]
pub fn a_played_run_is_short()
    ensures { (script : Script) (run : Run) → played script ≡ Ok run → length run.entries ≤ length script.events }
{}
