//! What a meeting of versions does. Each function has an empty body, and its contract is the law.
ghost use Rattle.std.specs.Prelude.{◌∷◌, ◌++◌, List};
ghost use Rattle.faust_types.specs.declared.config.Config.{Config};
ghost use Rattle.faust_record.specs.Runs.{IsRun};
ghost use Rattle.faust_record.specs.declared.entry.Entry.{Entry};
ghost use Rattle.faust_premises.specs.Premises.{IsClean};
ghost use Rattle.faust_audit.specs.Meetings.{MeetIncomparable};
ghost use Rattle.faust_held.specs.Held.{GivesNotice};

/// Where incomparable versions meet in an entry of a clean run, the entry gives its client a notice.
pub fn meetings_give_notices()
    ensures { (config : Config) (front rest : List Entry) (entry : Entry) → IsRun config (front ++ (entry ∷ rest)) →
        IsClean config (front ++ (entry ∷ rest)) → MeetIncomparable config front entry → GivesNotice entry }
{}
