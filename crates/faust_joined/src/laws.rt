//! What runs keep in which no reply departs from the protocol. Each function has an empty body, and its contract is the
//! law.
ghost use Rattle.std.specs.Prelude.{◌≡◌, ◌≤◌, ℕ, List, [], ◌∷◌, ◌++◌, None, Some, IsSomeAnd};
ghost use Rattle.faust_types.specs.declared.config.Config.{Config};
ghost use Rattle.faust_types.specs.declared.operation.Notice.{Notice};
ghost use Rattle.faust_record.specs.Runs.{IsRun};
ghost use Rattle.faust_record.specs.declared.entry.Entry.{Entry};
ghost use Rattle.faust_premises.specs.Premises.{first_forged};
ghost use Rattle.faust_audit.specs.Departure.{first_departure};
ghost use Rattle.faust_audit.specs.Findings.{order_of};
ghost use Rattle.faust_runs.specs.Histories.{history_read};
ghost use Rattle.faust_joined.specs.Promised.{ArePeersMade, AreVersionsComparable, AreWellGiven, AreWithoutPeers, IsLinearizableBy};

/// Where no reply departs, no client has a notice, and each reply completes an operation.
pub fn replies_complete_operations()
    ensures { (config : Config) (entries : List Entry) → IsRun config entries → ArePeersMade config [] entries →
        first_departure config entries ≡ None → AreWellGiven entries }
{}

/// A notice comes in an entry at which, or before which, a reply departed.
pub fn notices_come_after_a_departure()
    ensures { (config : Config) (entries front rest : List Entry) (entry : Entry) (notice : Notice) → IsRun config entries →
        ArePeersMade config [] entries → entries ≡ front ++ entry ∷ rest → entry.outcome.notice ≡ Some notice →
        IsSomeAnd (first_departure config entries) (λ q. q ≤ entry.number) }
{}

/// Where no reply departs, the operations that completed and the writes whose SUBMIT arrived, in the order in which their
/// SUBMITs arrived, are a linearization of what is seen of the run.
pub fn runs_are_linearizable_by_arrival()
    ensures { (config : Config) (entries : List Entry) → IsRun config entries → ArePeersMade config [] entries →
        first_departure config entries ≡ None → IsLinearizableBy (history_read entries) (order_of config entries) }
{}

/// Where no tag is forged, what these promises ask of messages between clients holds.
pub fn unforged_messages_were_made()
    ensures { (config : Config) (entries : List Entry) → first_forged config entries ≡ None → ArePeersMade config [] entries }
{}

/// Where no reply departs, of any two versions that clients made, one is at most the other.
pub fn versions_are_comparable()
    ensures { (config : Config) (entries : List Entry) → IsRun config entries → ArePeersMade config [] entries →
        first_departure config entries ≡ None → AreVersionsComparable config entries }
{}

/// Where no reply departs, and messages between clients were made, no tag is forged. So where no reply departs and nothing
/// comes to a client from another client, no tag is.
pub fn honest_replies_forge_nothing()
    ensures among_peers { (config : Config) (entries : List Entry) → IsRun config entries → ArePeersMade config [] entries →
        first_departure config entries ≡ None → first_forged config entries ≡ None }
    ensures without_peers { (config : Config) (entries : List Entry) → IsRun config entries → AreWithoutPeers entries →
        first_departure config entries ≡ None → first_forged config entries ≡ None }
{}
