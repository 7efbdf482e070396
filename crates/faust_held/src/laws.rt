//! What clients of a clean run hold, give away and announce. Each function has an empty body, and its contract is the law.
ghost use Rattle.std.specs.Prelude.{Ok, ◌≡◌, ◌∷◌, ◌++◌, ℕ, true, List, Some};
ghost use Rattle.faust_types.specs.Clients.{IsClient};
ghost use Rattle.faust_types.specs.Versions.{Vector, is_comparable};
ghost use Rattle.faust_types.specs.declared.config.Config.{Config};
ghost use Rattle.faust_types.specs.declared.message.Known.{Known};
ghost use Rattle.faust_types.specs.declared.message.Peer.TheVariants as peers;
ghost use Rattle.faust_types.specs.declared.message.PeerMessage.{PeerMessage};
ghost use Rattle.faust_types.specs.declared.message.ReadPart.{ReadPart};
ghost use Rattle.faust_types.specs.declared.message.Reply.{Reply};
ghost use Rattle.faust_types.specs.declared.operation.Operation.{Operation};
ghost use Rattle.faust_types.specs.declared.operation.OpName.{OpName};
ghost use Rattle.faust_ustor.specs.Checks.{judged};
ghost use Rattle.faust_ustor.specs.declared.judgement.Judged.{Judged};
ghost use Rattle.faust_agent.specs.Deeds.{replied, told};
ghost use Rattle.faust_agent.specs.State.{version_at};
ghost use Rattle.faust_agent.specs.Table.{cut_of, is_signed};
ghost use Rattle.faust_names.specs.Cuts.{IsCovered, IsLinearization, IsRightCut, IsRightUpTo};
ghost use Rattle.faust_record.specs.Entries.{event_of};
ghost use Rattle.faust_record.specs.Runs.{IsRun};
ghost use Rattle.faust_record.specs.declared.entry.Entry.{Entry};
ghost use Rattle.faust_premises.specs.Premises.{IsClean};
ghost use Rattle.faust_runs.specs.ForkViews.{version_of, view_of};
ghost use Rattle.faust_runs.specs.Histories.{history_read};
ghost use Rattle.faust_runs.specs.Ledgers.{client_after};
ghost use Rattle.faust_held.specs.Cuts.{Announces};
ghost use Rattle.faust_held.specs.Held.{GivesNotice, HadNoNotice, HoldsComparable, IsApartFromHeld, IsOfCompletion, SendsVersion, held_by};

/// Each version that a client of a clean run holds is initial, or that of an operation that its maker completed.
pub fn held_versions_are_of_completions()
    ensures { (config : Config) (entries : List Entry) (i k : ℕ) → IsRun config entries → IsClean config entries →
        IsClient config.clients i → IsClient config.clients k → IsOfCompletion config entries (held_by config entries i k) }
{}

/// The versions that a client of a clean run holds are pairwise comparable, at each moment.
pub fn held_versions_are_comparable()
    ensures { (config : Config) (front rest : List Entry) (i : ℕ) → IsRun config (front ++ rest) → IsClean config (front ++ rest) →
        IsClient config.clients i → HoldsComparable config front i }
{}

/// The versions of one client's completed operations are pairwise comparable, and a version that it sent to another client
/// is comparable with each of them, whichever came first.
pub fn given_versions_are_comparable()
    ensures completed { (config : Config) (entries : List Entry) (a b : OpName) (v x : Vector) → IsRun config entries →
        IsClean config entries → version_of config entries a ≡ Some v → version_of config entries b ≡ Some x → a.client ≡ b.client →
        is_comparable v x ≡ true }
    ensures sent { (config : Config) (front rest : List Entry) (entry : Entry) (known : Known) (a : OpName) (v : Vector) →
        IsRun config (front ++ (entry ∷ rest)) → IsClean config (front ++ (entry ∷ rest)) → SendsVersion config front entry known →
        version_of config (front ++ (entry ∷ rest)) a ≡ Some v → a.client ≡ entry.client → is_comparable known.version v ≡ true }
{}

/// Each cut that a client announces in a clean run is right, judged by the history and the views of the whole run; and so is
/// the cut that it has at any moment.
pub fn announced_cuts_are_right()
    ensures announced { (config : Config) (entries : List Entry) (i : ℕ) (cut : List ℕ) → IsRun config entries → IsClean config entries →
        Announces entries i cut → IsRightCut config.clients (history_read entries) (view_of config entries) i cut }
    ensures each_moment { (config : Config) (front rest : List Entry) (i : ℕ) → IsRun config (front ++ rest) →
        IsClean config (front ++ rest) → IsClient config.clients i →
        IsRightCut config.clients (history_read (front ++ rest)) (view_of config (front ++ rest)) i
        (cut_of config i (client_after config i front)) }
{}

/// Where a cut of a clean run is right up to an operation and covers all clients there, the front that ends with it is a
/// linearization of what it holds.
pub fn cuts_that_cover_all_are_linearizations()
    ensures { (config : Config) (entries : List Entry) (i t : ℕ) (cut : List ℕ) → IsRun config entries → IsClean config entries →
        (right : IsRightUpTo config.clients (history_read entries) (view_of config entries) i cut t) →
        ((k : ℕ) → IsClient config.clients k → IsCovered config.clients cut t k) →
        IsLinearization (history_read entries) right.front }
{}

/// Where a client of a clean run that had no notice is brought a version apart from one that it held, the entry gives it a
/// notice: whether a reply brings it as the version of its client c, with a read, or as the client's own next version, or a
/// message that the client accepts says it.
pub fn incomparable_versions_give_a_notice()
    ensures version_of_c { (config : Config) (front rest : List Entry) (entry : Entry) (reply : Reply) →
        IsRun config (front ++ (entry ∷ rest)) → IsClean config (front ++ (entry ∷ rest)) → HadNoNotice config front entry →
        event_of config entry.client entry.input ≡ replied (Some reply) →
        IsApartFromHeld config front entry reply.version.version → GivesNotice entry }
    ensures version_of_j { (config : Config) (front rest : List Entry) (entry : Entry) (reply : Reply) (part : ReadPart) →
        IsRun config (front ++ (entry ∷ rest)) → IsClean config (front ++ (entry ∷ rest)) → HadNoNotice config front entry →
        event_of config entry.client entry.input ≡ replied (Some reply) → reply.read ≡ Some part →
        IsApartFromHeld config front entry part.version.version → GivesNotice entry }
    ensures next_version { (config : Config) (front rest : List Entry) (entry : Entry) (reply : Reply) (op : Operation) (answer : Judged) →
        IsRun config (front ++ (entry ∷ rest)) → IsClean config (front ++ (entry ∷ rest)) → HadNoNotice config front entry →
        event_of config entry.client entry.input ≡ replied (Some reply) →
        (client_after config entry.client front).waiting ≡ Some op →
        judged config.key entry.client (version_at (client_after config entry.client front) entry.client) op reply ≡ Ok answer →
        IsApartFromHeld config front entry answer.next → GivesNotice entry }
    ensures message { (config : Config) (front rest : List Entry) (entry : Entry) (message : PeerMessage) (known : Known) →
        IsRun config (front ++ (entry ∷ rest)) → IsClean config (front ++ (entry ∷ rest)) → HadNoNotice config front entry →
        event_of config entry.client entry.input ≡ told (Some message) → message.to ≡ entry.client →
        is_signed config message ≡ true → message.peer ≡ peers.Version known →
        IsApartFromHeld config front entry known.version → GivesNotice entry }
{}
