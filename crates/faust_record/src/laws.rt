//! What runs keep, on the definitions. Each function has an empty body, and its contract is the law.
ghost use Rattle.std.specs.Prelude.{◌≡◌, ◌-◌, [], ◌∷◌, ◌++◌, ℕ, List, length, map, slice_index_or, Ok};
ghost use Rattle.faust_types.specs.Clients.{IsClient};
ghost use Rattle.faust_types.specs.Versions.{Vector};
ghost use Rattle.faust_types.specs.declared.arrival.Arrival.{Arrival};
ghost use Rattle.faust_types.specs.declared.config.Config.{Config};
ghost use Rattle.faust_tags.specs.Bodies.{tag_of};
ghost use Rattle.faust_agent.specs.Table.{commit_of, posts_of, submit_of};
ghost use Rattle.faust_agent.specs.declared.client.Client.{Client};
ghost use Rattle.faust_agent.specs.declared.deed.Order.{Order};
ghost use Rattle.faust_agent.specs.declared.deed.Deed.{Deed};
ghost use Rattle.faust_record.specs.Runs.{IsRun, Run, arrived_in, entries_of, sent_in};
ghost use Rattle.faust_record.specs.Journals.{Log};
ghost use Rattle.faust_record.specs.Made.{bodies_of_begin, bodies_of_completion, bodies_of_posts};
ghost use Rattle.faust_record.specs.Merging.{merged};
ghost use Rattle.faust_record.specs.Refusals.{push_of, step_of};
ghost use Rattle.faust_record.specs.Laws.{Appends, AreForAll, IsPrefix, acts_of, pushed_as, tags_of_commit, tags_of_posts, tags_of_submit};
ghost use Rattle.faust_record.specs.declared.entry.Input.{Input};
ghost use Rattle.faust_record.specs.declared.run_record.PushInput.{PushInput};
ghost use Rattle.faust_record.specs.declared.entry.Entry.{Entry};

/// Every prefix of a run is a run.
#[tactic(auto, using(crate::proofs::Fronts::front_of_run))]
pub fn every_prefix_is_a_run()
    ensures { (config : Config) (front rest : List Entry) → IsRun config (front ++ rest) → IsRun config front }
{}

/// The messages of a client that arrived are the first ones that it sent.
#[tactic(auto, using(crate::proofs::Fronts::arrived_in_order))]
pub fn messages_arrive_in_order()
    ensures { (config : Config) (entries : List Entry) (i : ℕ) → IsRun config entries →
        IsPrefix (arrived_in (entries_of i entries)) (sent_in (entries_of i entries)) }
{}

/// A step that is taken puts one entry at the end of a journal, with the number that was given.
#[tactic(auto, using(crate::proofs::Fronts::step_appends, crate::proofs::Fronts::step_keeps))]
pub fn a_step_appends_one_entry()
    ensures entry { (log new : Log) (number : ℕ) (input : Input) → step_of log number input ≡ Ok new →
        Appends log.entries new.entries log.me number }
    ensures kept { (log new : Log) (number : ℕ) (input : Input) → step_of log number input ≡ Ok new →
        (new.config ≡ log.config) × (new.me ≡ log.me) }
{}

/// A push that is taken puts one entry at the end of a record, with the next number.
#[tactic(auto, using(crate::proofs::Fronts::push_appends, crate::proofs::Fronts::push_keeps))]
pub fn a_push_appends_one_entry()
    ensures entry { (run new : Run) (i : ℕ) (input : PushInput) → push_of run i input ≡ Ok new →
        Appends run.entries new.entries i (length run.entries) }
    ensures kept { (run new : Run) (i : ℕ) (input : PushInput) → push_of run i input ≡ Ok new → new.config ≡ run.config }
{}

/// Each entry of a run is the one that its push gives, so every run is made by pushes.
#[tactic(auto, using(crate::proofs::Again::entries_are_pushed))]
pub fn every_run_is_pushed()
    ensures { (config : Config) (front rest : List Entry) (entry : Entry) → IsRun config (front ++ entry ∷ rest) →
        push_of (record { config = config; entries = front }) entry.client (pushed_as entry.input)
        ≡ Ok (record { config = config; entries = front ++ entry ∷ [] }) }
{}

/// In a merged record the entries of each client, but for the arrivals, are those of its journal.
#[tactic(auto, using(crate::proofs::Merged::merged_has_journals))]
pub fn a_merged_record_has_its_journals()
    ensures { (config : Config) (logs : List Log) (arrivals : List Arrival) (run : Run) (i : ℕ) (d : Log) → AreForAll config logs →
        merged config logs arrivals ≡ Ok run → IsClient config.clients i → acts_of i run.entries ≡ (slice_index_or logs (i - 1) d).entries }
{}

/// The bodies that a deed makes are those under whose tags its SUBMIT, its COMMIT and its messages to others go.
#[tactic(auto, using(crate::proofs::Tagged::begin_tags, crate::proofs::Tagged::completion_tags, crate::proofs::Tagged::post_tags))]
pub fn made_bodies_are_tagged()
    ensures submit { (config : Config) (me : ℕ) (st : Client) (order : Order) →
        map (tag_of config.key) (bodies_of_begin me st order) ≡ tags_of_submit (submit_of config me st order) }
    ensures commit { (config : Config) (me : ℕ) (next : Vector) →
        map (tag_of config.key) (bodies_of_completion me next) ≡ tags_of_commit (commit_of config me next) }
    ensures posts { (config : Config) (me : ℕ) (st : Client) (deed : Deed) →
        map (tag_of config.key) (bodies_of_posts config me st deed) ≡ tags_of_posts (posts_of config me st deed) }
{}
