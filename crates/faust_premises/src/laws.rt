//! What clean runs keep. Each function has an empty body, and its contract is the law.
ghost use Rattle.std.specs.Prelude.{◌≡◌, [], ◌∷◌, ◌++◌, List};
ghost use Rattle.faust_types.specs.declared.config.Config.{Config};
ghost use Rattle.faust_tags.specs.Bodies.{tag_of};
ghost use Rattle.faust_record.specs.Made.{made_behind};
ghost use Rattle.faust_record.specs.declared.entry.Entry.{Entry};
ghost use Rattle.faust_lists.specs.Names.{Has};
ghost use Rattle.faust_lists.specs.Walks.{IsFree};
ghost use Rattle.faust_forks.specs.Pairs.{Pair};
ghost use Rattle.faust_premises.specs.Premises.{IsClean, checked_pairs, hashed_in_run};

/// In a clean run each checked pair whose tag is right has a body that an earlier entry made.
pub fn right_tags_are_of_made_bodies()
    ensures { (config : Config) (front rest : List Entry) (entry : Entry) (pair : Pair) → IsClean config (front ++ entry ∷ rest) →
        Has (checked_pairs config entry) pair → pair.tag ≡ tag_of config.key pair.body → Has (made_behind config [] front) pair.body }
{}

/// In a clean run no two hashed inputs have one digest.
pub fn digests_tell_their_inputs()
    ensures { (config : Config) (entries : List Entry) → IsClean config entries → IsFree (hashed_in_run config entries) }
{}

/// Every prefix of a clean run is clean.
pub fn every_prefix_is_clean()
    ensures { (config : Config) (front rest : List Entry) → IsClean config (front ++ rest) → IsClean config front }
{}
