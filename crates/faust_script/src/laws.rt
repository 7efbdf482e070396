// Laws of scripts, each on a function with an empty body.
ghost use Rattle.std.specs.Prelude.{◌≡◌, ◌≢◌, ◌↔◌, ◌+◌, ◌-◌, ◌*◌, ◌<◌, ◌≤◌, ℕ, [], List, length, take, Ok, Err};
ghost use Rattle.faust_text.specs.Lines.{lines_of};
ghost use Rattle.faust_script.specs.declared.script.Script.{Script};
ghost use Rattle.faust_script.specs.Generated.{IsSampleSize, able, after_steps, beginning, generated, step_count};
ghost use Rattle.faust_script.specs.InRange.{IsScript};
ghost use Rattle.faust_script.specs.Parsing.{Refusal, parsed};
ghost use Rattle.faust_script.specs.Refusals.{CanGoOn, IsRefused};
ghost use Rattle.faust_script.specs.Scripts.{IsScriptText};

/// Bytes are read as the script whose text they are, and no other bytes are read.
pub fn scripts_are_their_texts()
    ensures { (input : List ℕ) (script : Script) → (parsed input ≡ Ok script) ↔ IsScriptText script input }
{}

/// The line that is refused, and its cause in the order of the table. The lines before it begin some script's text,
/// and with it they begin none.
pub fn first_refused_lines()
    ensures table { (input : List ℕ) (refusal : Refusal) → (parsed input ≡ Err refusal) ↔ IsRefused input refusal }
    ensures front { (input : List ℕ) (refusal : Refusal) → IsRefused input refusal → CanGoOn (take (refusal.line - 1) (lines_of input)) }
    ensures first { (input : List ℕ) (refusal : Refusal) → IsRefused input refusal → refusal.line ≤ length (lines_of input)
        → ¬ (CanGoOn (take refusal.line (lines_of input))) }
{}

/// What has a text is in range.
pub fn scripts_are_in_range()
    ensures { (input : List ℕ) (script : Script) → IsScriptText script input → IsScript script }
{}

/// A generated script is in range. It has four events an operation, and in each of two rounds a tick for each client and
/// two messages between any two.
#[tactic(auto, using(crate::proofs::Rounds::generated_in_range, crate::proofs::Rounds::generated_counted))]
pub fn generated_scripts_are_in_range()
    ensures range { (seed n ops : ℕ) → IsSampleSize n ops → IsScript (generated seed n ops) }
    ensures count { (seed n ops : ℕ) → IsSampleSize n ops → length (generated seed n ops).events ≡ 4 * ops + 2 * (n + 2 * (n * (n - 1))) }
{}

/// The steps of a generated script are made exactly as long as some client can act.
#[tactic(auto, using(crate::proofs::Steps::each_able, crate::proofs::Steps::none_able))]
pub fn steps_end_where_no_client_can_act()
    ensures before { (seed n ops steps : ℕ) → IsSampleSize n ops → steps < step_count ops
        → able ops (after_steps n ops (beginning seed n) steps) ≢ [] }
    ensures behind { (seed n ops : ℕ) → IsSampleSize n ops → able ops (after_steps n ops (beginning seed n) (step_count ops)) ≡ [] }
{}
