//! What the definitions of `specs/` say together. Each function has an empty body, and its contract is the law.
ghost use Rattle.std.specs.Prelude.{◌≡◌, ℕ, List};
ghost use Rattle.faust_top.specs.Answer.{IsTextFor};
ghost use Rattle.faust_top.specs.Commands.{IsForm, IsInRange};
ghost use Rattle.faust_top.specs.declared.words.Command.{Command};
ghost use Rattle.faust_types.specs.declared.status.Status.{Status};

/// Words are the form of one command at most.
pub fn words_have_one_command()
    ensures { (words : List (List ℕ)) (command other : Command) → IsForm words command → IsForm words other → command ≡ other }
{}

/// Each input of a command has one text, at one status. So each status comes exactly where its case holds. The numbers of
/// `sample` are to be in range; then its text doesn't hang on an input.
pub fn each_input_has_one_text()
    ensures some { (command : Command) (input : List ℕ) → IsInRange command →
        (status : Status) × (text : List ℕ) × IsTextFor command input status text }
    ensures one { (command : Command) (input : List ℕ) (status other : Status) (text another : List ℕ)
        → IsTextFor command input status text → IsTextFor command input other another → (status ≡ other) × (text ≡ another) }
{}
