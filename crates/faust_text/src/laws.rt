// Laws of lines, tokens, numbers and values, each on a function with an empty body.
ghost use Rattle.std.specs.Prelude.{◌≡◌, ◌↔◌, ◌<◌, ◌≤◌, ◌^◌, ℕ, List, length, Some};
ghost use Rattle.std.specs.Fmt.{decimal};
ghost use Rattle.std.specs.List.{AllByRecursion};
ghost use Rattle.faust_types.specs.declared.config.Config.{Config};
ghost use Rattle.faust_types.specs.Bytes.{AreBytes};
ghost use Rattle.faust_types.specs.Ranges.{IsConfig};
ghost use Rattle.faust_text.specs.declared.head.HeadForm.{HeadForm};
ghost use Rattle.faust_text.specs.declared.head.Head.{Head};
ghost use Rattle.faust_text.specs.declared.head.Head.TheVariants.{Title};
ghost use Rattle.faust_text.specs.declared.head.HeadStep.TheVariants.{Next, Whole};
ghost use Rattle.faust_text.specs.Heads.{AreHeadLines, CanBeHead, due_form, head_at, head_lines, head_read, head_text};
ghost use Rattle.faust_text.specs.declared.cause.Cause.{Cause};
ghost use Rattle.faust_text.specs.Fields.{AllGiven, Field, fields_at};
ghost use Rattle.faust_text.specs.Spelled.{AreInRange, IsFirstFault, SpellsFields};
ghost use Rattle.faust_text.specs.Lines.{AreLines, IsWithout, TextLine, ended_lines, ended_text, lines_of};
ghost use Rattle.faust_text.specs.Tokens.{CanBeJoined, joined, tokens_of};
ghost use Rattle.faust_text.specs.Numbers.{number_of};
ghost use Rattle.faust_text.specs.Values.{SpellsValue, bytes_of, bytes_text, value_of, value_text};

/// Every input has its lines and no others; a text of whole lines has these.
#[tactic(auto, using(crate::proofs::LineLaws::lines_of_ended_text))]
pub fn lines_are_the_input()
    ensures exactly { (bytes : List ℕ) (lines : List TextLine) → AreLines bytes lines ↔ (lines ≡ lines_of bytes) }
    ensures whole { (texts : List (List ℕ)) → AllByRecursion (IsWithout 10) texts → lines_of (ended_text texts) ≡ ended_lines texts }
{}

/// Tokens that are joined by one blank each are read as these.
#[tactic(auto, using(crate::proofs::TokenLaws::joined_are_read))]
pub fn joined_tokens_are_read()
    ensures { (tokens : List (List ℕ)) → CanBeJoined tokens → tokens_of (joined tokens) ≡ tokens }
{}

/// A number is its decimal digits, and no other token is it.
#[tactic(auto, using(crate::proofs::NumberLaws::numbers_are))]
pub fn numbers_are_their_digits()
    ensures { (token : List ℕ) (x : ℕ) → (number_of token ≡ Some x) ↔ ((x < 2 ^ 64) × (token ≡ decimal x)) }
{}

/// A token is read as the value or the bytes that it spells, and no other token is; a printed value is read again.
#[tactic(auto, using(crate::proofs::ValueLaws::printed_again))]
pub fn values_are_their_spellings()
    ensures values { (limit : ℕ) (token value : List ℕ)
        → (value_of limit token ≡ Some value) ↔ (SpellsValue token value × (length value ≤ limit) × AreBytes value) }
    ensures bytes { (limit : ℕ) (token bytes : List ℕ)
        → (bytes_of limit token ≡ Some bytes) ↔ ((token ≡ bytes_text bytes) × (length bytes ≤ limit) × AreBytes bytes) }
    ensures printed { (limit : ℕ) (value : List ℕ) → AreBytes value → length value ≤ limit
        → value_of limit (value_text (Some value)) ≡ Some value }
{}

/// What the fields of a line give is in their ranges.
#[tactic(auto, using(crate::proofs::FieldLaws::fields_in_range))]
pub fn fields_are_in_range()
    ensures { (fields : List Field) (given : AllGiven fields) (tokens : List (List ℕ)) → SpellsFields fields given tokens
        → AreInRange fields given }
{}

/// A line's fields give what its tokens spell; tokens are refused there for the cause of the first of them, from the
/// left, that may not stand in its field.
pub fn fields_are_their_spellings()
    ensures spelled { (fields : List Field) (tokens : List (List ℕ)) (given : AllGiven fields)
        → (fields_at fields tokens ≡ Ok given) ↔ SpellsFields fields given tokens }
    ensures refused { (fields : List Field) (tokens : List (List ℕ)) (cause : Cause)
        → (fields_at fields tokens ≡ Err cause) ↔ IsFirstFault fields tokens cause }
{}

/// Lines are read as the head that they spell and as no other, and what they spell is in range; each line is refused
/// for the cause of its first token that may not stand there.
pub fn heads_are_their_lines()
    ensures whole { (form : HeadForm) (lines : List (List ℕ)) (format : ℕ) (config : Config)
        → (head_read form (Next Title) lines ≡ Ok (Whole format config)) ↔ AreHeadLines form format config lines }
    ensures in_range { (form : HeadForm) (format : ℕ) (config : Config) (lines : List (List ℕ)) → form.clients ≤ 32
        → AreHeadLines form format config lines → IsConfig config }
    ensures refused { (form : HeadForm) (head : Head) (tokens : List (List ℕ)) (cause : Cause)
        → (head_at form head tokens ≡ Err cause) ↔ IsFirstFault (due_form form head) tokens cause }
{}

/// A config that a head can spell is read again from the lines that are printed of it.
pub fn printed_heads_are_read()
    ensures spelled { (form : HeadForm) (format : ℕ) (config : Config) → CanBeHead form format config
        → AreHeadLines form format config (head_lines form.title format config) }
    ensures lines { (form : HeadForm) (format : ℕ) (config : Config) → CanBeHead form format config
        → lines_of (head_text form.title format config) ≡ ended_lines (head_lines form.title format config) }
{}
