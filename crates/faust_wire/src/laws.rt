//! What spellings keep, for 2 to 32 clients and under each version of the wire. Each function has an empty body,
//! and its contract is the law.
ghost use Rattle.std.specs.Prelude.{◌≡◌, ℕ, ◌≤◌, List, length, Some};
ghost use Rattle.faust_types.specs.Clients.{IsClientCount};
ghost use Rattle.faust_types.specs.Ranges.{AreBytes, IsWire, IsMessageFor, IsReplyFor, IsSubmitFor};
ghost use Rattle.faust_types.specs.Versions.{Vector};
ghost use Rattle.faust_types.specs.declared.message.Message.{Message};
ghost use Rattle.faust_types.specs.declared.message.Reply.{Reply};
ghost use Rattle.faust_types.specs.declared.message.Submit.{Submit};
ghost use Rattle.faust_wire.specs.Grammar.{IsSpellingOf, IsVersionSpelling, reply_bytes, submit_bytes, spelling};
ghost use Rattle.faust_wire.specs.Reading.{message_of, version_of};

/// Bytes spell at most one message.
#[tactic(auto, using(crate::proofs::Messages::same_message))]
pub fn one_message()
    ensures { (wire n : ℕ) (bytes : List ℕ) (a b : Message) → IsClientCount n →
        IsSpellingOf wire n bytes a → IsSpellingOf wire n bytes b → a ≡ b }
{}

/// Bytes that spell a message under one version of the wire spell none under the other.
#[tactic(auto, using(crate::proofs::Messages::same_wire))]
pub fn one_wire()
    ensures { (v w n : ℕ) (bytes : List ℕ) (a b : Message) → IsSpellingOf v n bytes a → IsSpellingOf w n bytes b → v ≡ w }
{}

/// What bytes are read as is what they spell, and what they spell is what they are read as.
#[tactic(auto, using(crate::proofs::Messages::message_only))]
pub fn message_of_is_spelled()
    ensures spelled { (wire n : ℕ) (bytes : List ℕ) (message : Message) → IsClientCount n → AreBytes bytes →
        message_of wire n bytes ≡ Some message → IsSpellingOf wire n bytes message }
    ensures read { (wire n : ℕ) (bytes : List ℕ) (message : Message) → IsClientCount n →
        IsSpellingOf wire n bytes message → message_of wire n bytes ≡ Some message }
{}

/// The same of versions.
#[tactic(auto, using(crate::proofs::Messages::version_only))]
pub fn version_of_is_spelled()
    ensures spelled { (n : ℕ) (bytes : List ℕ) (version : Vector) → IsClientCount n → AreBytes bytes →
        version_of n bytes ≡ Some version → IsVersionSpelling n bytes version }
    ensures read { (n : ℕ) (bytes : List ℕ) (version : Vector) → IsClientCount n →
        IsVersionSpelling n bytes version → version_of n bytes ≡ Some version }
{}

/// A spelling is made of bytes, so it can be read back.
pub fn spelling_is_bytes()
    ensures { (wire n : ℕ) (message : Message) → IsWire wire → IsClientCount n → IsMessageFor n message →
        AreBytes (spelling wire message) }
{}

/// The largest REPLY has 8,977 bytes, and no message has more; the largest SUBMIT has 5,551.
#[tactic(auto, using(crate::proofs::Lengths::reply_at_most, crate::proofs::Lengths::submit_at_most, crate::proofs::Lengths::spelling_at_most))]
pub fn at_most_8977_bytes()
    ensures reply { (wire n : ℕ) (reply : Reply) → IsClientCount n → IsReplyFor n reply → length (reply_bytes wire reply) ≤ 8977 }
    ensures submit { (wire n : ℕ) (submit : Submit) → IsClientCount n → IsSubmitFor n submit → length (submit_bytes wire submit) ≤ 5551 }
    ensures message { (wire n : ℕ) (message : Message) → IsClientCount n → IsMessageFor n message → length (spelling wire message) ≤ 8977 }
{}
