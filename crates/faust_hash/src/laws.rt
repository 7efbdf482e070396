//! What the definitions of `specs/` keep. Each function has an empty body, and its contract is the law.
ghost use Rattle.std.specs.Prelude.{◌≡◌, ◌<◌, ◌↔◌, ℕ, List, Option, true, length, IfSome};
ghost use Rattle.std.specs.List.{All};
ghost use Rattle.faust_hash.specs.Chain.{chain_input, input_digest, link, value_digest_of, value_input};
ghost use Rattle.faust_hash.specs.Hmac.{hmac_of};
ghost use Rattle.faust_hash.specs.Tag.{is_same};

/// A tag of any body under any key has 32 bytes.
#[tactic(auto, using(crate::proofs::Sizes::tag_length, crate::proofs::Sizes::tag_bytes))]
pub fn tag_has_32_bytes()
    ensures len { (key body : List ℕ) → length (hmac_of key body) ≡ 32 }
    ensures bytes { (key body : List ℕ) → All (λ byte. byte < 256) (hmac_of key body) }
{}

/// The digest of any chain has 32 bytes.
#[tactic(auto, using(crate::proofs::Sizes::link_length, crate::proofs::Sizes::link_bytes))]
pub fn link_has_32_bytes()
    ensures len { (before : Option (List ℕ)) (k : ℕ) → length (link before k) ≡ 32 }
    ensures bytes { (before : Option (List ℕ)) (k : ℕ) → All (λ byte. byte < 256) (link before k) }
{}

/// The digest of any value has 32 bytes.
#[tactic(auto, using(crate::proofs::Sizes::value_length, crate::proofs::Sizes::value_bytes))]
pub fn value_digest_has_32_bytes()
    ensures len { (value : List ℕ) → length (value_digest_of value) ≡ 32 }
    ensures bytes { (value : List ℕ) → All (λ byte. byte < 256) (value_digest_of value) }
{}

/// The digest of any hashed input has 32 bytes.
#[tactic(auto, using(crate::proofs::Sizes::input_length, crate::proofs::Sizes::input_bytes))]
pub fn input_digest_has_32_bytes()
    ensures len { (input : List ℕ) → length (input_digest input) ≡ 32 }
    ensures bytes { (input : List ℕ) → All (λ byte. byte < 256) (input_digest input) }
{}

/// The digest of a chain, and of a value, is the digest of what is hashed of it. So two of them that agree without
/// their inputs agreeing are two inputs of one digest.
#[tactic(auto, using(crate::proofs::Inputs::link_of_input, crate::proofs::Inputs::value_digest_of_input))]
pub fn digests_are_of_their_inputs()
    ensures chain { (before : Option (List ℕ)) (k : ℕ) → link before k ≡ input_digest (chain_input before k) }
    ensures value { (value : List ℕ) → value_digest_of value ≡ input_digest (value_input value) }
{}

/// What is hashed of a chain is never what is hashed of a value.
#[tactic(auto, using(crate::proofs::Inputs::inputs_differ))]
pub fn inputs_are_apart()
    ensures { (before : Option (List ℕ)) (k : ℕ) (value : List ℕ) → chain_input before k ≡ value_input value → ⊥ }
{}

/// What is hashed of a chain tells the digest before and the client.
#[tactic(auto, using(crate::proofs::Inputs::chain_input_before, crate::proofs::Inputs::chain_input_client))]
pub fn chain_input_determines()
    ensures before { (d e : Option (List ℕ)) (k l : ℕ) →
        IfSome d (λ bytes. length bytes ≡ 32) → IfSome e (λ bytes. length bytes ≡ 32) →
        chain_input d k ≡ chain_input e l → d ≡ e }
    ensures client { (d e : Option (List ℕ)) (k l : ℕ) →
        IfSome d (λ bytes. length bytes ≡ 32) → IfSome e (λ bytes. length bytes ≡ 32) →
        chain_input d k ≡ chain_input e l → k ≡ l }
{}

/// What is hashed of a value tells the value.
#[tactic(auto, using(crate::proofs::Inputs::value_input_value))]
pub fn value_input_determines()
    ensures { (value other : List ℕ) → value_input value ≡ value_input other → value ≡ other }
{}

/// The test `is_same` holds exactly of equal tags.
#[tactic(auto, using(crate::proofs::Lists::is_same_tells))]
pub fn is_same_tells()
    ensures { (tag other : List ℕ) → (is_same tag other ≡ true) ↔ (tag ≡ other) }
{}
