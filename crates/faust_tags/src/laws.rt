//! What a body tells, and the sizes of tags and digests. Each function has an empty body, and its contract is the law.
ghost use Rattle.std.specs.Prelude.{◌≡◌, ℕ, ◌^◌, ◌<◌, List, Option};
ghost use Rattle.faust_types.specs.Bytes.{IsDigest};
ghost use Rattle.faust_types.specs.Ranges.{IsPeerMessageFor, IsVersionFor};
ghost use Rattle.faust_types.specs.Versions.{Vector};
ghost use Rattle.faust_types.specs.declared.operation.Kind.{Kind};
ghost use Rattle.faust_types.specs.declared.message.PeerMessage.{PeerMessage};
ghost use Rattle.faust_hash.specs.Chain.{input_digest, link, value_digest_of};
ghost use Rattle.faust_tags.specs.Bodies.{commit_body, data_body, peer_body, proof_body, submit_body, tag_of};

/// The body of a SUBMIT tells its maker, and the operation's kind, register and number.
#[tactic(auto, using(crate::proofs::Fields::submit_maker, crate::proofs::Fields::submit_kind, crate::proofs::Fields::submit_register, crate::proofs::Fields::submit_number))]
pub fn submit_body_tells()
    ensures maker { (i j : ℕ) (k l : Kind) (r s t u : ℕ) → submit_body i k r t ≡ submit_body j l s u → i ≡ j }
    ensures kind { (i j : ℕ) (k l : Kind) (r s t u : ℕ) → submit_body i k r t ≡ submit_body j l s u → k ≡ l }
    ensures register { (i j : ℕ) (k l : Kind) (r s t u : ℕ) → submit_body i k r t ≡ submit_body j l s u → r ≡ s }
    ensures number { (i j : ℕ) (k l : Kind) (r s t u : ℕ) → t < 2 ^ 64 → u < 2 ^ 64 →
        submit_body i k r t ≡ submit_body j l s u → t ≡ u }
{}

/// The body over a register's memory tells its maker, the number of its operation, and the value's digest.
#[tactic(auto, using(crate::proofs::Fields::data_maker, crate::proofs::Fields::data_number, crate::proofs::Fields::data_value))]
pub fn data_body_tells()
    ensures maker { (i j t u : ℕ) (d e : Option (List ℕ)) → data_body i t d ≡ data_body j u e → i ≡ j }
    ensures number { (i j t u : ℕ) (d e : Option (List ℕ)) → t < 2 ^ 64 → u < 2 ^ 64 →
        data_body i t d ≡ data_body j u e → t ≡ u }
    ensures value { (i j t u : ℕ) (d e : Option (List ℕ)) → data_body i t d ≡ data_body j u e → d ≡ e }
{}

/// The body of a COMMIT tells its maker and the version, of however many clients.
#[tactic(auto, using(crate::proofs::Fields::commit_maker, crate::proofs::Fields::commit_version))]
pub fn commit_body_tells()
    ensures maker { (i j : ℕ) (v w : Vector) → commit_body i v ≡ commit_body j w → i ≡ j }
    ensures version { (n m i j : ℕ) (v w : Vector) → IsVersionFor n v → IsVersionFor m w →
        commit_body i v ≡ commit_body j w → v ≡ w }
{}

/// The body of a proof tells its maker and the digest.
#[tactic(auto, using(crate::proofs::Fields::proof_maker, crate::proofs::Fields::proof_digest))]
pub fn proof_body_tells()
    ensures maker { (i j : ℕ) (d e : List ℕ) → proof_body i d ≡ proof_body j e → i ≡ j }
    ensures digest { (i j : ℕ) (d e : List ℕ) → proof_body i d ≡ proof_body j e → d ≡ e }
{}

/// The body of a message between clients tells the sender, the receiver, and what the message says.
#[tactic(auto, using(crate::proofs::Fields::peer_from, crate::proofs::Fields::peer_to, crate::proofs::Fields::peer_content))]
pub fn peer_body_tells()
    ensures sender { (m o : PeerMessage) → peer_body m ≡ peer_body o → m.from ≡ o.from }
    ensures receiver { (m o : PeerMessage) → peer_body m ≡ peer_body o → m.to ≡ o.to }
    ensures content { (n : ℕ) (m o : PeerMessage) → IsPeerMessageFor n m → IsPeerMessageFor n o →
        peer_body m ≡ peer_body o → m.peer ≡ o.peer }
{}

/// The body of a SUBMIT is no body of another kind.
#[tactic(auto, using(crate::proofs::FirstBytes::submit_no_data, crate::proofs::FirstBytes::submit_no_commit, crate::proofs::FirstBytes::submit_no_proof, crate::proofs::FirstBytes::submit_no_peer))]
pub fn submit_body_is_no_other()
    ensures data_part { (i j : ℕ) (k : Kind) (r t u : ℕ) (d : Option (List ℕ)) → submit_body i k r t ≡ data_body j u d → ⊥ }
    ensures commit { (i j : ℕ) (k : Kind) (r t : ℕ) (v : Vector) → submit_body i k r t ≡ commit_body j v → ⊥ }
    ensures proof { (i j : ℕ) (k : Kind) (r t : ℕ) (d : List ℕ) → submit_body i k r t ≡ proof_body j d → ⊥ }
    ensures peer { (i : ℕ) (k : Kind) (r t : ℕ) (m : PeerMessage) → submit_body i k r t ≡ peer_body m → ⊥ }
{}

/// Of the other four kinds, too, no body is one of two.
#[tactic(auto, using(crate::proofs::FirstBytes::data_no_commit, crate::proofs::FirstBytes::data_no_proof, crate::proofs::FirstBytes::data_no_peer, crate::proofs::FirstBytes::commit_no_proof, crate::proofs::FirstBytes::commit_no_peer, crate::proofs::FirstBytes::proof_no_peer))]
pub fn other_bodies_are_apart()
    ensures data_commit { (i j t : ℕ) (d : Option (List ℕ)) (v : Vector) → data_body i t d ≡ commit_body j v → ⊥ }
    ensures data_proof { (i j t : ℕ) (d : Option (List ℕ)) (e : List ℕ) → data_body i t d ≡ proof_body j e → ⊥ }
    ensures data_peer { (i t : ℕ) (d : Option (List ℕ)) (m : PeerMessage) → data_body i t d ≡ peer_body m → ⊥ }
    ensures commit_proof { (i j : ℕ) (v : Vector) (d : List ℕ) → commit_body i v ≡ proof_body j d → ⊥ }
    ensures commit_peer { (i : ℕ) (v : Vector) (m : PeerMessage) → commit_body i v ≡ peer_body m → ⊥ }
    ensures proof_peer { (i : ℕ) (d : List ℕ) (m : PeerMessage) → proof_body i d ≡ peer_body m → ⊥ }
{}

/// A tag has 32 bytes, and so has the digest of a hashed input, of a chain and of a value: they are in the ranges of
/// messages.
pub fn tags_and_digests_are_in_range()
    ensures tag { (key body : List ℕ) → IsDigest (tag_of key body) }
    ensures input { (input : List ℕ) → IsDigest (input_digest input) }
    ensures chain { (before : Option (List ℕ)) (k : ℕ) → IsDigest (link before k) }
    ensures value { (value : List ℕ) → IsDigest (value_digest_of value) }
{}
