//! What a stream's bytes tell of its frames. Each function has an empty body, and its contract is the law.
ghost use Rattle.std.specs.Prelude.{◌≡◌, ◌++◌, ◌∷◌, [], ℕ, List, Option, Some};
ghost use Rattle.faust_link.specs.Frames.{IsFrame, AreFrames, IsBroken, spelling_of, stream_of};
ghost use Rattle.faust_link.specs.Links.{TakesFrame};

/// Bytes begin with at most one frame, and go on behind it in one way.
#[tactic(auto, using(crate::proofs::FrameLaws::one_frame))]
pub fn streams_begin_with_one_frame()
    ensures { (f g r s : List ℕ) → IsFrame f → IsFrame g → spelling_of f ++ r ≡ spelling_of g ++ s → (f ≡ g) × (r ≡ s) }
{}

/// Two streams with the same bytes carry the same frames.
#[tactic(auto, using(crate::proofs::FrameLaws::one_stream))]
pub fn streams_tell_their_frames()
    ensures { (fs gs : List (List ℕ)) → AreFrames fs → AreFrames gs → stream_of fs ≡ stream_of gs → fs ≡ gs }
{}

/// A stream that goes on with a frame isn't broken, and neither is one at its end.
#[tactic(auto, using(crate::proofs::FrameLaws::frame_not_broken, crate::proofs::FrameLaws::end_not_broken))]
pub fn streams_of_frames_arent_broken()
    ensures frame { (f r : List ℕ) → IsFrame f → IsBroken (spelling_of f ++ r) → ⊥ }
    ensures end { IsBroken [] → ⊥ }
{}

/// What a `recv` takes of a stream of frames is the first of them, and the stream of the others is left.
#[tactic(auto, using(crate::proofs::FrameLaws::first_is_taken, crate::proofs::FrameLaws::none_is_taken))]
pub fn frames_come_in_order()
    ensures first { (f : List ℕ) (fs : List (List ℕ)) (after : Option (List ℕ)) (frame : List ℕ) →
        AreFrames (f ∷ fs) → TakesFrame (Some (stream_of (f ∷ fs))) after frame →
        (frame ≡ f) × (after ≡ Some (stream_of fs)) }
    ensures none { (after : Option (List ℕ)) (frame : List ℕ) → TakesFrame (Some []) after frame → ⊥ }
{}
