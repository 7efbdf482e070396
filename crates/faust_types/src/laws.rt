//! What the definitions of `specs/` keep. Each function has an empty body, and its contract is the law.
ghost use Rattle.std.specs.Prelude.{◌≡◌, ◌↔◌, ℕ, List, false, true};
ghost use Rattle.faust_types.specs.Clients.{IsClient};
ghost use Rattle.faust_types.specs.Versions.{Vector, IsVersion, IsAtMost, IsOrder, clients_of, initial, stepped, compared, is_at_most, is_comparable};
ghost use Rattle.faust_types.specs.declared.version.Compared.TheVariants.{Apart, Less};

/// Versions of one number of clients are partially ordered.
#[tactic(auto, using(crate::proofs::Order::at_most_self, crate::proofs::Order::at_most_along, crate::proofs::Order::at_most_both))]
pub fn order_is_partial()
    ensures itself { (v : Vector) → IsAtMost v v }
    ensures along { (u v w : Vector) → clients_of u ≡ clients_of v → IsAtMost u v → IsAtMost v w → IsAtMost u w }
    ensures both { (v w : Vector) → IsVersion v → IsVersion w → clients_of v ≡ clients_of w → IsAtMost v w → IsAtMost w v → v ≡ w }
{}

/// The order computes: the test says what the order says, and comparing gives the one answer that is right.
#[tactic(auto, using(crate::proofs::Order::is_at_most_tells, crate::proofs::Order::compared_means))]
pub fn order_computes()
    ensures test { (v w : Vector) → (is_at_most v w ≡ true) ↔ IsAtMost v w }
    ensures answer { (v w : Vector) → IsOrder (compared v w) v w }
{}

/// No version is below the initial one, and one more operation makes a greater version.
#[tactic(auto, using(crate::proofs::Steps::initial_is_least, crate::proofs::Steps::step_is_above))]
pub fn steps_go_up()
    ensures least { (n : ℕ) (v : Vector) → IsVersion v → clients_of v ≡ n → IsAtMost (initial n) v }
    ensures above { (v : Vector) (k : ℕ) (d : List ℕ) → IsClient (clients_of v) k → IsOrder Less v (stepped v k d) }
{}

/// Two versions are Apart exactly where they aren't comparable, whichever stands first.
#[tactic(auto, using(crate::proofs::Order::apart_means, crate::proofs::Order::apart_turned))]
pub fn apart_is_incomparable()
    ensures means { (v w : Vector) → (compared v w ≡ Apart) ↔ (is_comparable v w ≡ false) }
    ensures turned { (v w : Vector) → compared v w ≡ Apart → compared w v ≡ Apart }
{}
