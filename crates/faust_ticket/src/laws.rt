// What follows for whoever has all numbers together. A law is a function that does nothing.
ghost use Rattle.std.specs.Prelude.{◌≡◌, ◌≢◌, ℕ, ◌<◌, List, length, All, AllPairs, Contains};
ghost use Rattle.faust_ticket.specs.Numbers.{HoldsEachBelow};

/// A list that holds each number below m exactly once, in other words: each stands in it, none stands at two places, no other
/// number stands in it, and it has m elements.
pub fn each_number_once()
    ensures found { (m x : ℕ) (numbers : List ℕ) → HoldsEachBelow m numbers → x < m → Contains numbers x }
    ensures apart { (m : ℕ) (numbers : List ℕ) → HoldsEachBelow m numbers → AllPairs (λ x y. x ≢ y) numbers }
    ensures below { (m : ℕ) (numbers : List ℕ) → HoldsEachBelow m numbers → All (λ x. x < m) numbers }
    ensures count { (m : ℕ) (numbers : List ℕ) → HoldsEachBelow m numbers → m ≡ length numbers }
{}
