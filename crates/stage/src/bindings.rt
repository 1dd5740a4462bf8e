// R34: sets of bindings, held as lists.
ghost use Rattle.std.specs.Prelude.{◌≡◌, true};
ghost use Rattle.stage.specs.Bindings.{member, within, same_set, SameMembers};

// Whether `x` is among the numbers of `s`. Asked for each number of another list, the library's `contains` takes half as long again.
#[tactic(auto, using(crate::proofs::Sets::none_behind, crate::proofs::Sets::found_here, crate::proofs::Sets::found_behind))]
fn has(s: &[u64], x: u64) -> bool
    ensures { result ≡ member x s.now }
{
    for y in s {
        if *y == x {
            return true;
        }
    }
    false
}

// Whether each number of `a` is among those of `b`.
fn inside(a: &[u64], b: &[u64]) -> bool
    ensures { result ≡ within a.now b.now }
{
    a.iter().all(|x| has(b, *x))
}

// Whether two lists have the same members.
#[tactic(auto, unfolding(crate::specs::Bindings::same_set))]
pub fn same_set(a: &[u64], b: &[u64]) -> bool
    ensures answer { result ≡ same_set a.now b.now }
    ensures meaning { (result ≡ true → SameMembers a.now b.now) × (SameMembers a.now b.now → result ≡ true) }
{
    inside(a, b) && inside(b, a)
}
