//! Tests all pairs of neighbours in a list.
ghost use Rattle.std.specs.Prelude.{◌≡◌, Bool};
ghost use Rattle.mob_written.specs.Neighbours.{all_neighbours as all_pass};

/// Whether all pairs of neighbours pass the test.
pub fn all_neighbours<A, F: Fn(&A, &A) -> bool>(items: &[A], passes: F) -> bool
    requires callable { F.IsAlwaysCallable passes }
    ensures value { (test : A → A → Bool) → ((item : _) (next : _) (passed : Bool) → F.post passes item next passed → passed ≡ test item.now next.now) → result ≡ all_pass test items.now }
{
    let [first, rest @ ..] = items else {
        return true;
    };
    let mut last = first;
    for next in rest {
        if !passes(last, next) {
            return false;
        }
        last = next;
    }
    true
}
