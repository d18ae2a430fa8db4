//! The sorted numbers of live rows: search in them, and their removal from a list.
ghost use Rattle.std.specs.Prelude.{◌≡◌, ◌∷◌, []};
ghost use Rattle.std.specs.List.Sorted.{IsNonDecreasing, IsStrictlyIncreasing};
ghost use Rattle.mob_list.specs.Live.{is_among as stands_among, without};

/// Whether a number is among sorted numbers.
pub fn is_among(numbers: &[u32], number: u32) -> bool
    requires rising { IsNonDecreasing numbers.now }
    ensures among { result ≡ stands_among number numbers.now }
{
    numbers.binary_search(&number).is_ok()
}

// Removes the numbers that are in `gone`, which is sorted. It does not allocate.
fn leave_out(live: &mut Vec<u32>, gone: &[u32])
    requires rising { IsNonDecreasing gone.now }
    ensures left { live.new.items ≡ without gone.now live.old.items }
{
    live.retain(|number| !is_among(gone, *number));
}

// Removes one number, found by binary search. It does not allocate.
fn leave_one_out(live: &mut Vec<u32>, gone: u32)
    requires rise { IsStrictlyIncreasing live.old.items }
    ensures left { live.new.items ≡ without (gone ∷ []) live.old.items }
{
    match live.binary_search(&gone) {
        Ok(place) => {
            // The removed number is `gone`.
            let _ = live.remove(place);
        }
        Err(_) => {}
    }
}

/// Removes strictly increasing numbers from others that increase strictly. It does not allocate.
pub fn leave(live: &mut Vec<u32>, gone: &[u32])
    requires rise { IsStrictlyIncreasing live.old.items }
    requires rising { IsStrictlyIncreasing gone.now }
    ensures left { live.new.items ≡ without gone.now live.old.items }
{
    if gone.len() == 1 {
        leave_one_out(live, gone[0]);
        return;
    }
    leave_out(live, gone);
}
