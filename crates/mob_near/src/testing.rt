//! When a walk tests the rectangles of a piece. A test costs time, and where ships stay close none
//! skips a piece. So after a test that skipped nothing, the next pieces are computed without one: 1,
//! then 3, 7, and at most 15. After a test that skipped its piece, the next piece is tested.

// The most pieces between two tests.
const MOST: u32 = 15;

/// How many pieces are still to be computed without a test, and how many were to be after the last
/// test. No clause speaks of it: a test may be left out anywhere.
#[derive(Drop)]
pub(crate) struct Testing {
    left: u32,
    pause: u32,
}

/// The next piece is tested.
pub(crate) fn at_once() -> Testing {
    Testing { left: 0, pause: 0 }
}

/// Whether the next piece is tested. If it is not, it is counted.
pub(crate) fn is_due(testing: &mut Testing) -> bool {
    if testing.left == 0 {
        return true;
    }
    testing.left -= 1;
    false
}

/// Takes note of whether a test skipped its piece.
pub(crate) fn learn(testing: &mut Testing, skipped: bool) {
    if skipped {
        testing.pause = 0;
        return;
    }
    if testing.pause < MOST {
        testing.pause = 2 * testing.pause + 1;
    }
    testing.left = testing.pause;
}
