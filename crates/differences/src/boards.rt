//! Boards worked out by hand.

ghost use Rattle.std.specs.Prelude.{◌≡◌, length};
ghost use Rattle.differences.specs.Boards.{boards, BoardsStand};

const COUNT: usize = 5;

/// The number of worked boards. On each of them the hull of the allowed plans, found by going through them all, is what is said to be
/// left.
pub fn worked_boards() -> usize
    ensures count { result ≡ length boards }
    ensures stand { BoardsStand }
{
    COUNT
}
