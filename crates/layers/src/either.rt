//! Two rules of which one is enough.

ghost use Rattle.std.specs.Prelude.{◌≡◌, ℕ, ◌<◌, length};
ghost use Rattle.rules.specs.Plans.{window_at, spanned};
ghost use Rattle.layers.specs.Either.{either_meaning};

use crate::asking::ask;
use rules::window::ROOM;
use rules::{Fault, Rule, Verdict, Window, check_windows};

/// Allows what one of its two rules allows. The one with fewer columns binds the leading ones.
///
/// It asks each of them on windows of its own. Where both are open, a window runs from the smaller first to the larger last; where one
/// is void, the windows of the other are taken. It is tight if both are.
#[derive(Clone, Copy, Drop)]
pub struct Either<A, B> {
    one: A,
    other: B,
}

impl<A, B> Either<A, B> {
    /// One rule or the other.
    pub fn of(one: A, other: B) -> Either<A, B>
        ensures one { result.one ≡ one }
        ensures other { result.other ≡ other }
    {
        Either { one, other }
    }
}

impl<A: Rule, B: Rule> Rule for Either<A, B> {
    ghost meaning = { λ s. either_meaning (A.Rule.meaning s.one) (B.Rule.meaning s.other) };

    fn columns(&mut self) -> usize {
        self.one.columns().max(self.other.columns())
    }

    fn narrow(&mut self, windows: &mut [Window]) -> Result<Verdict, Fault> {
        check_windows(self.columns(), windows)?;
        let mut room = ROOM;
        let copy = &mut room[..windows.len()];
        copy.copy_from_slice(windows);
        let one = ask(&mut self.one, copy);
        let other = ask(&mut self.other, windows);
        if let Verdict::Void = one {
            return Ok(other);
        }
        match other {
            Verdict::Void => windows.copy_from_slice(copy),
            Verdict::Open => span_all(copy, windows),
        }
        Ok(Verdict::Open)
    }
}

/// Widens each window until it holds that of the list too.
fn span_all(list: &[Window], windows: &mut [Window])
    requires { length list.now ≡ length windows.old }
    ensures { (k : ℕ) → k < length windows.old → window_at windows.new k ≡ spanned (window_at list.now k) (window_at windows.old k) }
{
    // An index, not `zip`: after a `zip` over `iter_mut` nothing is known of what was written.
    for (i, window) in windows.iter_mut().enumerate() {
        *window = list[i].span(window);
    }
}
