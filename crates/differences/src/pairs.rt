//! Two columns alone: what a gap between their values leaves of their windows.

ghost use Rattle.std.specs.Prelude.{◌≡◌, Bool, true, ◌||◌, ℤ};
ghost use Rattle.std.specs.Option.{option_map};
ghost use Rattle.rules.specs.declared.window.Window.{Window as Interval};
ghost use Rattle.rules.specs.Plans.{lawful};
ghost use Rattle.differences.specs.Apart.{ahead, far, InRange};
ghost use Rattle.differences.specs.Pairs.{PairLeaves};

use rules::Window;

// A pair of windows is a tuple: it is made and taken apart within this file.

/// What is left of two windows whose values are the gap or more apart: of each order what it leaves, and both together.
pub(crate) fn keep_apart(a: Window, b: Window, gap: i32) -> Option<(Window, Window)>
    requires lawful { (lawful a ≡ true) × (lawful b ≡ true) }
    requires range { InRange gap }
    ensures { PairLeaves (far gap) a b result }
{
    let rising = precede(a, b, gap);
    let falling = exchange(precede(b, a, gap));
    join(rising, falling)
}

/// What is left of two windows where the value of the first is at most that of the second less the gap.
fn precede(a: Window, b: Window, gap: i32) -> Option<(Window, Window)>
    requires lawful { (lawful a ≡ true) × (lawful b ≡ true) }
    requires range { InRange gap }
    ensures { PairLeaves (ahead gap) a b result }
{
    let latest = b.last - gap;
    let earliest = a.first + gap;
    if a.first > latest {
        return None;
    }
    Some((
        Window {
            first: a.first,
            last: a.last.min(latest),
        },
        Window {
            first: b.first.max(earliest),
            last: b.last,
        },
    ))
}

/// The same pair of windows in the other order.
fn exchange(pair: Option<(Window, Window)>) -> Option<(Window, Window)>
    ensures { result ≡ option_map (λ p. (p.1, p.0)) pair }
{
    pair.map(|(v, w)| (w, v))
}

/// What one or the other of two relations leaves, from what each leaves.
fn join(
    these: Option<(Window, Window)>,
    those: Option<(Window, Window)>,
) -> Option<(Window, Window)>
    ensures { (R S : ℤ → ℤ → Bool) (a b : Interval) → PairLeaves R a b these → PairLeaves S a b those → PairLeaves (λ x y. R x y || S x y) a b result }
{
    match (these, those) {
        (Some((a, b)), Some((v, w))) => Some((a.span(&v), b.span(&w))),
        (Some(_), None) => these,
        (None, _) => those,
    }
}
