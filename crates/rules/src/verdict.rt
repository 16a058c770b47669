//! The answer of a rule that took the windows.

/// `Open`: the windows hold what the rule leaves. `Void`: no allowed plan lies in them.
// An enum, and no `Option<()>` or `bool`: the two answers have names wherever one is given or read.
#[derive(Clone, Copy, PartialEq, Eq, Debug)]
pub enum Verdict {
    Open,
    Void,
}
