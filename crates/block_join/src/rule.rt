//! How two scores of a document are put together.

ghost use Rattle.std.specs.Prelude.{◌≡◌, ◌≤◌, Some, None, IfSome};
ghost use Rattle.block_join.specs.Merge.{put_together};
ghost use Rattle.score_math.specs.declared.score.TheConstants.{SCORE_CAP};

use score_math::cap_add;

/// How two scores of a document are put together, of which it may have either.
#[derive(Clone, Copy, Debug, PartialEq, Eq)]
pub enum Rule {
    /// It has both, and their sum.
    Both,
    /// It has both, and the first.
    Kept,
    /// It has the first alone.
    Without,
    /// It has the first, to which the second is added.
    Plus,
    /// It has one or both, and their sum.
    Either,
    /// It has one or both, and the greater.
    Greatest,
    /// The first is a count, to which 1 is added where it has the second.
    Counted,
    /// It has the first, and the second is a count of at least so many.
    AtLeast(u64),
}

impl Rule {
    /// What a document has by this score and that one.
    pub(crate) fn apply(self, first: Option<u64>, second: Option<u64>) -> Option<u64>
        requires first { IfSome first (λ score. score ≤ SCORE_CAP) }
        requires second { IfSome second (λ score. score ≤ SCORE_CAP) }
        ensures value { result ≡ put_together self first second }
        ensures capped { IfSome result (λ score. score ≤ SCORE_CAP) }
    {
        match (first, second) {
            (None, None) => None,
            (Some(a), None) => self.with_first(a),
            (None, Some(b)) => self.with_second(b),
            (Some(a), Some(b)) => self.with_both(a, b),
        }
    }

    fn with_first(self, a: u64) -> Option<u64>
        requires { a ≤ SCORE_CAP }
        ensures value { result ≡ put_together self (Some a) None }
        ensures capped { IfSome result (λ score. score ≤ SCORE_CAP) }
    {
        match self {
            Rule::Both | Rule::Kept => None,
            Rule::Without | Rule::Plus | Rule::Either | Rule::Greatest | Rule::Counted => Some(a),
            Rule::AtLeast(least) => if least == 0 { Some(a) } else { None },
        }
    }

    fn with_second(self, b: u64) -> Option<u64>
        requires { b ≤ SCORE_CAP }
        ensures value { result ≡ put_together self None (Some b) }
        ensures capped { IfSome result (λ score. score ≤ SCORE_CAP) }
    {
        match self {
            Rule::Both | Rule::Kept | Rule::Without | Rule::Plus | Rule::AtLeast(_) => None,
            Rule::Either | Rule::Greatest => Some(b),
            Rule::Counted => Some(1),
        }
    }

    fn with_both(self, a: u64, b: u64) -> Option<u64>
        requires first { a ≤ SCORE_CAP }
        requires second { b ≤ SCORE_CAP }
        ensures value { result ≡ put_together self (Some a) (Some b) }
        ensures capped { IfSome result (λ score. score ≤ SCORE_CAP) }
    {
        match self {
            Rule::Both | Rule::Plus | Rule::Either => Some(cap_add(a, b)),
            Rule::Kept => Some(a),
            Rule::Without => None,
            Rule::Greatest => Some(a.max(b)),
            Rule::Counted => Some(cap_add(a, 1)),
            Rule::AtLeast(least) => if least <= b { Some(a) } else { None },
        }
    }
}
