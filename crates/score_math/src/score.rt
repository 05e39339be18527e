//! Scores: sums that stop at a cap, and the mode of several scores.
ghost use Rattle.std.specs.Prelude.{◌≡◌, ℕ, ◌+◌, ◌*◌, ◌≤◌, List, Some};
ghost use Rattle.score_math.specs.Scores.{capped, mode_of, Summarizes};

/// The greatest score: 2^63 - 1, the greatest `long` of JSON replies.
pub const SCORE_CAP: u64 = 9_223_372_036_854_775_807;

/// How the scores of the objects that hit become the one score of the object around them, after
/// `score_mode` of the `nested` and `has_child` queries of the Elasticsearch reference. Scores are
/// whole numbers here.
#[derive(Clone, Copy, Debug, PartialEq, Eq)]
pub enum ScoreMode {
    /// The mean, rounded down.
    Avg,
    /// The greatest.
    Max,
    /// The least.
    Min,
    /// The sum, at most `SCORE_CAP`.
    Sum,
    /// 0: the mode `none`.
    Zero,
}

/// The sum of two scores, at most `SCORE_CAP`.
pub fn cap_add(a: u64, b: u64) -> u64
    ensures { result ≡ capped (a + b) }
{
    a.saturating_add(b).min(SCORE_CAP)
}

/// The mode of the list of scores that has this sum, this count, this least and this greatest score.
/// The sum is whole and not capped: its type has room for 2^32 scores.
pub fn combine(mode: ScoreMode, total: u128, count: u32, least: u64, greatest: u64) -> u64
    requires some { 1 ≤ count }
    requires least_capped { least ≤ SCORE_CAP }
    requires greatest_capped { greatest ≤ SCORE_CAP }
    requires total_bounded { total ≤ count * greatest }

    ensures mode { (scores : List ℕ) → Summarizes scores total count least greatest
        → mode_of mode scores ≡ Some result }
    ensures within_cap { result ≤ SCORE_CAP }
{
    match mode {
        ScoreMode::Avg => (total / u128::from(count)) as u64,
        ScoreMode::Max => greatest,
        ScoreMode::Min => least,
        ScoreMode::Sum => total.min(u128::from(SCORE_CAP)) as u64,
        ScoreMode::Zero => 0,
    }
}
