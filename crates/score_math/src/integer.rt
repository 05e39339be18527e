//! Sort keys and sums of buckets: a clamp to 64 bits, and a mean that is rounded down.
ghost use Rattle.std.specs.Prelude.{◌≡◌, ℤ, pos, ◌+ℤ◌, ◌-ℤ◌, ◌*ℤ◌, ◌≤ℤ◌, ◌<ℤ◌, ◌≤◌, unsigned_abs, FitsSigned};
ghost use Rattle.std.specs.Int.{saturate_signed, w64};
ghost use Rattle.score_math.specs.Integers.{floor_div};

/// The number from -2^63 to 2^63 - 1 that is nearest to the sum.
pub fn clamp64(sum: i128) -> i64
    ensures value { result ≡ saturate_signed w64 sum }
    ensures nearest { (n : ℤ) → FitsSigned w64 n → unsigned_abs (sum -ℤ result) ≤ unsigned_abs (sum -ℤ n) }
{
    sum.clamp(i128::from(i64::MIN), i128::from(i64::MAX)) as i64
}

/// The mean of `count` numbers with this sum, rounded towards minus infinity, for negative sums too.
pub fn floor_mean(sum: i128, count: u32) -> i128
    requires { 1 ≤ count }
    ensures value { result ≡ floor_div sum count }
    ensures at_most { (result *ℤ pos count) ≤ℤ sum }
    ensures next_passes { sum <ℤ ((result +ℤ pos 1) *ℤ pos count) }
{
    sum.div_euclid(i128::from(count))
}
