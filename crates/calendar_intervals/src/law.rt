//! Laws: what holds of the starts of intervals, as the contract of a function that does nothing.
ghost use Rattle.std.specs.Ordering.{int_cmp};
ghost use Rattle.std.specs.List.Sorted.{IsStrictlySortedBy};
ghost use Rattle.calendar_intervals.specs.Starts.{starts};
ghost use Rattle.calendar_intervals.specs.declared.interval.Interval.{Interval};

/// The starts of intervals ascend, and no two are one.
pub fn starts_ascend()
    ensures { (interval : Interval) → IsStrictlySortedBy int_cmp (starts interval) }
{}
