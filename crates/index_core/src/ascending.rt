//! Numbers that ascend, and how many of them are at most a number.

ghost use Rattle.std.specs.Prelude.{◌≡◌, ℕ, ◌<◌, ◌≤◌, List, length, get_or};
ghost use Rattle.index_core.specs.Found.{IsHalving, Rise, Stands, StandsAt};

/// A list of numbers that is read by index.
pub(crate) trait Numbers {
    ghost numbers: { Self → List ℕ };

    /// How many there are.
    fn count(&self) -> usize
        ensures { result ≡ length (numbers self.now) };

    /// The number at an index.
    fn number(&self, index: usize) -> u64
        requires { index < length (numbers self.now) }
        ensures { result ≡ get_or (numbers self.now) index 0 };
}

/// How many of the numbers are at most this one.
pub(crate) fn count_up_to<N: Numbers>(list: &N, number: u64) -> usize
    requires { Rise (N.numbers list.now) }
    ensures { IsHalving (N.numbers list.now) number result result }
{
    let mut low = 0;
    let mut high = list.count();
    'halves: while low < high {
        let middle = low + (high - low) / 2;
        if list.number(middle) <= number {
            low = middle + 1;
        } else {
            high = middle;
        }
    }
    low
}

/// Where this number stands.
pub(crate) fn index_of<N: Numbers>(list: &N, number: u64) -> usize
    requires rise { Rise (N.numbers list.now) }
    requires stands { Stands (N.numbers list.now) number }
    ensures { StandsAt (N.numbers list.now) result number }
{
    count_up_to(list, number) - 1
}
