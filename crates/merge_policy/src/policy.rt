//! Settling, from the last segment to the first.
ghost use Rattle.std.specs.Prelude.{◌≡◌, ℕ, ◌+◌, ◌<◌, ◌≤◌, ◌^◌, length, map, reverse, sum_by, IfOk};
ghost use Rattle.std.specs.List.{All};
ghost use Rattle.layout.specs.Layout.{Layout, settled};
ghost use Rattle.merge_policy.specs.Policy.{all_anew, evened_from, run_in, settled_made, settled_runs, settling_in, standing};
ghost use Rattle.merge_policy.specs.Runs.{AreRuns, HaveOwnNumbers, IsAmong, counts_of, laid_by, live_counted, most_counted, most_factor};

use crate::counts::SegmentCount;
use crate::neighbours::{Behind, Neighbour};
use crate::refusal::NoMemory;
use crate::runs::{Run, SettledRuns};
use std::alloc::Global;

/// What settling by a factor leaves of segments of these counts. Takes time by their number.
pub fn settled(alloc: Global, counts: &[SegmentCount], factor: u64) -> Result<SettledRuns, NoMemory>
    requires factor { factor ≤ most_factor }
    requires few { sum_by live_counted counts.now ≤ most_counted }
    ensures runs { IfOk result (λ s. s.runs.items ≡ settled_runs factor counts.now) }
    ensures made { IfOk result (λ s. s.made ≡ settled_made factor counts.now) }
    ensures layout { IfOk result (λ s. (layout : Layout ℕ) → counts_of layout ≡ counts.now → All (IsAmong (length layout.segments)) layout.merges
        → settled (Some factor) layout ≡ laid_by s.runs.items s.made layout) }
    ensures order { IfOk result (λ s. AreRuns s.made 0 s.runs.items (length counts.now)) }
    ensures own { IfOk result (λ s. HaveOwnNumbers s.runs.items) }
    ensures few { IfOk result (λ s. s.made ≤ length counts.now) }
{
    let evened = evened(alloc, counts, factor)?;
    anew(alloc, &evened)
}

/// What is live at all, from the last to the first, each merged with the one behind it where they are uneven.
fn evened(alloc: Global, counts: &[SegmentCount], factor: u64) -> Result<Behind, NoMemory>
    requires factor { factor ≤ most_factor }
    requires few { sum_by live_counted counts.now ≤ most_counted }
    ensures settled { IfOk result (λ b. settling_in b ≡ evened_from factor 0 counts.now) }
    ensures few { IfOk result (λ b. b.made + length b.neighbours.items < 2 ^ 64) }
{
    let mut behind = Behind {
        neighbours: Vec::new(alloc),
        made: 0,
    };
    let mut index = counts.len();
    'segments: while index > 0 {
        index -= 1;
        let next = standing(index, counts[index]);
        if next.stays() {
            behind.put(factor, next)?;
        }
    }
    Ok(behind)
}

/// A segment as it stands.
fn standing(index: usize, count: SegmentCount) -> Neighbour
    ensures { result ≡ standing index count }
{
    let index = index as u64;
    Neighbour {
        run: Run {
            first: index,
            last: index,
            made: None,
        },
        count,
    }
}

/// The runs of those that are settled, in order; what is dead by more than a half is made anew.
fn anew(alloc: Global, evened: &Behind) -> Result<SettledRuns, NoMemory>
    requires { evened.now.made + length evened.now.neighbours.items < 2 ^ 64 }
    ensures runs { IfOk result (λ s. s.runs.items ≡ map run_in (all_anew evened.now.made (reverse evened.now.neighbours.items)).neighbours) }
    ensures made { IfOk result (λ s. s.made ≡ (all_anew evened.now.made (reverse evened.now.neighbours.items)).made) }
{
    let mut runs = Vec::with_capacity(alloc, evened.neighbours.len())?;
    let mut made = evened.made;
    'neighbours: for neighbour in &evened.neighbours {
        if neighbour.is_too_dead() {
            runs.push(neighbour.run_anew(made))?;
            made += 1;
        } else {
            runs.push(neighbour.run)?;
        }
    }
    runs.reverse();
    Ok(SettledRuns { runs, made })
}
