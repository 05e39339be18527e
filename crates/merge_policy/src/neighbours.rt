//! Neighbours as settling goes by them, from the last to the first.
ghost use Rattle.std.specs.Prelude.{◌≡◌, ◌+◌, ◌*◌, ◌<◌, ◌≤◌, ◌^◌, ◌∷◌, reverse, OnOk};
ghost use Rattle.merge_policy.specs.Policy.{is_too_dead, is_uneven, joined, live_in_all, made_anew, put_before, settling_in, stays};
ghost use Rattle.merge_policy.specs.Runs.{most_counted, most_factor};

use crate::counts::SegmentCount;
use crate::refusal::NoMemory;
use crate::runs::Run;

/// A run, and what its segment has.
#[derive(Clone, Copy)]
pub struct Neighbour {
    /// The run.
    pub run: Run,
    /// What the segment has that it gives way to.
    pub count: SegmentCount,
}

impl Neighbour {
    /// Whether it is left: what is free and has no live item goes.
    pub fn stays(&self) -> bool
        ensures { result ≡ stays self.now }
    {
        self.count.held || self.count.live != 0
    }

    /// Whether it and the one behind it are free, and it has less than the factor times as many live items.
    fn is_uneven(&self, factor: u64, behind: &Neighbour) -> bool
        requires { factor * behind.now.count.live < 2 ^ 64 }
        ensures { result ≡ is_uneven factor self.now behind.now }
    {
        !self.count.held && !behind.count.held && self.count.live < factor * behind.count.live
    }

    /// It and the one behind it as one, before which so many are made.
    fn joined(&self, behind: &Neighbour, made: u64) -> Neighbour
        requires { self.now.count.live + behind.now.count.live < 2 ^ 64 }
        ensures { result ≡ joined made self.now behind.now }
    {
        Neighbour {
            run: Run {
                first: self.run.first,
                last: behind.run.last,
                made: Some(made),
            },
            count: SegmentCount {
                live: self.count.live + behind.count.live,
                dead: 0,
                held: false,
            },
        }
    }

    /// Whether it is free and has more dead than live items.
    pub fn is_too_dead(&self) -> bool
        ensures { result ≡ is_too_dead self.now }
    {
        !self.count.held && self.count.live < self.count.dead
    }

    /// Its run where it is made anew, so many before it.
    pub fn run_anew(&self, made: u64) -> Run
        ensures { result ≡ (made_anew made self.now).run }
    {
        Run {
            first: self.run.first,
            last: self.run.last,
            made: Some(made),
        }
    }
}

/// Neighbours that are settled, the last of all first.
#[derive(Drop)]
pub struct Behind {
    /// The neighbours.
    pub neighbours: Vec<Neighbour>,
    /// How many segments were made for them.
    pub made: u64,
}

impl Behind {
    /// One more stands before them, or is merged with the first of them.
    pub fn put(&mut self, factor: u64, before: Neighbour) -> Result<(), NoMemory>
        requires factor { factor ≤ most_factor }
        requires few { before.count.live + live_in_all self.old.neighbours.items ≤ most_counted }
        requires made { self.old.made + 1 < 2 ^ 64 }
        ensures { OnOk result (settling_in self.new ≡ put_before factor before (reverse self.old.neighbours.items) self.old.made) }
    {
        match self.neighbours.pop() {
            Some(behind) => self.put_by(factor, before, behind),
            None => {
                self.neighbours.push(before)?;
                Ok(())
            }
        }
    }

    /// One stands before another that stands before them, or the two are merged.
    fn put_by(&mut self, factor: u64, before: Neighbour, behind: Neighbour) -> Result<(), NoMemory>
        requires factor { factor ≤ most_factor }
        requires few { before.count.live + behind.count.live ≤ most_counted }
        requires made { self.old.made + 1 < 2 ^ 64 }
        ensures { OnOk result (settling_in self.new ≡ put_before factor before (behind ∷ reverse self.old.neighbours.items) self.old.made) }
    {
        if before.is_uneven(factor, &behind) {
            self.neighbours.push(before.joined(&behind, self.made))?;
            self.made += 1;
            return Ok(());
        }
        self.neighbours.push(behind)?;
        self.neighbours.push(before)?;
        Ok(())
    }
}
