//! A disk that counts its faults where they can be read.

ghost use Rattle.std.specs.Prelude.{◌≡◌};
ghost use Rattle.io_edges.specs.Faults.{HasCause};

use disk::Disk;
use io_edges::Failed;

/// A disk, and how many calls on it failed, a count that stays at 2^64 - 1.
#[derive(Drop)]
pub(crate) struct FaultCount<D: Disk + Drop> {
    disk: D,
    failed: u64,
}

impl<D: Disk + Drop> FaultCount<D> {
    /// Of this disk, none failed so far.
    pub(crate) fn over(disk: D) -> Self
        ensures { result ≡ record { disk = disk; failed = 0 } }
    {
        FaultCount { disk, failed: 0 }
    }

    /// How many calls failed.
    pub(crate) fn failed(&self) -> u64
        ensures { result ≡ self.now.failed }
    {
        self.failed
    }
}

// What a call gave, which is counted where it failed.
fn counted<T: Drop>(given: Result<T, Failed>, failed: &mut u64) -> Result<T, Failed>
    ensures same { result ≡ given }
    ensures cause { HasCause failed.old failed.new result }
{
    if given.is_err() {
        *failed = failed.saturating_add(1);
    }
    given
}

impl<D: Disk + Drop> Disk for FaultCount<D> {
    ghost content = { λ it. D.content it.disk };

    ghost image = { λ it. D.image it.disk };

    ghost moment = { λ it. D.moment it.disk };

    ghost image_since = { λ it. D.image_since it.disk };

    ghost faults = { λ it. it.failed };

    fn len(&mut self) -> Result<u64, Failed> {
        counted(self.disk.len(), &mut self.failed)
    }

    fn read(&mut self, at: u64, into: &mut [u8]) -> Result<usize, Failed> {
        counted(self.disk.read(at, into), &mut self.failed)
    }

    fn write_at(&mut self, at: u64, bytes: &[u8]) -> Result<(), Failed> {
        counted(self.disk.write_at(at, bytes), &mut self.failed)
    }

    fn sync(&mut self) -> Result<(), Failed> {
        counted(self.disk.sync(), &mut self.failed)
    }

    fn cut(&mut self, len: u64) -> Result<(), Failed> {
        counted(self.disk.cut(len), &mut self.failed)
    }

    ghost gives_image = { λ it bytes told. D.gives_image it.disk bytes told };

    ghost counts_now = { λ it since bytes before is. D.counts_now it.disk since bytes before is };

    ghost only_now = { λ it bytes since. D.only_now it.disk bytes since };
}
