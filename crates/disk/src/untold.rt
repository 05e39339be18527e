//! A disk that tells nothing of its file, as a real one: the trait then asks for no proof.

use crate::device::Disk;
use io_edges::Failed;

// The disk, and nothing told of it.
struct Untold<D> {
    disk: D,
}

impl<D: Disk> Disk for Untold<D> {
    ghost use Rattle.std.specs.Prelude.{None};
    ghost use Rattle.disk.specs.Replay.{untold};

    ghost content = { λ it. None };

    ghost image = { λ it image. ⊥ };

    ghost moment = { λ it. 0 };

    ghost image_since = { λ it since image. ⊥ };

    ghost faults = { λ it. D.faults it.disk };

    fn len(&mut self) -> Result<u64, Failed> {
        self.disk.len()
    }

    fn read(&mut self, at: u64, into: &mut [u8]) -> Result<usize, Failed> {
        self.disk.read(at, into)
    }

    fn write_at(&mut self, at: u64, bytes: &[u8]) -> Result<(), Failed> {
        self.disk.write_at(at, bytes)
    }

    fn sync(&mut self) -> Result<(), Failed> {
        self.disk.sync()
    }

    fn cut(&mut self, len: u64) -> Result<(), Failed> {
        self.disk.cut(len)
    }

    ghost gives_image = { λ it bytes told. untold bytes told };

    ghost counts_now = { λ it since bytes before is. is };

    ghost only_now = { λ it bytes since. since };
}
