//! How the program ends.

ghost use Rattle.std.specs.Prelude.{◌≡◌};
ghost use Rattle.line_engine.specs.Exit.{exit_status};

use line_reader::Stop;
use store_opening::OpenRefusal;

/// How the program ends. The number is its exit status.
#[derive(Clone, Copy, Debug, PartialEq, Eq)]
pub enum Status {
    /// The input was read to its end, and each request is answered; or what was asked for was printed.
    Done = 0,
    /// The words of the command line are none that the program knows.
    BadWords = 2,
    /// Reading the input failed.
    ReadFault = 3,
    /// Writing failed.
    WriteFault = 4,
    /// The disk failed while the store was opened, prepared or checked.
    DiskFault = 5,
    /// The file has bytes, and they don't begin as a store's.
    NotAStore = 6,
    /// The file begins as a store and holds no good commit, or one that `check` finds is not of its sources.
    Damaged = 7,
    /// The input has more bytes than a session may have.
    SessionLimit = 8,
    /// There was no memory before the first request, or before what was asked for was printed.
    NoMemory = 9,
}

impl Status {
    /// The exit status.
    pub fn code(self) -> u8
        ensures { result ≡ exit_status self }
    {
        self as u8
    }
}

impl From<Stop> for Status {
    ghost use Rattle.std.specs.Prelude.{◌≡◌};
    ghost use Rattle.line_engine.specs.Exit.{status_of};

    ghost from_gives = { λ stop status. status ≡ status_of stop };

    fn from(stop: Stop) -> Status {
        match stop {
            Stop::End => Status::Done,
            Stop::Limit => Status::SessionLimit,
            Stop::Fault => Status::ReadFault,
        }
    }
}

impl From<OpenRefusal> for Status {
    ghost use Rattle.std.specs.Prelude.{◌≡◌};
    ghost use Rattle.line_engine.specs.Exit.{status_unopened};

    ghost from_gives = { λ why status. status ≡ status_unopened why };

    fn from(why: OpenRefusal) -> Status {
        match why {
            OpenRefusal::DiskFault => Status::DiskFault,
            OpenRefusal::NotAStore => Status::NotAStore,
            OpenRefusal::Damaged => Status::Damaged,
            OpenRefusal::NoMemory => Status::NoMemory,
        }
    }
}

impl From<tree_json::NoMemory> for Status {
    ghost use Rattle.std.specs.Prelude.{◌≡◌};
    ghost use Rattle.line_engine.specs.declared.status.Status.TheVariants.{NoMemory};

    ghost from_gives = { λ _ status. status ≡ NoMemory };

    fn from(_error: tree_json::NoMemory) -> Status {
        Status::NoMemory
    }
}

impl From<io_edges::NoMemory> for Status {
    ghost use Rattle.std.specs.Prelude.{◌≡◌};
    ghost use Rattle.line_engine.specs.declared.status.Status.TheVariants.{NoMemory};

    ghost from_gives = { λ _ status. status ≡ NoMemory };

    fn from(_error: io_edges::NoMemory) -> Status {
        Status::NoMemory
    }
}

impl From<engine::NoMemory> for Status {
    ghost use Rattle.std.specs.Prelude.{◌≡◌};
    ghost use Rattle.line_engine.specs.declared.status.Status.TheVariants.{NoMemory};

    ghost from_gives = { λ _ status. status ≡ NoMemory };

    fn from(_error: engine::NoMemory) -> Status {
        Status::NoMemory
    }
}
