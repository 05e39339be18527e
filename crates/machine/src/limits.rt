//! The limits of a session.

ghost use Rattle.std.specs.Prelude.{◌≡◌};
ghost use Rattle.machine.specs.Limit.{standard_limits};

/// The limits that a session is held to.
#[derive(Clone, Copy, Debug, PartialEq, Eq)]
pub struct Limits {
    /// The most live objects, roots included.
    pub objects: u64,
    /// The most bytes of a reply, without its newline.
    pub reply_bytes: u64,
    /// The most bytes of the store file.
    pub store_bytes: u64,
    /// The most bytes that a session reads.
    pub session_bytes: u64,
}

impl Limits {
    /// The limits of the program, and the greatest that there may be.
    pub fn standard() -> Limits
        ensures { result ≡ standard_limits }
    {
        Limits {
            objects: 1 << 26,
            reply_bytes: 67_108_864,
            store_bytes: 1 << 38,
            session_bytes: 1 << 50,
        }
    }
}
