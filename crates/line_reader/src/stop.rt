//! Why there is no further request.

ghost use Rattle.std.specs.Prelude.{◌≡◌, OnOk, IfErr};
ghost use Rattle.line_reader.specs.declared.stop.Stop.TheVariants.{End};

/// Why there is no further request.
#[derive(Clone, Copy, Debug, PartialEq, Eq)]
pub enum Stop {
    /// The input has ended.
    End,
    /// The input goes on beyond the session's limit.
    Limit,
    /// Reading failed.
    Fault,
}

impl Stop {
    /// The end of the input as success, and another stop as it is.
    pub(crate) fn unless_end(self) -> Result<(), Stop>
        ensures ok { OnOk result (self ≡ End) }
        ensures err { IfErr result (λ stop. (stop ≡ self) × ¬ (self ≡ End)) }
    {
        match self {
            Stop::End => Ok(()),
            Stop::Limit => Err(self),
            Stop::Fault => Err(self),
        }
    }
}
