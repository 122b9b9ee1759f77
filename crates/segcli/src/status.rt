//! How the program ends.
ghost use Rattle.std.specs.Prelude.{◌≡◌};
ghost use Rattle.segcli.specs.Statuses.{status_code};

/// How the program ended.
#[derive(Clone, Copy, Debug, PartialEq, Eq)]
pub enum ExitStatus {
    /// It did what it was asked for.
    Done,
    /// A line, a word or the command line is bad.
    BadInput,
    /// It met any other fault.
    Failed,
}

impl ExitStatus {
    /// The exit status.
    pub fn code(self) -> u8
        ensures { result ≡ status_code self }
    {
        match self {
            ExitStatus::Done => 0,
            ExitStatus::BadInput => 2,
            ExitStatus::Failed => 3,
        }
    }
}
