ghost use Rattle.std.specs.Prelude.{◌≡◌};
ghost use Rattle.sr_command.specs.Status.{code_of};

/// How a run ended. The numbers are the statuses of the process.
#[derive(Clone, Copy, Debug, PartialEq, Eq)]
pub enum Status {
    /// The file ran to its end.
    Ran = 0,
    /// The file ended in a throw.
    Threw = 1,
    /// The words are not of the command.
    WordsRefused = 2,
    /// The run stopped by a listed stop.
    Stopped = 3,
    /// The next charge would pass the bound.
    OutOfSteps = 4,
    /// There is no such file, or it is not UTF-8.
    NoText = 5,
    /// The file could not be read.
    ReadFailed = 6,
    /// The file has a name, or holds a script, of a form that is not built.
    NotBuilt = 9,
}

impl Status {
    /// The status of the process.
    pub fn code(self) -> u8
        ensures { result ≡ code_of self }
    {
        self as u8
    }
}
