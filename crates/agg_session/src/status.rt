ghost use Rattle.std.specs.Prelude.{◌≡◌, None, Some, MatchOption};
ghost use Rattle.agg_session.specs.Statuses.{exit_number, error_words, status_of_words};

use command_words::WordsError;

/// How the program ends.
#[derive(Clone, Copy, Debug, PartialEq, Eq)]
pub enum Status {
    /// The input was read to its end, every line was answered, and all complete steps are in files.
    Done,
    /// The words are none of the program's commands.
    Usage,
    /// The source counted a fault.
    SourceFault,
    /// The sink counted a fault.
    SinkFault,
    /// The disk counted a fault.
    DiskFault,
    /// The keeper counted a fault.
    KeeperFault,
    /// Memory could not be had.
    Memory,
    /// As many bytes were taken as may be.
    Long,
}

impl Status {
    /// The exit status of the program.
    pub fn number(self) -> u8
        ensures { result ≡ exit_number self }
    {
        match self {
            Status::Done => 0,
            Status::Usage => 1,
            Status::SourceFault => 3,
            Status::SinkFault => 4,
            Status::DiskFault => 5,
            Status::KeeperFault => 6,
            Status::Memory => 7,
            Status::Long => 9,
        }
    }

    /// The line on standard error; none where all went well.
    pub fn text(self) -> Option<&'static str>
        ensures { MatchOption result (error_words self ≡ None) (λ text. error_words self ≡ Some text.now) }
    {
        match self {
            Status::Done => None,
            Status::Usage => Some("aggregator: usage"),
            Status::SourceFault => Some("aggregator: source fault"),
            Status::SinkFault => Some("aggregator: sink fault"),
            Status::DiskFault => Some("aggregator: disk fault"),
            Status::KeeperFault => Some("aggregator: keeper fault"),
            Status::Memory => Some("aggregator: out of memory"),
            Status::Long => Some("aggregator: input too long"),
        }
    }
}

impl From<WordsError> for Status {
    ghost from_gives = { λ error status. status ≡ status_of_words error };

    fn from(error: WordsError) -> Status {
        match error {
            WordsError::Usage => Status::Usage,
            WordsError::Memory => Status::Memory,
        }
    }
}
