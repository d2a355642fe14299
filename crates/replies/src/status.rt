//! How the program ends.

/// How the program ends, with its exit status as the variant's place from 0.
#[derive(Clone, Copy, Debug, PartialEq, Eq)]
pub enum Status {
    /// 0: the command was done.
    Done,
    /// 1: there is no legal placement.
    Refuted,
    /// 2: the budget of conflicts was spent.
    Undecided,
    /// 3: a file was refused.
    Input,
    /// 4: the words are no command.
    Words,
    /// 5: a file could not be read or saved.
    ShelfFault,
    /// 6: the output could not be written.
    SinkFault,
    /// 7: memory was refused.
    NoMemory,
    /// 8: the checker does not accept the refutation.
    CheckNo,
}

impl Status {
    ghost use Rattle.std.specs.Prelude.{◌≡◌};
    ghost use Rattle.replies.specs.Status.{number_of_status};

    /// The exit status.
    pub fn number(self) -> u8
        ensures { result ≡ number_of_status self }
    {
        self as u8
    }
}
