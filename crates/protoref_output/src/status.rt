//! How a command ends.

ghost use Rattle.std.specs.Prelude.{◌≡◌};
ghost use Rattle.protoref_output.specs.Ends.{code_of};

/// How a command ends.
#[derive(Clone, Copy, Debug, PartialEq, Eq)]
pub enum Status {
    /// All is well.
    Done,
    /// The schemas or the journal have a fault, a rule found something, or an edit is refused.
    Problem,
}

impl Status {
    /// The exit status of the program: 0 or 1.
    pub fn code(self) -> u8
        ensures { result ≡ code_of self }
    {
        match self {
            Status::Done => 0,
            Status::Problem => 1,
        }
    }
}
