//! How a run ends.

ghost use Rattle.std.specs.Prelude.{◌≡◌};
ghost use Rattle.line_serving.specs.Replies.{code_of};

/// How a run ends.
#[derive(Clone, Copy, Debug, PartialEq, Eq)]
pub enum Status {
    /// The input was read to its end and all that it asks for was done.
    Done,
    /// The arguments aren't recognised.
    Usage,
    /// The network part is refused.
    NetworkRefused,
    /// A line is no line of the program's.
    LineRefused,
    /// The source failed.
    ReadFault,
    /// The sink failed.
    WriteFault,
    /// A limit is passed.
    TooLong,
}

impl Status {
    /// The number that the program ends with.
    pub fn code(self) -> u8
        ensures { result ≡ code_of self }
    {
        match self {
            Status::Done => 0,
            Status::Usage => 2,
            Status::NetworkRefused => 3,
            Status::LineRefused => 4,
            Status::ReadFault => 5,
            Status::WriteFault => 6,
            Status::TooLong => 7,
        }
    }
}
