//! How a call of the program ended.
ghost use Rattle.std.specs.Prelude.{◌≡◌};
ghost use Rattle.plan_tool.specs.Statuses.{code_of};

/// How a call of the program ended.
#[derive(Clone, Copy, PartialEq, Eq, Hash, Debug)]
pub enum Status {
    /// All was done, and the text was written whole and flushed.
    Done,
    /// The words are no command.
    Usage,
    /// The bytes are no JSON text.
    NotJson,
    /// The JSON value is no document.
    Form,
    /// The plan has a fault, and the text that names it was written whole and flushed.
    Refused,
    /// The tables of the document don't fit its plan.
    Unfit,
    /// The document has too many bytes, or the plan or an expression too many levels.
    Limit,
    /// The source failed.
    ReadFault,
    /// The sink failed.
    WriteFault,
    /// Memory ran out before anything was written.
    OutOfMemory,
}

impl Status {
    /// The exit status that stands for it.
    pub fn code(&self) -> u8
        ensures { result ≡ code_of self.now }
    {
        match self {
            Status::Done => 0,
            Status::Usage => 2,
            Status::NotJson => 3,
            Status::Form => 4,
            Status::Refused => 5,
            Status::Unfit => 6,
            Status::Limit => 7,
            Status::ReadFault => 8,
            Status::WriteFault => 9,
            Status::OutOfMemory => 10,
        }
    }
}
