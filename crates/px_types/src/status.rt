// How a run of the program ends.
ghost use Rattle.std.specs.Prelude.{◌≡◌};
ghost use Rattle.px_types.specs.Status.{exit_code};

/// How a run of the program ends.
#[derive(Clone, Copy, Debug, PartialEq, Eq)]
pub enum Status {
    /// All was read and written.
    Ok,
    /// The recorded session, or the header to serve by, breaks a rule.
    Refused,
    /// The words of the command line aren't those of the usage text.
    Usage,
    /// Want of memory.
    Memory,
    /// A read of the input failed.
    ReadFault,
    /// A write of the output or the log failed.
    WriteFault,
    /// A device failed.
    Device,
    /// The host, a listener or a recorder failed.
    Host,
    /// No sink has the name that was asked for.
    NoSuchSink,
    /// A history that is held in memory has reached its limit.
    HistoryFull,
    /// The server that a control client asked refused with an error code.
    Denied,
    /// What the server sent a control client isn't the reply to its packet.
    BadReply,
    /// The server closed a control client's link before its reply.
    Gone,
    /// A control client's link wasn't ready for 1,000,000 calls in a row.
    Silent,
}

impl Status {
    /// The exit code of the process.
    pub fn code(self) -> u8
        ensures { result ≡ exit_code self }
    {
        match self {
            Status::Ok => 0,
            Status::Refused => 1,
            Status::Usage => 2,
            Status::Memory => 3,
            Status::ReadFault => 4,
            Status::WriteFault => 5,
            Status::Device => 6,
            Status::Host => 7,
            Status::NoSuchSink => 8,
            Status::HistoryFull => 9,
            Status::Denied => 10,
            Status::BadReply => 11,
            Status::Gone => 12,
            Status::Silent => 13,
        }
    }
}
