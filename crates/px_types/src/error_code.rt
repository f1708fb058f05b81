// The protocol's error codes.
ghost use Rattle.std.specs.Prelude.{◌≡◌};
ghost use Rattle.px_types.specs.ErrorCode.{code_of};

/// Why the server refuses a packet, by PulseAudio's `pulse/def.h`. `Exist` is never sent.
#[derive(Clone, Copy, Debug, PartialEq, Eq)]
pub enum ErrorCode {
    Access,
    Command,
    Invalid,
    Exist,
    NoEntity,
    Protocol,
    BadState,
    Version,
    TooLarge,
    NotSupported,
    NotImplemented,
    Busy,
}

impl ErrorCode {
    /// Its number on the wire.
    pub fn code(self) -> u32
        ensures { result ≡ code_of self }
    {
        match self {
            ErrorCode::Access => 1,
            ErrorCode::Command => 2,
            ErrorCode::Invalid => 3,
            ErrorCode::Exist => 4,
            ErrorCode::NoEntity => 5,
            ErrorCode::Protocol => 7,
            ErrorCode::BadState => 15,
            ErrorCode::Version => 17,
            ErrorCode::TooLarge => 18,
            ErrorCode::NotSupported => 19,
            ErrorCode::NotImplemented => 23,
            ErrorCode::Busy => 26,
        }
    }
}
