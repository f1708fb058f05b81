// The faults of a descriptor, and how a decoder reports them.

ghost use Rattle.std.specs.Prelude.{◌≡◌};
ghost use Rattle.px_frame.specs.Fault.{code_of};

use crate::frame::Frames;
use px_block::NoMemory;
use thiserror::Error;

/// A rule that a descriptor breaks (`do_read` in `pulsecore/pstream.c`).
#[derive(Clone, Copy, Debug, PartialEq, Eq, Error)]
pub enum FrameFault {
    /// A length of 0.
    #[error("a frame of length 0")]
    ZeroLength,
    /// A length above 16,777,216.
    #[error("a frame above 16,777,216 bytes")]
    TooLong,
    /// Flags on a control packet.
    #[error("a control packet with flags")]
    PacketFlags,
    /// Flags of shared memory, which isn't supported.
    #[error("a frame in shared memory")]
    SharedMemory,
    /// A seek mode above 3.
    #[error("an unknown seek mode")]
    SeekMode,
}

impl FrameFault {
    /// Its number in recorded sessions, 1 to 5. Own: PulseAudio has none.
    pub fn code(self) -> u8
        ensures { result ≡ code_of self }
    {
        match self {
            FrameFault::ZeroLength => 1,
            FrameFault::TooLong => 2,
            FrameFault::PacketFlags => 3,
            FrameFault::SharedMemory => 4,
            FrameFault::SeekMode => 5,
        }
    }
}

/// Why a decoder gives no frames, or no more than these.
#[derive(Debug, Drop, Error)]
pub enum FrameError {
    /// A descriptor breaks a rule; these frames came before it.
    #[error("{fault} at byte {at}")]
    Fault {
        frames: Frames,
        fault: FrameFault,
        /// The offset in the connection's bytes of the word that breaks the rule.
        at: u64,
    },
    /// An earlier feed answered this fault.
    #[error("failed before: {fault} at byte {at}")]
    Failed {
        fault: FrameFault,
        at: u64,
    },
    /// There was no memory.
    #[error("out of memory")]
    NoMemory,
}

impl From<NoMemory> for FrameError {
    ghost use Rattle.std.specs.Prelude.{◌≡◌};
    ghost use Rattle.px_frame.specs.declared.fault.FrameError.TheVariants.{NoMemory as no_memory};

    ghost from_gives = { λ _ e. e ≡ no_memory };

    fn from(_refused: NoMemory) -> FrameError {
        FrameError::NoMemory
    }
}
