// The device that plays the frames of a sink.
ghost use Rattle.std.specs.Prelude.{◌≡◌, ℕ, IfOk, OnErr};
ghost use Rattle.px_ends.specs.Device.{DeviceState, HoldsFrames, Plays, Fails, IsPut, put_at};

/// The numbers that a device is made with.
#[derive(Clone, Copy, Debug, PartialEq, Eq)]
pub struct DeviceShape {
    /// Bytes per frame, 1 to 128.
    pub frame: u32,
    /// Frames a second, 1 to 192,000.
    pub rate: u32,
    /// How many frames past the last consumed one can't be rewritten, at most `depth` (PulseAudio: `rewind_safeguard`).
    pub guard: u32,
    /// The most frames that wait in the buffer, 1 to 65,536.
    pub depth: u32,
}

/// A sync that failed.
#[derive(Clone, Copy, Debug, PartialEq, Eq)]
pub struct DeviceFault;

/// A device whose buffer holds exactly the frames from those consumed to those filled; contracts see its state before and after each call.
pub trait Device {
    /// All its numbers, and its bytes where they are visible.
    ghost now: { Self → DeviceState };

    /// Consumes some frames from the buffer's front, and answers how many were consumed since the start; where the next sync is visible,
    /// that decides how many. After an Err every later call fails too, each time as a fault that counts; a front of the buffer may have
    /// been played then.
    fn sync(&mut self) -> Result<u64, DeviceFault>
        ensures ok { IfOk result (λ consumed. Plays consumed (now self.old) (now self.new)) }
        ensures err { OnErr result (Fails (now self.old) (now self.new)) }
        ensures full { HoldsFrames (now self.old) × HoldsFrames (now self.new) };

    /// Replaces the buffer's frames from frame `at` on, counted from the first frame ever put, by `bytes`. Takes no memory: the room was
    /// taken when the device was made.
    fn put(&mut self, at: u64, bytes: &[u8])
        requires { IsPut (now self.old) at bytes.now }
        ensures state { now self.new ≡ put_at at bytes.now (now self.old) }
        ensures full { HoldsFrames (now self.old) × HoldsFrames (now self.new) };
}
