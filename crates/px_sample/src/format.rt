ghost use Rattle.std.specs.Prelude.{◌≡◌, ◌≤◌, ◌↔◌, IsSome, IfSome, IsTrue};
ghost use Rattle.px_sample.specs.Format.{code_of, size_of, width_of, IsWhole, IsLinear};
ghost use Rattle.px_sample.specs.Width.{bits_of};

/// The coding of a sample as bytes: the formats of `pa_sample_format_t` in PulseAudio's `pulse/sample.h`, in the order of their codes, 0 to
/// 12. `Le` has the least significant byte first, `Be` the most significant. `Alaw` and `Ulaw` are those of ITU-T G.711. `S24In32Le` and
/// `S24In32Be` have 24 bits in the lower three bytes of four.
#[derive(Clone, Copy, Debug, PartialEq, Eq, Drop)]
pub enum Format {
    U8,
    Alaw,
    Ulaw,
    S16Le,
    S16Be,
    Float32Le,
    Float32Be,
    S32Le,
    S32Be,
    S24Le,
    S24Be,
    S24In32Le,
    S24In32Be,
}

/// The width of work values, in bits with the sign.
#[derive(Clone, Copy, Debug, PartialEq, Eq, Drop)]
pub enum Width {
    W8,
    W16,
    W32,
}

impl Format {
    /// The format with this code of `pulse/sample.h`. `None` exactly where it is above 12. Takes no
    /// memory.
    pub fn from_code(code: u8) -> Option<Self>
        ensures known { IsSome result ↔ (code ≤ 12) }
        ensures value { IfSome result (λ format. code_of format ≡ code) }
    {
        match code {
            0 => Some(Format::U8),
            1 => Some(Format::Alaw),
            2 => Some(Format::Ulaw),
            3 => Some(Format::S16Le),
            4 => Some(Format::S16Be),
            5 => Some(Format::Float32Le),
            6 => Some(Format::Float32Be),
            7 => Some(Format::S32Le),
            8 => Some(Format::S32Be),
            9 => Some(Format::S24Le),
            10 => Some(Format::S24Be),
            11 => Some(Format::S24In32Le),
            12 => Some(Format::S24In32Be),
            _ => None,
        }
    }

    /// The code of `pulse/sample.h`, from 0 to 12. Takes no memory.
    pub fn code(self) -> u8
        ensures { result ≡ code_of self }
    {
        self as u8
    }

    /// Bytes per sample: 1, 2, 3 or 4. Takes no memory.
    pub fn size(self) -> usize
        ensures { result ≡ size_of self }
    {
        match self {
            Format::U8 | Format::Alaw | Format::Ulaw => 1,
            Format::S16Le | Format::S16Be => 2,
            Format::S24Le | Format::S24Be => 3,
            Format::Float32Le
            | Format::Float32Be
            | Format::S32Le
            | Format::S32Be
            | Format::S24In32Le
            | Format::S24In32Be => 4,
        }
    }

    /// The width of its work values: 8 bits for `U8`, 16 for `S16` and G.711, else 32. Takes no memory. (Own: PulseAudio mixes at the
    /// sink's format.)
    pub fn width(self) -> Width
        ensures { result ≡ width_of self }
    {
        match self {
            Format::U8 => Width::W8,
            Format::Alaw | Format::Ulaw | Format::S16Le | Format::S16Be => Width::W16,
            Format::Float32Le
            | Format::Float32Be
            | Format::S32Le
            | Format::S32Be
            | Format::S24Le
            | Format::S24Be
            | Format::S24In32Le
            | Format::S24In32Be => Width::W32,
        }
    }

    /// Whether samples are whole numbers, so that they can be read. Takes no memory.
    pub fn is_whole(self) -> bool
        ensures { IsTrue result ↔ IsWhole self }
    {
        !matches!(self, Format::Float32Le | Format::Float32Be)
    }

    /// Whether samples are whole numbers in even steps, so that they can be read and written. Takes
    /// no memory.
    pub fn is_linear(self) -> bool
        ensures { IsTrue result ↔ IsLinear self }
    {
        self.is_whole() && !matches!(self, Format::Alaw | Format::Ulaw)
    }
}

impl Width {
    /// The bits of a work value, its sign among them: 8, 16 or 32. Takes no memory.
    pub fn bits(self) -> u32
        ensures { result ≡ bits_of self }
    {
        match self {
            Width::W8 => 8,
            Width::W16 => 16,
            Width::W32 => 32,
        }
    }
}
