// The laws of the definitions.

ghost use Rattle.std.specs.Prelude.{◌≡◌, ◌+◌, List, [], ◌∷◌, ◌++◌, length, ℕ, Some};
ghost use Rattle.px_frame.specs.declared.descriptor.Descriptor.{Descriptor};
ghost use Rattle.px_frame.specs.declared.fault.FrameFault.{FrameFault};
ghost use Rattle.px_frame.specs.declared.frame.Body.{Body};
ghost use Rattle.px_frame.specs.declared.frame.Frame.{Frame};
ghost use Rattle.px_frame.specs.Descriptor.{AreBytes, descriptor_bytes, HasWords, broken_rule};
ghost use Rattle.px_frame.specs.Frame.{IsBody, offset_at};
ghost use Rattle.px_frame.specs.Meaning.{frames_in, ending_in};
ghost use Rattle.px_frame.specs.Reading.{HasOneReading, IsRead, Ending, Unfinished, Broken};
ghost use Rattle.px_frame.specs.Spelling.{spelling_of, HasNumbers, AreWhole};

/// Each list of bytes has one list of frames and one ending: it is whole frames and then less than a frame, or whole frames and then a
/// descriptor that breaks a rule, and never both or neither.
pub fn one_reading()
    ensures { (bytes : List ℕ) → AreBytes bytes → HasOneReading bytes }
{}

/// Reading a list of bytes frame by frame from its front gives that one reading. This holds of any list of numbers, also where one is no
/// byte.
pub fn reading_from_the_front()
    ensures found { (bytes : List ℕ) → AreBytes bytes → IsRead bytes (frames_in bytes) (ending_in bytes) }
    ensures only { (bytes : List ℕ) (frames : List Frame) (ending : Ending) → IsRead bytes frames ending
        → (frames ≡ frames_in bytes) × (ending ≡ ending_in bytes) }
{}

/// One frame more, in its spelling, after bytes that are whole frames adds just that frame, at its offset. A descriptor there that breaks a rule adds
/// none: it is how the bytes end.
pub fn frames_add_up()
    ensures none { AreWhole [] [] }
    ensures one_more { (bytes : List ℕ) (frames : List Frame) (body : Body) → AreWhole bytes frames → IsBody body → HasNumbers body
        → AreWhole (bytes ++ spelling_of body) (frames ++ record { at = offset_at (length bytes + 20); body = body } ∷ []) }
    ensures read { (bytes : List ℕ) (frames : List Frame) → AreWhole bytes frames → IsRead bytes frames Unfinished }
    ensures broken { (bytes : List ℕ) (frames : List Frame) (d : Descriptor) (fault : FrameFault) (place : ℕ) → AreWhole bytes frames
        → HasWords d → broken_rule d ≡ Some (fault, place)
        → IsRead (bytes ++ descriptor_bytes d) frames (Broken fault (offset_at (length bytes + place))) }
{}
