ghost use Rattle.std.specs.Prelude.{◌≡◌, ◌≢◌, ◌*◌, ◌<◌, ℕ, List, length, All, flat_map};
ghost use Rattle.px_sample.specs.declared.format.Format.{Format};
ghost use Rattle.px_sample.specs.declared.format.Format.TheVariants.{S24In32Le, S24In32Be};
ghost use Rattle.px_sample.specs.Format.{size_of, IsLinear};
ghost use Rattle.px_sample.specs.WorkValue.{work_values_of, packed_of, samples_of, cleared_of};

/// A law: packing what was unpacked gives the bytes back, with the upper byte of `S24In32` cleared. It
/// does nothing.
pub fn packing_gives_back()
    ensures cleared { (format : Format) (bytes : List ℕ) → IsLinear format → All (λ b. b < 256) bytes →
        packed_of format (work_values_of format bytes) ≡ flat_map (cleared_of format) (samples_of format bytes) }
    ensures same { (format : Format) (bytes : List ℕ) (count : ℕ) → IsLinear format → All (λ b. b < 256) bytes →
        length bytes ≡ size_of format * count → format ≢ S24In32Le → format ≢ S24In32Be →
        packed_of format (work_values_of format bytes) ≡ bytes }
{}
