ghost use Rattle.std.specs.Prelude.{◌≡◌, ◌*◌, ◌/◌, ◌<◌, ◌≤◌, length, map, All};
ghost use Rattle.std.specs.Simd.{first_chunks};
ghost use Rattle.px_sample.specs.Format.{width_of};
ghost use Rattle.px_sample.specs.WorkValue.{work_value_of, packed_sample, packed_of, IsWithin};

/// A format whose samples have `SIZE` bytes and can be read.
pub trait ReadSample<const SIZE: usize> {
    ghost use Rattle.px_sample.specs.declared.format.Format.{Format};

    ghost format: { Format };

    fn read(sample: &[u8; SIZE]) -> i32
        ensures value { result ≡ work_value_of format sample.now }
        ensures within { IsWithin (width_of format) result };
}

/// A format whose samples have `SIZE` bytes and can be written.
pub trait WriteSample<const SIZE: usize> {
    ghost use Rattle.px_sample.specs.declared.format.Format.{Format};

    ghost format: { Format };

    fn write(value: i32) -> [u8; SIZE]
        requires { IsWithin (width_of format) value }
        ensures { result ≡ packed_sample format value };
}

/// Reads samples, and puts the work value of each into its place of `out`.
pub fn read_all<const SIZE: usize, C: ReadSample<SIZE>>(bytes: &[u8], out: &mut [i32])
    requires some { 0 < SIZE }
    requires few { SIZE ≤ 4 }
    requires lengths { length bytes.now ≡ SIZE * length out.old }
    ensures values { out.new ≡ map (work_value_of C.format) (first_chunks SIZE (length bytes.now / SIZE) bytes.now) }
    ensures within { All (IsWithin (width_of C.format)) out.new }
{
    let (samples, _) = bytes.as_chunks::<SIZE>();
    for (place, value) in out.iter_mut().enumerate() {
        *value = C::read(&samples[place]);
    }
}

/// Writes work values as samples, one after another.
pub fn write_all<const SIZE: usize, C: WriteSample<SIZE>>(values: &[i32], out: &mut [u8])
    requires few { SIZE ≤ 4 }
    requires within { All (IsWithin (width_of C.format)) values.now }
    requires lengths { length out.old ≡ SIZE * length values.now }
    ensures { out.new ≡ packed_of C.format values.now }
{
    for (place, value) in values.iter().enumerate() {
        let from = place * SIZE;
        out[from..from + SIZE].copy_from_slice(&C::write(*value));
    }
}
