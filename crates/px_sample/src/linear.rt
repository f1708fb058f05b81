use crate::coding::{ReadSample, WriteSample};

pub struct U8;

pub struct S16Le;

pub struct S16Be;

pub struct S24Le;

pub struct S24Be;

pub struct S24In32Le;

pub struct S24In32Be;

pub struct S32Le;

pub struct S32Be;

impl ReadSample<1> for U8 {
    ghost use Rattle.px_sample.specs.declared.format.Format.TheVariants.{U8 as the_format};

    ghost format = { the_format };

    fn read(sample: &[u8; 1]) -> i32 {
        i32::from(sample[0]) - 128
    }
}

impl WriteSample<1> for U8 {
    ghost use Rattle.px_sample.specs.declared.format.Format.TheVariants.{U8 as the_format};

    ghost format = { the_format };

    fn write(value: i32) -> [u8; 1] {
        [(value + 128) as u8]
    }
}

impl ReadSample<2> for S16Le {
    ghost use Rattle.px_sample.specs.declared.format.Format.TheVariants.{S16Le as the_format};

    ghost format = { the_format };

    fn read(sample: &[u8; 2]) -> i32 {
        i32::from(i16::from_le_bytes(*sample))
    }
}

impl WriteSample<2> for S16Le {
    ghost use Rattle.px_sample.specs.declared.format.Format.TheVariants.{S16Le as the_format};

    ghost format = { the_format };

    fn write(value: i32) -> [u8; 2] {
        (value as i16).to_le_bytes()
    }
}

impl ReadSample<2> for S16Be {
    ghost use Rattle.px_sample.specs.declared.format.Format.TheVariants.{S16Be as the_format};

    ghost format = { the_format };

    fn read(sample: &[u8; 2]) -> i32 {
        i32::from(i16::from_be_bytes(*sample))
    }
}

impl WriteSample<2> for S16Be {
    ghost use Rattle.px_sample.specs.declared.format.Format.TheVariants.{S16Be as the_format};

    ghost format = { the_format };

    fn write(value: i32) -> [u8; 2] {
        (value as i16).to_be_bytes()
    }
}

impl ReadSample<3> for S24Le {
    ghost use Rattle.px_sample.specs.declared.format.Format.TheVariants.{S24Le as the_format};

    ghost format = { the_format };

    fn read(sample: &[u8; 3]) -> i32 {
        i32::from_le_bytes([0, sample[0], sample[1], sample[2]])
    }
}

impl WriteSample<3> for S24Le {
    ghost use Rattle.px_sample.specs.declared.format.Format.TheVariants.{S24Le as the_format};

    ghost format = { the_format };

    fn write(value: i32) -> [u8; 3] {
        let [_, low, middle, high] = value.to_le_bytes();
        [low, middle, high]
    }
}

impl ReadSample<3> for S24Be {
    ghost use Rattle.px_sample.specs.declared.format.Format.TheVariants.{S24Be as the_format};

    ghost format = { the_format };

    fn read(sample: &[u8; 3]) -> i32 {
        i32::from_be_bytes([sample[0], sample[1], sample[2], 0])
    }
}

impl WriteSample<3> for S24Be {
    ghost use Rattle.px_sample.specs.declared.format.Format.TheVariants.{S24Be as the_format};

    ghost format = { the_format };

    fn write(value: i32) -> [u8; 3] {
        let [high, middle, low, _] = value.to_be_bytes();
        [high, middle, low]
    }
}

impl ReadSample<4> for S24In32Le {
    ghost use Rattle.px_sample.specs.declared.format.Format.TheVariants.{S24In32Le as the_format};

    ghost format = { the_format };

    fn read(sample: &[u8; 4]) -> i32 {
        i32::from_le_bytes(*sample) << 8
    }
}

impl WriteSample<4> for S24In32Le {
    ghost use Rattle.px_sample.specs.declared.format.Format.TheVariants.{S24In32Le as the_format};

    ghost format = { the_format };

    fn write(value: i32) -> [u8; 4] {
        let [_, low, middle, high] = value.to_le_bytes();
        [low, middle, high, 0]
    }
}

impl ReadSample<4> for S24In32Be {
    ghost use Rattle.px_sample.specs.declared.format.Format.TheVariants.{S24In32Be as the_format};

    ghost format = { the_format };

    fn read(sample: &[u8; 4]) -> i32 {
        i32::from_be_bytes(*sample) << 8
    }
}

impl WriteSample<4> for S24In32Be {
    ghost use Rattle.px_sample.specs.declared.format.Format.TheVariants.{S24In32Be as the_format};

    ghost format = { the_format };

    fn write(value: i32) -> [u8; 4] {
        let [high, middle, low, _] = value.to_be_bytes();
        [0, high, middle, low]
    }
}

impl ReadSample<4> for S32Le {
    ghost use Rattle.px_sample.specs.declared.format.Format.TheVariants.{S32Le as the_format};

    ghost format = { the_format };

    fn read(sample: &[u8; 4]) -> i32 {
        i32::from_le_bytes(*sample)
    }
}

impl WriteSample<4> for S32Le {
    ghost use Rattle.px_sample.specs.declared.format.Format.TheVariants.{S32Le as the_format};

    ghost format = { the_format };

    fn write(value: i32) -> [u8; 4] {
        value.to_le_bytes()
    }
}

impl ReadSample<4> for S32Be {
    ghost use Rattle.px_sample.specs.declared.format.Format.TheVariants.{S32Be as the_format};

    ghost format = { the_format };

    fn read(sample: &[u8; 4]) -> i32 {
        i32::from_be_bytes(*sample)
    }
}

impl WriteSample<4> for S32Be {
    ghost use Rattle.px_sample.specs.declared.format.Format.TheVariants.{S32Be as the_format};

    ghost format = { the_format };

    fn write(value: i32) -> [u8; 4] {
        value.to_be_bytes()
    }
}
