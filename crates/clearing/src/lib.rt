// Lent buffers set to zero: what a refused call leaves, and what every call leaves in its scratch.
#![tactic(auto)]

ghost use Rattle.std.specs.Prelude.{◌≡◌, length, replicate, false, pos};
ghost use Rattle.std.specs.Float.{fin};

// A kind of number that has a zero.
pub trait Zero: Copy {
    ghost ZERO: { Self };

    const ZERO: Self;
}

impl Zero for u64 {
    ghost ZERO = { 0 };

    const ZERO: u64 = 0;
}

impl Zero for u32 {
    ghost ZERO = { 0 };

    const ZERO: u32 = 0;
}

impl Zero for u16 {
    ghost ZERO = { 0 };

    const ZERO: u16 = 0;
}

impl Zero for u8 {
    ghost ZERO = { 0 };

    const ZERO: u8 = 0;
}

// That of floats is +0.
impl Zero for f32 {
    ghost ZERO = { fin false 0 (pos 0) };

    const ZERO: f32 = 0.0;
}

// Sets each number to zero.
pub fn clear<T: Zero>(numbers: &mut [T])
    ensures { numbers.new ≡ replicate (length numbers.old) T.ZERO }
{
    for number in numbers {
        *number = T::ZERO;
    }
}
