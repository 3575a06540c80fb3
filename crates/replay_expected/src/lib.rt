// Buffers held against the numbers that are expected in front of them, with one number everywhere past these.
#![tactic(auto)]

ghost use Rattle.std.specs.Prelude.{◌≡◌, ℕ, map};
ghost use Rattle.float32.specs.Key.{key_of};
ghost use Rattle.replay_expected.specs.Held.{held};

// A kind of number that is held against words, each by the number that stands for it.
pub trait Numbered: Copy {
    ghost number: { Self → ℕ };

    fn number(self) -> u64
        ensures { result ≡ number self };
}

impl Numbered for u64 {
    ghost number = { λ n. n };

    fn number(self) -> u64 {
        self
    }
}

impl Numbered for u32 {
    ghost number = { λ n. n };

    fn number(self) -> u64 {
        self as u64
    }
}

impl Numbered for u16 {
    ghost number = { λ n. n };

    fn number(self) -> u64 {
        self as u64
    }
}

impl Numbered for u8 {
    ghost number = { λ n. n };

    fn number(self) -> u64 {
        self as u64
    }
}

// A float by its key, so that the two zeros differ.
impl Numbered for f32 {
    ghost number = { key_of };

    fn number(self) -> u64 {
        float32::key(self) as u64
    }
}

// Whether numbers are the expected ones, and past these nothing but one number.
pub fn same<N: Numbered>(numbers: &[N], expected: &[u32], rest: u32) -> bool
    ensures { result ≡ held (map N.number numbers.now) expected.now rest }
{
    let mut same = true;
    for (i, x) in numbers.iter().enumerate() {
        same = same & (x.number() == cells::at(expected, i, rest) as u64);
    }
    same & (expected.len() <= numbers.len())
}
