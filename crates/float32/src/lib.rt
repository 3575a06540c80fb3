// Single floats as document 01 and IEEE 754-2019 have them: the total order and a key for it, the bound on values, a value's byte, a part
// of a length.
#![tactic(auto)]

ghost use Rattle.std.specs.Prelude.{◌≡◌, pos};
ghost use Rattle.std.specs.Float.{binary32};
ghost use Rattle.std.specs.Float.Ieee.{of_int, to_unsigned, lt};
ghost use Rattle.sequences.specs.Lists.{every};
ghost use Rattle.float32.specs.Order.{at_most};
ghost use Rattle.float32.specs.Key.{key_of, value_of};
ghost use Rattle.float32.specs.Bound.{in_bound};
ghost use Rattle.float32.specs.Fitting.{Fitting};
ghost use Rattle.float32.specs.Rounding.{byte_of};
ghost use Rattle.float32.specs.Count.{scaled_length};
ghost use Rattle.float32.specs.Lengths.{without_end};

// A number whose rising order is the total order: -0 stands just below +0, and every NaN at the top.
pub fn key(x: f32) -> u32
    ensures { result ≡ key_of x }
{
    if x != x {
        return 0xffff_ffff;
    }
    let bits = f32::to_bits(x);
    if bits >= 0x8000_0000 {
        0x7fff_ffff - (bits - 0x8000_0000)
    } else {
        0x8000_0000 + bits
    }
}

// The value whose key k is; a NaN where k is the key of none.
pub fn value_of_key(k: u32) -> f32
    ensures { result ≡ value_of k }
{
    // the keys of -infinity and +infinity are the first and the last of numbers
    if k < 0x007f_ffff {
        return 0.0 / 0.0;
    }
    if k > 0xff80_0000 {
        return 0.0 / 0.0;
    }
    if k >= 0x8000_0000 {
        f32::from_bits(k - 0x8000_0000)
    } else {
        f32::from_bits(0xffff_ffff - k)
    }
}

// Whether a stands at b or before it in IEEE 754's total order, a NaN above all else. Compared by hand, since by `<=` of floats the two zeros
// are equal and a NaN stands beside no number.
pub fn at_most(a: f32, b: f32) -> bool
    ensures { result ≡ at_most a b }
{
    key(a) <= key(b)
}

// Whether each value is below x. That the values are values of the format is said for whoever relies on it. The loop leaves at no value, so
// that the compiler can take several at once.
pub fn all_below(values: &[f32], x: f32) -> bool
    ensures answer { result ≡ every (λ y. lt y x) values.now }
    ensures fits { Fitting x values.now }
{
    let mut ok = true;
    for &value in values {
        ok &= value < x;
    }
    ok
}

// Whether x is finite and at most 2^32 in magnitude: neither a NaN nor an infinity is.
pub fn in_bound(x: f32) -> bool
    ensures { result ≡ in_bound x }
{
    (x >= -4294967296.0) & (x <= 4294967296.0)
}

// x without its fraction, as a u64: 0 for a NaN or a negative number, the last u64 from 2^64 on.
fn whole_part(x: f32) -> u64
    ensures { result ≡ to_unsigned 64 x }
{
    if x > -1.0 {
        if x < 18446744073709551616.0 {
            return std::num::truncating_f32_to_u64(x);
        }
        return 0xffff_ffff_ffff_ffff;
    }
    0
}

// The nearest whole number, a tie away from zero, cut to a byte: below 0 to 0, above 255 to 255, a NaN to 0.
pub fn to_byte(q: f32) -> u8
    ensures { result ≡ byte_of q }
{
    let whole = whole_part(q);
    if whole >= 255 {
        return 255;
    }
    // the point half way to the next whole number is exact, and so is the comparison with it
    let half_way = (whole as f32) + 0.5;
    (whole + (half_way <= q) as u64) as u8
}

// n without its last 16 digits; where one of them is set, the last digit that stays is set too.
fn without_end(n: u64) -> u64
    ensures { result ≡ without_end n }
{
    if n % 65536 == 0 {
        return n / 65536;
    }
    n / 131072 * 2 + 1
}

// The f32 nearest to n. Each half of 48 digits is a float exactly, so only the sum rounds; of a longer number
// the last digits count only by whether one of them is set.
fn nearest(n: u64) -> f32
    ensures { result ≡ of_int binary32 (pos n) }
{
    if n < 0x1_0000_0000_0000 {
        return ((n / 16777216) as f32) * 16777216.0 + ((n % 16777216) as f32);
    }
    let kept = without_end(n);
    ((kept / 16777216) as f32) * 1099511627776.0 + ((kept % 16777216) as f32) * 65536.0
}

// fraction x length as one f32 product, cut to a whole number: 0 for a NaN or a negative product, the last u64 from 2^64 on.
pub fn scaled_length(fraction: f32, length: u64) -> u64
    ensures { result ≡ scaled_length fraction length }
{
    whole_part(fraction * nearest(length))
}
