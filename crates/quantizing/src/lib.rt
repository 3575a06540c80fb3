// Quantizing: the values of a summary as one byte each, between their least and their greatest, and the values that the bytes stand for.
#![tactic(auto)]

ghost use Rattle.std.specs.Prelude.{◌≡◌, ◌++◌, map, ◌≤◌, length, drop};
ghost use Rattle.quantizing.specs.Quantizing.{extent_of, step_of, code_of, read_back, left, quantized, step_allowed};

use refusal::Refusal;

// What the codes of quantized values count by: the least value, and the step from one code to the next.
#[derive(Drop)]
pub struct Scale {
    pub least: f32,
    pub step: f32,
}

// The least and the greatest of some values by total order, where -0 is below +0 and a NaN above all.
#[derive(Drop)]
pub struct Extent {
    pub least: f32,
    pub greatest: f32,
}

// The least and the greatest of the values, in one pass; a NaN each where there is no value.
// It compares keys, so the bound on all values is the bound on these two. Its like over terms' keys stands in crate sparse_layout: one
// function over an iterator would ask of its callers that it ends, and these two ask nothing.
pub fn extent_of(values: &[f32]) -> Extent
    ensures { result ≡ extent_of values.now }
{
    let mut low = 0xffff_ffffu32;
    let mut high = 0u32;
    for value in values {
        let k = float32::key(*value);
        low = low.min(k);
        high = high.max(k);
    }
    Extent {
        least: float32::value_of_key(low),
        greatest: float32::value_of_key(high),
    }
}

// The 255th part of the way from the least to the greatest value.
pub fn step_of(least: f32, greatest: f32) -> f32
    ensures { result ≡ step_of least greatest }
{
    (greatest - least) / 255.0
}

// The byte of a value: how many steps it is above the least, to the nearest, 0 to 255.
pub fn code_of(least: f32, step: f32, value: f32) -> u8
    ensures { result ≡ code_of least step value }
{
    float32::to_byte((value - least) / step)
}

// The value that a byte stands for.
pub fn read_back(least: f32, step: f32, code: u8) -> f32
    ensures { result ≡ read_back least step code }
{
    (code as f32) * step + least
}

// Whether a list to be searched may store this step: finite, from 0 to 2^32; -0 is 0.
pub fn step_allowed(step: f32) -> bool
    ensures { result ≡ step_allowed step }
{
    float32::in_bound(step) & (step >= 0.0)
}

// The codes of the values, into the first places of `codes`.
fn encode(values: &[f32], least: f32, step: f32, codes: &mut [u8])
    requires { length values.now ≤ length codes.old }
    ensures { codes.new ≡ map (code_of least step) values.now ++ drop (length values.now) codes.old }
{
    for (i, value) in values.iter().enumerate() {
        codes[i] = code_of(least, step, *value);
    }
}

// Quantizes the values: their codes go into the first places of `codes`, which is lent, and past them nothing changes.
// Refuses no values (7), a value that is not finite or above 2^32 in magnitude (14), and codes that are fewer than the values (4),
// in this order; then nothing changes. Two passes over the values.
pub fn quantize(values: &[f32], codes: &mut [u8]) -> Result<Scale, Refusal>
    ensures { left result codes.new ≡ quantized values.now codes.old }
{
    if values.len() == 0 {
        return Err(Refusal::EmptySummary);
    }
    let e = extent_of(values);
    let least = e.least;
    let greatest = e.greatest;
    let ok = float32::in_bound(least) & float32::in_bound(greatest);
    if ok {
        if codes.len() < values.len() {
            return Err(Refusal::BufferTooShort);
        }
        let step = step_of(least, greatest);
        encode(values, least, step, codes);
        return Ok(Scale { least, step });
    }
    Err(Refusal::WrongTerms)
}
