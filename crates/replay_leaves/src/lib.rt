// Packing, blocking, quantizing and pushing, as recorded. Which word of a case is which stands over each function.
#![tactic(auto)]

ghost use Rattle.std.specs.Prelude.{◌≡◌};
ghost use Rattle.replay_leaves.specs.Case.{is_packed, is_written, is_summary, packs_agree, blocks_agree, quantizes_agree, pushes_agree};

use kept_list::Scored;
use number_types::RangeStart;
use packing::PackedPosting;
use quantizing::Scale;
use refusal::Refusal;
use replay_words::{float, long, word, words_of};

// Whether a range was packed, and into this number.
fn is_packed(answer: Result<PackedPosting, Refusal>, number: u64) -> bool
    ensures { result ≡ is_packed answer number }
{
    answer.is_ok_and(|p| p.0 == number)
}

// Whether offsets were written, and so many.
fn is_written(answer: Result<u64, Refusal>, count: u64) -> bool
    ensures { result ≡ is_written answer count }
{
    answer.is_ok_and(|n| n == count)
}

// Whether values were quantized, with the least value and the step of these keys.
fn is_summary(answer: Result<Scale, Refusal>, least_key: u32, step_key: u32) -> bool
    ensures { result ≡ is_summary answer least_key step_key }
{
    answer.is_ok_and(|scale| {
        (float32::key(scale.least) == least_key) & (float32::key(scale.step) == step_key)
    })
}

// Whether a range is packed as recorded. 1, 2: start; 3, 4: end; 5, 6: the packed number.
pub fn packs_agree(w: &[u32]) -> bool
    ensures { result ≡ packs_agree w.now }
{
    let answer = PackedPosting::pack(RangeStart(long(w, 1)), long(w, 3));
    is_packed(answer, long(w, 5))
}

// Whether a list is cut into blocks as recorded, and nothing is written past the offsets. 1: ids; 2: block size; 3, 4: where the
// offsets start and end.
pub fn blocks_agree(w: &[u32]) -> bool
    ensures { result ≡ blocks_agree w.now }
{
    let mut offsets = [7u64; 256];
    let answer = blocking::fixed_size_blocking(word(w, 1) as u64, word(w, 2) as u64, &mut offsets);
    let wanted = words_of(w, 3);
    is_written(answer, wanted.len() as u64) & replay_expected::same(&offsets, wanted, 7)
}

// Whether values are quantized as recorded, and nothing is written past the codes. 1: least; 2: step; 3, 4, 5: where the values and the
// codes start and end.
pub fn quantizes_agree(w: &[u32]) -> bool
    ensures { result ≡ quantizes_agree w.now }
{
    let mut floats = [0.0f32; 1024];
    replay_words::fill(w, &mut floats);
    let mut codes = [9u8; 64];
    let answer = quantizing::quantize(replay_words::slice_of(w, 3, &floats), &mut codes);
    is_summary(answer, word(w, 1), word(w, 2)) & replay_expected::same(&codes, words_of(w, 4), 9)
}

// Whether an entry is pushed as recorded, onto a list in buffers of eight places. 1: k; 2: length; 3: the new packed number; 4: the new
// score; 5: the length afterwards; from 6 on where the slices start: packed numbers, scores, and both afterwards.
pub fn pushes_agree(w: &[u32]) -> bool
    ensures { result ≡ pushes_agree w.now }
{
    let mut packed = [0u64; 8];
    let mut scores = [0.0f32; 8];
    replay_words::fill(words_of(w, 6), &mut packed);
    replay_words::fill(words_of(w, 7), &mut scores);
    let mut length = word(w, 2) as u64;
    let e = Scored::new(word(w, 3) as u64, float(w, 4));
    let verdict = kept_push::push(word(w, 1) as u64, &mut length, &mut packed, &mut scores, e);
    (refusal::verdict_number(verdict) == 0)
        & (length == word(w, 5) as u64)
        & replay_expected::same(&packed, words_of(w, 8), 0)
        & replay_expected::same(&scores, words_of(w, 9), 0xffff_ffff)
}
