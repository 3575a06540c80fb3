// A recorded case is a row of words: what kind it is, its settings, for each of its slices where that starts and where the last one
// ends, and the slices. Here the words are read as numbers of other kinds. A word that is not there is 0, a slice that is not there empty.
#![tactic(auto)]

ghost use Rattle.std.specs.Prelude.{◌≡◌, ℕ, ◌+◌, ◌≤◌, length, get_or};
ghost use Rattle.float32.specs.Key.{value_of};
ghost use Rattle.replay_words.specs.Words.{long, start_of, end_of, slice_at, spread, itself, low};

use std::ops::Range;

// The word at a place.
pub fn word(words: &[u32], at: usize) -> u32
    ensures { result ≡ get_or words.now at 0 }
{
    cells::at(words, at, 0)
}

// A number of two words, the upper one first.
pub fn long(words: &[u32], at: usize) -> u64
    ensures { result ≡ long words.now at }
{
    (word(words, at) as u64) * 0x1_0000_0000 + (word_after(words, at) as u64)
}

// The word behind a place.
fn word_after(words: &[u32], at: usize) -> u32
    ensures { result ≡ get_or words.now (at + 1) 0 }
{
    if at < words.len() {
        word(words, at + 1)
    } else {
        0
    }
}

// A float, which is recorded by its key.
pub fn float(words: &[u32], at: usize) -> f32
    ensures { result ≡ value_of (get_or words.now at 0) }
{
    float32::value_of_key(word(words, at))
}

// Where the slice starts and ends whose start stands at a place of the words and whose end stands behind it; at the front where it
// does not fit a length.
fn limits(words: &[u32], at: usize, length: usize) -> Range<usize>
    ensures start { result.start ≡ start_of (get_or words.now at 0) (get_or words.now (at + 1) 0) length }
    ensures end { result.end ≡ end_of (get_or words.now at 0) (get_or words.now (at + 1) 0) length }
    ensures ordered { result.start ≤ result.end }
    ensures within { result.end ≤ length }
{
    let from = word(words, at) as usize;
    let to = word_after(words, at) as usize;
    if from <= to && to <= length {
        from..to
    } else {
        0..0
    }
}

// The slice of numbers whose start stands at a place of the words, and whose end stands behind it.
pub fn slice_of<'a, N>(words: &[u32], at: usize, numbers: &'a [N]) -> &'a [N]
    ensures { result.now ≡ slice_at words.now at numbers.now }
{
    &numbers[limits(words, at, numbers.len())]
}

// The same of the words themselves.
pub fn words_of(words: &[u32], at: usize) -> &[u32]
    ensures { result.now ≡ slice_at words.now at words.now }
{
    slice_of(words, at, words)
}

// A kind of number that a word stands for.
pub trait FromWord: Copy {
    ghost from_word: { ℕ → Self };

    fn from_word(word: u32) -> Self
        ensures { result ≡ from_word word };
}

// The word itself.
impl FromWord for u64 {
    ghost from_word = { itself };

    fn from_word(word: u32) -> u64 {
        word as u64
    }
}

// The float whose key the word is.
impl FromWord for f32 {
    ghost from_word = { value_of };

    fn from_word(word: u32) -> f32 {
        float32::value_of_key(word)
    }
}

// The lower half of the word.
impl FromWord for u16 {
    ghost from_word = { low 65536 };

    fn from_word(word: u32) -> u16 {
        (word % 65536) as u16
    }
}

// The low byte of the word.
impl FromWord for u8 {
    ghost from_word = { low 256 };

    fn from_word(word: u32) -> u8 {
        (word % 256) as u8
    }
}

// The words as numbers of a kind, as many as there is room for.
pub fn fill<N: FromWord>(words: &[u32], numbers: &mut [N])
    ensures { numbers.new ≡ spread N.from_word (length numbers.old) words.now }
{
    for i in 0..numbers.len() {
        numbers[i] = N::from_word(word(words, i));
    }
}
