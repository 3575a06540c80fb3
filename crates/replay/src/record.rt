// A case as it lies in the file: two bytes for the number of bytes that follow, and in these the words: a byte below 252 is the word
// itself, 252 stands before a word of two bytes and 253 before one of four, the low byte first.
ghost use Rattle.std.specs.Prelude.{◌<◌, ◌≤◌};

use std::io;
use std::io::{ErrorKind, Read};

// A byte of a record, and 0 past its end.
fn byte_at(bytes: &[u8; 4096], at: usize) -> u32
    ensures { result < 256 }
{
    if at < 4096 { bytes[at] as u32 } else { 0 }
}

// A word of a record, and in how many bytes it stands.
#[derive(Drop)]
struct Step {
    pub word: u32,
    pub size: usize,
}

// The word that starts at a place.
fn word_from(bytes: &[u8; 4096], at: usize) -> Step
    requires { at < 4096 }
    ensures some { 0 < result.size }
    ensures few { result.size ≤ 5 }
{
    let first = byte_at(bytes, at);
    if first < 252 {
        return Step {
            word: first,
            size: 1,
        };
    }
    let low = byte_at(bytes, at + 1) + 256 * byte_at(bytes, at + 2);
    if first == 252 {
        return Step { word: low, size: 3 };
    }
    let high = byte_at(bytes, at + 3) + 256 * byte_at(bytes, at + 4);
    Step {
        word: low + 65536 * high,
        size: 5,
    }
}

// The words of a record of n bytes, as many as there is room for; answers how many there are.
fn expand(n: usize, bytes: &[u8; 4096], words: &mut [u32]) -> usize
    requires { n ≤ 4096 }
{
    let mut at = 0;
    for (count, word) in words.iter_mut().enumerate() {
        if at >= n {
            return count;
        }
        let s = word_from(bytes, at);
        *word = s.word;
        at += s.size;
    }
    words.len()
}

// Reads so many bytes; false where there are fewer, or no room for them.
fn read<R: Read>(from: &mut R, n: usize, bytes: &mut [u8]) -> io::Result<bool> {
    if n <= bytes.len() {
        return match from.read_exact(&mut bytes[..n]) {
            Ok(()) => Ok(true),
            Err(e) => {
                if e.kind() == ErrorKind::UnexpectedEof {
                    Ok(false)
                } else {
                    Err(e)
                }
            }
        };
    }
    Ok(false)
}

// The words of the next case; none where the file ends.
pub(crate) fn next<R: Read>(from: &mut R, words: &mut [u32]) -> io::Result<usize> {
    let mut bytes = [0u8; 4096];
    if !read(from, 2, &mut bytes)? {
        return Ok(0);
    }
    let n = (byte_at(&bytes, 0) + 256 * byte_at(&bytes, 1)) as usize;
    if n > 4096 {
        return Ok(0);
    }
    if !read(from, n, &mut bytes)? {
        return Ok(0);
    }
    Ok(expand(n, &bytes, words))
}
