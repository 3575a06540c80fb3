// Replays a sample of the original's answers against the proved functions. The sample is the file `cases`; docs/DIFFERENCES.md says how
// it was made. A case is a row of words; the first one says of what kind it is, and 8 more than that that its answer is damaged: such a
// one must differ, so that a judge which always agrees is seen.
#![tactic(auto)]

mod builds;
mod record;

ghost use Rattle.std.specs.Prelude.{◌≡◌};
ghost use Rattle.replay.specs.Kinds.{agrees_by};

use std::fs::File;
use std::io;
use std::io::Read;

// Whether the proved function's answer is the recorded one.
// The kind stays a number, and no enum: cases are counted by it, and those of 0 and 7, which are no kinds, are counted too.
fn agrees(kind: u32, words: &[u32]) -> bool
    ensures { result ≡ agrees_by kind words.now }
{
    match kind {
        1 => replay_leaves::packs_agree(words),
        2 => replay_leaves::blocks_agree(words),
        3 => replay_leaves::quantizes_agree(words),
        4 => replay_leaves::pushes_agree(words),
        5 => replay_search::searches_agree(words),
        6 => builds::builds_agree(words),
        _ => false,
    }
}

// Replays one case; false where there is none left.
fn replay_one<R: Read>(from: &mut R, cases: &mut [u64; 8], wrong: &mut u64) -> io::Result<bool> {
    let mut words = [0u32; 1024];
    let count = record::next(from, &mut words)?;
    if count == 0 {
        return Ok(false);
    }
    let kind = words[0];
    let same = agrees(kind % 8, &words);
    let place = if kind < 8 { kind as usize } else { 0 };
    cases[place] = cases[place].wrapping_add(1);
    if same != (kind < 8) {
        *wrong = wrong.wrapping_add(1);
    }
    Ok(true)
}

// Writes what was replayed, kind by kind, and how many answers differ.
fn report(rt: &impl Print, cases: &[u64; 8], wrong: u64) -> io::Result<()> {
    let names = [
        "ranges packed",
        "lists cut into blocks",
        "summaries quantized",
        "entries pushed",
        "lists searched",
        "lists built",
    ];
    for (name, count) in names.iter().zip(&cases[1..]) {
        println!(rt; "{count} {name}")?;
    }
    println!(rt; "{} damaged answers", cases[0])?;
    println!(rt;
        "{wrong} judged wrong: an answer that differs from the original's, or a damaged one that does not"
    )
}

// Replays every case of the file.
fn replay_all<R: Read>(rt: &impl Print, from: &mut R) -> io::Result<()> {
    let mut cases = [0u64; 8];
    let mut wrong = 0u64;
    // a proved loop has to end, and nothing says that a file does: no run uses these turns up
    for _ in 0..u64::MAX {
        if !replay_one(from, &mut cases, &mut wrong)? {
            break;
        }
    }
    report(rt, &cases, wrong)
}

fn main(rt: HostRuntime) -> io::Result<()> {
    let mut file = File::open(&rt, "cases")?;
    replay_all(&rt, &mut file)
}
