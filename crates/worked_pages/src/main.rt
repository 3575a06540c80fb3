// Document 01's worked pages, run through the proved functions, one line for each: those that are proved as one table in
// crates/worked_cases/specs/Laws/Pages.antt, and then those that are only to be run. A line is printed by a function, since it tells of several
// values.
#![tactic(auto)]

use documents::Terms;
use kept_list::Scored;
use number_types::RangeStart;
use packing::PackedPosting;
use refusal::Refusal;
use search_probe::Answer;
use sparse_scores::summaries::Summaries;
use std::{fmt, io};

// A value that is a whole number.
fn whole(x: f32) -> u64 {
    float32::scaled_length(x, 1)
}

fn say_refusal(rt: &impl Print, reason: Refusal) -> io::Result<()> {
    println!(rt; "gives {}", reason.number())
}

fn pack(rt: &impl Print, asked: &str, start: RangeStart, end: u64) -> io::Result<()> {
    print!(rt; "pack {asked}: ")?;
    match PackedPosting::pack(start, end) {
        Ok(p) => println!(rt; "packs to {}", p.0),
        Err(reason) => say_refusal(rt, reason),
    }
}

fn block(rt: &impl Print, asked: &str, ids: u64, block_size: u64) -> io::Result<()> {
    print!(rt; "block {asked}: ")?;
    let mut offsets = [0u64; 8];
    match blocking::fixed_size_blocking(ids, block_size, &mut offsets) {
        Ok(n) => {
            print!(rt; "gives offsets")?;
            for offset in offsets.iter().take(n as usize) {
                print!(rt; " {offset}")?;
            }
            println!(rt; "")
        }
        Err(reason) => say_refusal(rt, reason),
    }
}

fn quantize<const N: usize>(rt: &impl Print, asked: &str, values: &[f32; N]) -> io::Result<()> {
    print!(rt; "quantize {asked}: ")?;
    let mut codes = [0u8; N];
    match quantizing::quantize(values, &mut codes) {
        Ok(scale) => {
            print!(rt; "step {}, codes", whole(scale.step))?;
            for code in &codes {
                print!(rt; " {code}")?;
            }
            print!(rt; ", read back")?;
            for code in &codes {
                print!(rt;
                    " {}",
                    whole(quantizing::read_back(scale.least, scale.step, *code))
                )?;
            }
            println!(rt; "")
        }
        Err(reason) => say_refusal(rt, reason),
    }
}

// An entry of a kept list: the packed range and its score.
#[derive(Clone, Copy)]
struct Kept(u64, f32);

impl fmt::Display for Kept {
    fn fmt<W: fmt::Write>(&self, f: &mut fmt::Formatter<W>) -> fmt::Result {
        let start = PackedPosting(self.0).unpack().start.0;
        write!(f, "{} at {start}", whole(self.1))
    }
}

// Pushes scores, each at a start, onto a kept list of at most two.
fn push_four(rt: &impl Print) -> io::Result<()> {
    let mut length: u64 = 0;
    let mut packed = [0u64; 2];
    let mut scores = [0.0f32; 2];
    for (score, start) in [(5.0, 10), (3.0, 0), (3.0, 20), (4.0, 30)] {
        if let Ok(p) = PackedPosting::pack(RangeStart(start), start) {
            let e = Scored::new(p.0, score);
            if let Err(reason) = kept_push::push(2, &mut length, &mut packed, &mut scores, e) {
                say_refusal(rt, reason)?;
            }
        }
    }
    let first = Kept(packed[0], scores[0]);
    let second = Kept(packed[1], scores[1]);
    println!(rt; "push, k = 2: 5 at 10, 3 at 0, 3 at 20, 4 at 30: keeps {first}, {second}")
}

fn say_block(rt: &impl Print, score: f32, mark: u8) -> io::Result<()> {
    let turn = if mark == 1 { "evaluated" } else { "skipped" };
    print!(rt; " score {} is {turn},", whole(score))
}

// A full list whose worst score is 10, and two blocks with one page each, whose scores are 5 and 4.
fn search_two_blocks(rt: &impl Print) -> io::Result<()> {
    let components = [1u32, 1u32];
    let values = [1.0f32, 3.0f32];
    let postings = [0x1u64, 0x10001u64];
    let mut length: u64 = 1;
    let mut packed = [7u64; 1];
    let mut scores = [10.0f32; 1];
    let mut visits = [0u8; 3];
    let mut dots = [0.0f32; 2];
    let answer = search::search(
        Terms::new(&[1], &[1.0]),
        1,
        0.5,
        Terms::new(&components, &values),
        &postings,
        &[0u64, 1u64, 2u64],
        Summaries::new(
            &[1u32],
            &[0u64, 2u64],
            &[0u16, 1u16],
            &[5u8, 4u8],
            &[0.0f32, 0.0f32],
            &[1.0f32, 1.0f32],
        ),
        &mut length,
        &mut packed,
        &mut scores,
        &mut visits,
        &mut dots,
    );
    print!(rt; "search, full list, worst 10, factor 0.5:")?;
    say_block(rt, dots[0], visits[0])?;
    say_block(rt, dots[1], visits[1])?;
    if let Answer::Found {
        evaluated,
        skipped,
        ..
    } = answer
    {
        print!(rt; " in all {evaluated} evaluated and {skipped} skipped")?;
    }
    println!(rt; "")
}

fn pack_all(rt: &impl Print) -> io::Result<()> {
    for (asked, start, end) in [
        ("3..7", RangeStart(3), 7),
        (
            "start 2^48-1, length 0",
            RangeStart(0xffff_ffff_ffff),
            0xffff_ffff_ffff,
        ),
        (
            "start 2^48",
            RangeStart(0x1_0000_0000_0000),
            0x1_0000_0000_0000,
        ),
        ("length 65535", RangeStart(0), 65535),
        ("length 65536", RangeStart(0), 65536),
    ] {
        pack(rt, asked, start, end)?;
    }
    Ok(())
}

fn block_all(rt: &impl Print) -> io::Result<()> {
    for (asked, ids, block_size) in [
        ("10 by 3", 10, 3),
        ("2 by 3", 2, 3),
        ("0 by 3", 0, 3),
        ("size 0", 10, 0),
    ] {
        block(rt, asked, ids, block_size)?;
    }
    Ok(())
}

fn quantize_all(rt: &impl Print) -> io::Result<()> {
    quantize(rt, "0, 100, 255", &[0.0, 100.0, 255.0])?;
    quantize(rt, "0, 0.5, 255", &[0.0, 0.5, 255.0])?;
    quantize(rt, "5, 5", &[5.0, 5.0])?;
    // 2^-149: its key is the next one after that of +0
    let least_above_zero = float32::value_of_key(0x8000_0001);
    quantize(rt, "0, 2^-149", &[0.0, least_above_zero])
}

fn main(rt: HostRuntime) -> io::Result<()> {
    println!(rt; "Proved as one table:")?;
    pack_all(&rt)?;
    block_all(&rt)?;
    quantize_all(&rt)?;
    push_four(&rt)?;
    println!(rt; "Run:")?;
    quantize(&rt, "1, 2, 511", &[1.0, 2.0, 511.0])?;
    search_two_blocks(&rt)
}
