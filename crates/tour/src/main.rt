// The tour: a few plan pages, posting lists built of them, and questions. It shows which pages a search finds, and for every other page
// of the list the rule by which it was not kept. It reads nothing.
#![tactic(auto)]

mod pages;
mod story;
mod text;

use pages::{Documents, Term};
use std::io;
use story::Question;

// The searches to tell.
const SEARCHES: [Question; 4] = [
    Question {
        bay: Term::Bay4,
        first: 0,
        last: 8,
        block_size: 3,
        factor: 0.75,
    },
    Question {
        bay: Term::Bay4,
        first: 0,
        last: 8,
        block_size: 3,
        factor: 0.0,
    },
    Question {
        bay: Term::Bay6,
        first: 9,
        last: 10,
        block_size: 3,
        factor: 0.75,
    },
    Question {
        bay: Term::Bay6,
        first: 9,
        last: 10,
        block_size: 2,
        factor: 0.75,
    },
];

// The searches told, each question before the first search of its bay.
fn tell_all(rt: &impl Print, documents: &Documents) -> io::Result<()> {
    let mut before = None;
    for question in SEARCHES {
        let bay = question.bay;
        if before != Some(bay) {
            println!(rt; "\nQuestion: what is planned in {bay}?   weights: {bay} 1, planned 2")?;
        }
        story::tell(rt, question, documents)?;
        before = Some(bay);
    }
    Ok(())
}

// The pages that name a bay.
fn say_naming(rt: &impl Print, bay: Term) -> io::Result<()> {
    for page in 0..pages::PAGE_COUNT as u64 {
        if pages::has(page, bay) {
            print!(rt; "{page} ")?;
        }
    }
    Ok(())
}

fn main(rt: HostRuntime) -> io::Result<()> {
    print!(rt; "Eleven plan pages: ")?;
    say_naming(&rt, Term::Bay4)?;
    print!(rt; "name bay 4, ")?;
    say_naming(&rt, Term::Bay6)?;
    println!(rt;
        "name bay 6. Terms that matter here: bay 4, bay 6, planned.\n\
        A page's score is the sum of its terms' values times the question's weights. The two best pages are kept.\n\
        A list is built in blocks of so many pages; a block's summary keeps the 3 greatest terms of its pages."
    )?;
    tell_all(&rt, &pages::as_documents())
}
