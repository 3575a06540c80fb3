// The plan pages, and what follows from their terms.

use std::fmt;

// The terms that a question or a state names, in the order of a page's values; behind them come beam, panel and stairs.
#[derive(Clone, Copy, PartialEq, Eq)]
pub(crate) enum Term {
    Bay4,
    Bay6,
    Planned,
    InProgress,
    Completed,
}

impl fmt::Display for Term {
    fn fmt<W: fmt::Write>(&self, f: &mut fmt::Formatter<W>) -> fmt::Result {
        f.pad(match self {
            Term::Bay4 => "bay 4",
            Term::Bay6 => "bay 6",
            Term::Planned => "planned",
            Term::InProgress => "in progress",
            Term::Completed => "completed",
        })
    }
}

// What a page says of its bay; blank where that is nothing.
#[derive(Clone, Copy)]
pub(crate) struct State(Option<Term>);

impl fmt::Display for State {
    fn fmt<W: fmt::Write>(&self, f: &mut fmt::Formatter<W>) -> fmt::Result {
        match self.0 {
            Some(term) => fmt::Display::fmt(&term, f),
            None => f.pad("blank"),
        }
    }
}

pub(crate) const TERMS: usize = 8;

pub(crate) const PAGE_COUNT: usize = 11;

// The pages have so many terms in all.
pub(crate) const TERM_COUNT: usize = 27;

// Of each page the values of its terms, 0 where it has not the term:
// bay 4, bay 6, planned, in progress, completed, beam, panel, stairs.
const PAGES: [[f32; TERMS]; PAGE_COUNT] = [
    [3.0, 0.0, 0.0, 0.0, 4.0, 0.0, 0.0, 0.0],
    [2.0, 0.0, 2.0, 0.0, 0.0, 1.0, 0.0, 0.0],
    [4.0, 0.0, 0.0, 3.0, 0.0, 0.0, 0.0, 0.0],
    [1.0, 0.0, 3.0, 0.0, 0.0, 0.0, 0.0, 0.0],
    [0.0, 0.0, 0.0, 0.0, 0.0, 0.0, 0.0, 0.0],
    [1.0, 0.0, 0.0, 0.0, 5.0, 6.0, 0.0, 0.0],
    [1.0, 0.0, 4.0, 0.0, 0.0, 9.0, 8.0, 7.0],
    [1.0, 0.0, 0.0, 0.0, 2.0, 0.0, 0.0, 5.0],
    [2.0, 0.0, 0.0, 1.0, 0.0, 0.0, 3.0, 0.0],
    [0.0, 3.0, 2.0, 0.0, 0.0, 0.0, 0.0, 0.0],
    [0.0, 2.0, 0.0, 0.0, 2.0, 0.0, 0.0, 0.0],
];

// The pages as a search takes them: where the terms of each start, and of every term its component and its value.
#[derive(Drop)]
pub(crate) struct Documents {
    pub(crate) offsets: [u64; PAGE_COUNT + 1],
    pub(crate) components: [u32; TERM_COUNT],
    pub(crate) values: [f32; TERM_COUNT],
}

fn value(page: u64, term: Term) -> f32 {
    match PAGES.get(page as usize) {
        Some(row) => row[term as usize],
        None => 0.0,
    }
}

pub(crate) fn has(page: u64, term: Term) -> bool {
    value(page, term) > 0.0
}

pub(crate) fn state_of(page: u64) -> State {
    for term in [Term::Planned, Term::InProgress, Term::Completed] {
        if has(page, term) {
            return State(Some(term));
        }
    }
    State(None)
}

// The sum of a page's values times the weights of a question, what is planned in a bay: 1 for the bay, 2 for planned.
pub(crate) fn score(page: u64, bay: Term) -> f32 {
    value(page, bay) + 2.0 * value(page, Term::Planned)
}

pub(crate) fn as_documents() -> Documents {
    let mut offsets = [0u64; PAGE_COUNT + 1];
    let mut components = [0u32; TERM_COUNT];
    let mut values = [0.0f32; TERM_COUNT];
    let mut n = 0usize;
    for page in 0..PAGE_COUNT {
        for term in 0..TERMS {
            let x = PAGES[page][term];
            if x > 0.0 && n < TERM_COUNT {
                components[n] = term as u32;
                values[n] = x;
                n += 1;
            }
        }
        offsets[page + 1] = n as u64;
    }
    Documents {
        offsets,
        components,
        values,
    }
}
