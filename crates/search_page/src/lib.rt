// One page read against a query: its terms are checked and its score is taken, in two short passes over them. Or two pages at a time.
#![tactic(auto)]

ghost use Rattle.std.specs.Prelude.{◌≡◌, cond, ◌≤◌, ◌<◌, ◌+◌, ◌%◌, length, get_or, drop, set, ltb};
ghost use Rattle.std.specs.Float.{nan, binary32};
ghost use Rattle.std.specs.Float.Ieee.{of_bits, add, mul};
ghost use Rattle.search_page.specs.Through.{laying, laid_sum, sieve_of, looked, through, sum_of, last_fits, read_through, read_two};

use documents::Terms;

// A query laid out: its values in a table by component, the sieve of its components, and the query itself.
#[derive(Clone, Copy)]
pub struct Laid<'a> {
    pub table: &'a [f32; 32768],
    pub sieve: &'a [u8; 4096],
    pub query: Terms<'a>,
}

// The scores of two pages.
#[derive(Clone, Copy)]
pub struct Scores {
    pub one: f32,
    pub two: f32,
}

// A sum on its way, and the place in the query from which the next component is looked up.
#[derive(Drop)]
struct Sum {
    total: f32,
    at: usize,
}

// A weight is put at the place of its component, if there is one.
fn put(table: &mut [f32; 32768], c: u32, weight: f32)
    ensures { table.new ≡ cond (ltb c 32768) (set table.old c weight) table.old }
{
    if c < 32768 {
        let place = c as usize;
        table[place] = weight;
    }
}

// Lays the query out in a table: the weight of each component below 32,768 at its own place. It is done once for a search, on zeros.
pub fn lay(query: Terms<'_>, table: &mut [f32; 32768])
    ensures { table.new ≡ laying table.old query.entry.components.now query.entry.values.now }
{
    for (c, weight) in query.components.iter().zip(query.values) {
        put(table, *c, *weight);
    }
}

// The sieve of a query: 1 at the remainder by 4,096 of each of its components, else 0. It is made once for a search.
pub fn sieve_of(query_components: &[u32]) -> [u8; 4096]
    ensures { result ≡ sieve_of query_components.now }
{
    let mut sieve = [0u8; 4096];
    for c in query_components {
        let r = (*c % 4096) as usize;
        sieve[r] = 1;
    }
    sieve
}

// A byte as a number to be summed.
fn wide(b: u8) -> u32
    ensures answer { result ≡ b }
    ensures byte { result < 256 }
{
    b as u32
}

// The sieve's byte for a component: 0 says that the query has no such component.
fn mark(sieve: &[u8; 4096], c: u32) -> u32
    ensures answer { result ≡ get_or sieve.now (c % 4096) 0 }
    ensures byte { result < 256 }
{
    let place = (c % 4096) as usize;
    wide(sieve[place])
}

// The sum with the product of one term, if the query has its component.
fn look(a: u32, v: f32, s: Sum, query: Terms<'_>) -> Sum
    ensures { result ≡ looked query.entry.components.now query.entry.values.now a v s }
{
    let total = s.total;
    let at = documents::seek(query.components, s.at, a);
    if query.components.len() <= at {
        return Sum { total, at };
    }
    if query.values.len() <= at {
        return Sum { total, at };
    }
    if query.components[at] == a {
        return Sum {
            total: total + v * query.values[at],
            at,
        };
    }
    Sum { total, at }
}

// One term of a page.
fn term(
    sieve: &[u8; 4096],
    components: &[u32],
    values: &[f32],
    i: usize,
    s: Sum,
    query: Terms<'_>,
) -> Sum
    requires i_in_bounds { i < length components.now }
    requires components_len { length components.now ≡ length values.now }
    ensures { through sieve.now query.entry.components.now query.entry.values.now (drop i components.now) (drop i values.now) s
        ≡ through sieve.now query.entry.components.now query.entry.values.now (drop (i + 1) components.now) (drop (i + 1) values.now) result }
{
    let c = components[i];
    if mark(sieve, c) == 0 {
        return s;
    }
    let v = values[i];
    look(c, v, s, query)
}

// The terms from i to below e.
fn terms(
    sieve: &[u8; 4096],
    components: &[u32],
    values: &[f32],
    i: usize,
    e: usize,
    s: Sum,
    query: Terms<'_>,
) -> Sum
    requires i_le_e { i ≤ e }
    requires e_in_bounds { e ≤ length components.now }
    requires components_len { length components.now ≡ length values.now }
    ensures { through sieve.now query.entry.components.now query.entry.values.now (drop i components.now) (drop i values.now) s
        ≡ through sieve.now query.entry.components.now query.entry.values.now (drop e components.now) (drop e values.now) result }
{
    let mut t = s;
    for k in i..e {
        t = term(sieve, components, values, k, t, query);
    }
    t
}

// Four terms: nearly always the sieve passes none of them, and nothing is to be done.
fn four(
    sieve: &[u8; 4096],
    components: &[u32],
    values: &[f32],
    i: usize,
    s: Sum,
    query: Terms<'_>,
) -> Sum
    requires i_in_bounds { i + 4 ≤ length components.now }
    requires components_len { length components.now ≡ length values.now }
    ensures { through sieve.now query.entry.components.now query.entry.values.now (drop i components.now) (drop i values.now) s
        ≡ through sieve.now query.entry.components.now query.entry.values.now (drop (i + 4) components.now) (drop (i + 4) values.now) result }
{
    let m0 = mark(sieve, components[i]);
    let m1 = mark(sieve, components[i + 1]);
    let m2 = mark(sieve, components[i + 2]);
    let m3 = mark(sieve, components[i + 3]);
    if m0 + m1 + m2 + m3 == 0 {
        return s;
    }
    terms(sieve, components, values, i, i + 4, s, query)
}

// The sum over a page's terms, which are as many components as values.
fn walk(sieve: &[u8; 4096], components: &[u32], values: &[f32], query: Terms<'_>) -> f32
    requires { length components.now ≡ length values.now }
    ensures { result ≡ (through sieve.now query.entry.components.now query.entry.values.now components.now values.now
        (sum_of (of_bits binary32 0) 0)).total }
{
    let n = components.len();
    let mut s = Sum { total: 0.0, at: 0 };
    let fours = n / 4;
    for b in 0..fours {
        s = four(sieve, components, values, b * 4, s, query);
    }
    s = terms(sieve, components, values, fours * 4, n, s, query);
    s.total
}

// The sum with one term more: its value times what the table has for its component.
fn with_term(table: &[f32; 32768], c: u32, v: f32, sum: f32) -> f32
    ensures { result ≡ add binary32 sum (mul binary32 v (get_or table.now (c % 32768) nan)) }
{
    let place = (c % 32768) as usize;
    sum + v * table[place]
}

// The sum goes on over a page's terms from a place on, by the table, with no branch on what they are: a term that the query lacks adds a
// zero, which changes nothing (specs/Laws/Zeros).
fn laid_rest(
    table: &[f32; 32768],
    components: &[u32],
    values: &[f32],
    from: usize,
    start: f32,
) -> f32
    requires { length components.now ≡ length values.now }
    ensures { result ≡ laid_sum table.now (drop from components.now) (drop from values.now) start }
{
    let mut sum = start;
    for i in from..components.len() {
        sum = with_term(table, components[i], values[i], sum);
    }
    sum
}

// The sum over all of a page's terms by the table.
fn laid_sum(table: &[f32; 32768], components: &[u32], values: &[f32]) -> f32
    requires { length components.now ≡ length values.now }
    ensures { result ≡ laid_sum table.now components.now values.now (of_bits binary32 0) }
{
    laid_rest(table, components, values, 0, 0.0)
}

// The sums over two pages' terms by the table, side by side as far as the shorter page goes: neither waits for the other, so that both take
// little more time than one.
fn laid_two(
    table: &[f32; 32768],
    components: &[u32],
    values: &[f32],
    others: &[u32],
    other_values: &[f32],
) -> Scores
    requires components_len { length components.now ≡ length values.now }
    requires others_len { length others.now ≡ length other_values.now }
    ensures one { result.one ≡ laid_sum table.now components.now values.now (of_bits binary32 0) }
    ensures two { result.two ≡ laid_sum table.now others.now other_values.now (of_bits binary32 0) }
{
    let n = components.len().min(others.len());
    let mut a = 0.0;
    let mut b = 0.0;
    for i in 0..n {
        a = with_term(table, components[i], values[i], a);
        b = with_term(table, others[i], other_values[i], b);
    }
    let one = laid_rest(table, components, values, n, a);
    let two = laid_rest(table, others, other_values, n, b);
    Scores { one, two }
}

// Whether rising components all have a place in the table: the last one decides.
fn fits_table(components: &[u32]) -> bool
    ensures { result ≡ last_fits components.now }
{
    let n = components.len();
    if n == 0 {
        return true;
    }
    let last = n - 1;
    components[last] < 32768
}

// A page's score where its components are expected in the table, or nothing where its terms break their rules (14): whether they are is
// checked with its terms, and only where they are not it is looked whether the terms hold at all.
fn read_narrow(laid: Laid<'_>, components: &[u32], values: &[f32]) -> Option<f32>
    ensures { result ≡ read_through laid.entry.table.now laid.entry.sieve.now laid.entry.query.components.now laid.entry.query.values.now
        components.now values.now }
{
    if document_checks::slices_hold_below(32768, components, values) {
        let score = laid_sum(laid.table, components, values);
        return Some(score);
    }
    if document_checks::slices_hold(components, values) {
        let score = walk(laid.sieve, components, values, laid.query);
        return Some(score);
    }
    None
}

// The same reading where some component is expected past the table: the terms are checked once, whichever way is taken then.
fn read_wide(laid: Laid<'_>, components: &[u32], values: &[f32]) -> Option<f32>
    ensures { result ≡ read_through laid.entry.table.now laid.entry.sieve.now laid.entry.query.components.now laid.entry.query.values.now
        components.now values.now }
{
    if !document_checks::slices_hold(components, values) {
        return None;
    }
    if fits_table(components) {
        let score = laid_sum(laid.table, components, values);
        return Some(score);
    }
    let score = walk(laid.sieve, components, values, laid.query);
    Some(score)
}

// A page's reading by a table, or through a sieve where it has a component from 32,768 on: its score, or nothing where its terms break
// their rules (14). `narrow` says which of the two ways is expected: it changes the steps that are made, and never what is read. With the
// table and the sieve of a query whose terms hold, it is the reading against that query (specs/Laws/Reads). It takes time in proportion to
// the page's terms.
pub fn read(narrow: bool, laid: Laid<'_>, components: &[u32], values: &[f32]) -> Option<f32>
    ensures { result ≡ read_through laid.entry.table.now laid.entry.sieve.now laid.entry.query.components.now laid.entry.query.values.now
        components.now values.now }
{
    if narrow {
        return read_narrow(laid, components, values);
    }
    read_wide(laid, components, values)
}

// Two pages read at a time by the table: both scores where each page's terms hold and have their places in the table, else nothing.
// Where there are scores they are those of `read` (specs/Laws/Pairs). It takes time in proportion to the terms of both pages, little more
// than the longer one alone.
pub fn read_two(
    table: &[f32; 32768],
    components: &[u32],
    values: &[f32],
    others: &[u32],
    other_values: &[f32],
) -> Option<Scores>
    ensures { result ≡ read_two table.now components.now values.now others.now other_values.now }
{
    let one = document_checks::slices_hold_below(32768, components, values);
    let two = document_checks::slices_hold_below(32768, others, other_values);
    if one & two {
        return Some(laid_two(table, components, values, others, other_values));
    }
    None
}
