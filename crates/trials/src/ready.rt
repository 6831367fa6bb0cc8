// Tests what a table must be for the search: each row's span lies on the reference, and its alleles, none of which is empty, in its list's
// text or on the reference.
ghost use Rattle.std.specs.Prelude.{◌≡◌, ◌<◌};
ghost use Rattle.bases.specs.Letter.{bases_of};
ghost use Rattle.donors.specs.Table.{most};
ghost use Rattle.trials.specs.Ready.{within?, stands?, sound?, sound_row?, ready?};

use bases::reference::base_count;
use donors::table::{Allele, MOST, Row};

// Do `len` bases from `at` on lie in `size`?
fn is_within(at: usize, len: usize, size: usize) -> bool
    ensures { result ≡ within? at len size }
{
    at <= size && len <= size - at
}

// Is the allele some bases of the text, or of the reference?
fn stands(reference: &[u8], text: &[u8], allele: Allele) -> bool
    ensures { result ≡ stands? (bases_of reference.now) text.now allele }
{
    let size = if allele.text {
        text.len()
    } else {
        base_count(reference)
    };
    1 <= allele.len && is_within(allele.at as usize, allele.len as usize, size)
}

// Is a row sound, with the text of its list?
fn is_sound(reference: &[u8], text: &[u8], row: &Row) -> bool
    ensures { result ≡ sound? (bases_of reference.now) text.now row.now }
{
    is_within(row.start as usize, row.len as usize, base_count(reference))
        && stands(reference, text, row.copy0)
        && stands(reference, text, row.copy1)
}

// Is row i sound?
fn is_sound_row(
    reference: &[u8],
    first: &[u8],
    second: &[u8],
    table: &[Row; MOST],
    i: usize,
) -> bool
    requires { i < most }
    ensures { result ≡ sound_row? (bases_of reference.now) first.now second.now table.now i }
{
    let row = &table[i];
    is_sound(reference, if row.first { first } else { second }, row)
}

// Are the first n rows all that the search asks for?
pub fn is_ready(
    reference: &[u8],
    first: &[u8],
    second: &[u8],
    table: &[Row; MOST],
    n: usize,
) -> bool
    ensures { result ≡ ready? (bases_of reference.now) first.now second.now table.now n }
{
    if MOST < n {
        return false;
    }
    for i in 0..n {
        if !is_sound_row(reference, first, second, table, i) {
            return false;
        }
    }
    true
}
