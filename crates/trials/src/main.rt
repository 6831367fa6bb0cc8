// Searches a cluster on a stretch of 60 bases, and prints the best score. Its argument is the cluster's name: without one it is twelve
// homozygous entries, no two of which overlap, in turn of list 1 and of list 2. bench/search and bench/clusters count what that costs. The
// contracts cite specs/.
#![tactic(auto)]

mod drawn;
mod ready;

use donors::table::{MOST, Row};
use drawn::put_rows;
use matching::search::best_choices;
use ready::is_ready;
use std::env::FillError;
use std::io;
use std::rt::Env;

fn print_none(rt: &impl Print) -> io::Result<()> {
    println!(rt; "no such cluster")
}

// Searches `most` entries at most of a drawn cluster, each with an ALT of `alt` bases, and prints the score.
fn search(
    rt: &impl Print,
    first: &[u8],
    second: &[u8],
    homozygous: bool,
    alt: u32,
    most: usize,
) -> io::Result<()> {
    let reference = b"ATGCCATGGCATTGCAATGCCATGGCATTGCAATGCCATGGCATTGCAATGCCATGGCAT";
    let mut table = [Row::default(); MOST];
    let n = put_rows(first, second, homozygous, alt, &mut table);
    if !is_ready(reference, first, second, &table, n) {
        return print_none(rt);
    }
    let best = best_choices(reference, first, second, &table, n.min(most));
    let score = best.score;
    println!(rt; "{score}")
}

// Twelve entries, in turn of list 1 and of list 2.
fn search_apart(rt: &impl Print, homozygous: bool, most: usize) -> io::Result<()> {
    search(
        rt,
        b"C.........C.........G.........G.........T.........T.........",
        b".....C.........C.........G.........G.........T.........T....",
        homozygous,
        1,
        most,
    )
}

// Six entries, each in both lists.
fn search_both(rt: &impl Print, homozygous: bool) -> io::Result<()> {
    search(
        rt,
        b"C.........C.........G.........G.........T.........T.........",
        b"C.........C.........G.........G.........T.........T.........",
        homozygous,
        1,
        MOST,
    )
}

// Homozygous entries with an ALT of one base.
fn search_bases(rt: &impl Print, first: &[u8], second: &[u8]) -> io::Result<()> {
    search(rt, first, second, true, 1, MOST)
}

// Searches the cluster of that name. Of `none` twelve rows are written and tested as of the others, and no entry is searched: that is what
// a run takes besides its search.
fn search_named(rt: &impl Print, name: &[u8]) -> io::Result<()> {
    match name {
        b"none" => search_apart(rt, true, 0),
        b"apart-homozygous" => search_apart(rt, true, MOST),
        b"apart-heterozygous" => search_apart(rt, false, MOST),
        b"both-homozygous" => search_both(rt, true),
        b"both-heterozygous" => search_both(rt, false),
        b"both-five-bases" => search(
            rt,
            b"CCCCC.....CCCCC.....GGGGG.....GGGGG.....TTTTT.....TTTTT.....",
            b"CCCCC.....CCCCC.....GGGGG.....GGGGG.....TTTTT.....TTTTT.....",
            true,
            5,
            MOST,
        ),
        b"one-list-first" => search_bases(
            rt,
            b"C....C....C....C....G....G..................................",
            b"..............................G....G....T....T....T....T....",
        ),
        b"one-more-behind" => search_bases(
            rt,
            b"C.........C.........G.........G.........T..............T....",
            b"C.........C.........G.........G.........T...................",
        ),
        b"one-more-before" => search_bases(
            rt,
            b"...G......C.........G.........G.........T.........T.........",
            b"..........C.........G.........G.........T.........T.........",
        ),
        b"two-more-behind" => search_bases(
            rt,
            b"C.........C.........G.........G.........T............C......",
            b"C.........C.........G.........G.........T................G..",
        ),
        b"two-more-before" => search_bases(
            rt,
            b"..T.......C.........G.........G.........T.........T.........",
            b"......A...C.........G.........G.........T.........T.........",
        ),
        _ => print_none(rt),
    }
}

fn main(rt: HostRuntime) -> io::Result<()> {
    let mut room = [0u8; 32];
    match rt.arg(1, &mut room) {
        Ok(n) => search_named(&rt, &room[..n]),
        Err(FillError::TooLong) => print_none(&rt),
        Err(FillError::NotPresent) => search_apart(&rt, true, MOST),
    }
}
