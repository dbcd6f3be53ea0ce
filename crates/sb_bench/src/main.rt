//! What transactions over a store cost its disk: how many syncs, and how many bytes written.
//!
//! A commit makes one chunk of the log, with 2 syncs: a length field of 4 bytes, the records, and a gate of 1 byte. The records are a Begin of 5 bytes, 15 + 2 * 8 = 31 bytes for each change, and a Commit of 5. Behind a checkpoint, what a page gets first is its Image, of 4,101 bytes: 262,464 bytes for 64 pages. So these are the numbers to expect:
//!
//! - 1,000 commits of one change: 1,000 * (4 + 5 + 31 + 5 + 1) = 46,000 bytes, and the Images: 308,464 bytes, 2,000 syncs. Without the gates they take 307,464 bytes of the log, less than half of it, so no checkpoint comes in between.
//! - A checkpoint: 64 * 4,096 = 262,144 bytes of pages and a sync, and then the gates, 65,536 bytes: the first one and a sync, all others in one write and a sync. That is 327,680 bytes, 3 syncs.
//! - 1 commit of 1,000 changes: 4 + 5 + 31,000 + 5 + 1 = 31,015 bytes, and the Images: 293,479 bytes, 2 syncs.
//!
//! What driven inserts cost, in a store of 64 pages with the greatest log, in which no checkpoint comes. A row of a number and a text of 20 bytes is spelled in 32 bytes. A change logs the range from the first byte of the page that differs to the last one, so most of it is what stands between the page's head and the new entry. A page that is taken costs a change of its owner's 2 bytes, and an Image. The relation is made before the counting begins.
//!
//! - In a heap a row takes 38 bytes of a page, and 81 rows fill it up to where it has no room for any row: so 12 pages are full and the last one has 28 rows. The m-th row of a page changes 38 m + 21 bytes, 3 more if it is the first one of a taken page, and 2 more if it is the 81st. Of the root, whose field names the first page with room, a byte changes for each page that is taken, and for each other one that is full: 12 and 11 times. That is 1,000 + 12 + 23 = 1,035 changes. Of the records of rows a full page has 257,017 bytes, the last one 32,452, and the first rows of taken pages 72 more; the root's are 23 * 17, the owners' 12 * 19, and 12 Images 49,212: 3,166,559 bytes. With a Begin, a Commit, a length field and a gate that is 3,166,574 bytes for one commit, and 3,181,559 for 1,000.
//! - In a tree an entry takes 44 bytes of a leaf, so 92 fill it, and the 93rd splits it: 47 stay, and 46 go to a taken page, which takes the keys that come. So 20 splits come, the first at the 93rd row and the others after 47 rows each, and the last leaf has 60 rows. The m-th row of a leaf changes 44 m + 21 bytes. The first split takes two pages and writes three, of 4,072, 4,072 and 2,048 bytes; each of the other 19 takes one, writes 2,048 bytes of it, 3 of the leaf, and of the root 16 j + 21 for its j-th entry, from the 2nd to the 20th. That is 980 + 5 + 19 * 4 = 1,061 changes. The records of rows are 381,708 bytes up to the first split, 283,958 between each two, and 66,710 behind the last; those of the splits 20,467, 19 * 4,151 and 7,771, and 21 Images 86,121: 6,036,848 bytes. So 6,036,863 for one commit, and 6,051,848 for 1,000.
//! - An insert asks for the root and for the page that the row goes to, where that is another one: for 2 pages at most, and for none twice.
//!
//! And how many pages a look-up in a tree asks for, one a level. An entry of 8 and 8 bytes takes 20 of a leaf's 4,072 bytes, so a leaf has 203 at most, and one that was split behind rising keys 102. Of an inner page an entry takes 16, so it has 254 at most, and 128 once it was split. So 1,000 entries stand in fewer than 10 leaves under the root, 10,000 in fewer than 100, and 100,000 in almost 1,000, under inner pages of which the root has several.
//!
//! With the word `--speed` it also prints how long the tree takes.
#![tactic(auto)]

mod counted;
mod inserts;
mod load;
mod measure;
mod relation;
mod rows;
mod scratch;
mod tree;
mod watched;

use counted::Cost;
use measure::measure;
use relation::{Inserts, measure_inserts};
use sb_heap::Heap;
use sb_treemethod::TreeMethod;
use std::process::ExitCode;
use std::rt::{Clock, Env};
use std::time::Instant;
use std::{env, io};
use tree::Tree;
use watched::Totals;

/// Prints a line.
fn print_cost(rt: &impl Print, work: &str, cost: Cost) -> io::Result<()> {
    let Cost { syncs, written } = cost;
    println!(rt; "{work}: {syncs} syncs, {written} bytes written")
}

/// Measures transactions, and prints the three lines.
fn run_transactions(rt: &(impl Print + AllocGlobal)) -> Option<()> {
    let costs = measure(rt.alloc())?;
    print_cost(
        rt,
        "1000 commits of one change each, in 64 pages",
        costs.each,
    )
    .ok()?;
    print_cost(rt, "a checkpoint of 64 pages", costs.checkpoint).ok()?;
    print_cost(rt, "1 commit of 1000 changes, in 64 pages", costs.all).ok()
}

/// Prints what inserts cost.
fn print_inserts(rt: &impl Print, place: &str, commits: &str, inserts: Inserts) -> io::Result<()> {
    let Inserts { cost, totals } = inserts;
    let Cost { syncs, written } = cost;
    let Totals {
        keys,
        changes,
        pages,
        twice,
    } = totals;
    let again = if twice { "one" } else { "none" };
    println!(rt;
        "{keys} rows in {place}, {commits}: {changes} changes, {syncs} syncs, {written} bytes of the log; an insert asks for {pages} pages at most, for {again} twice"
    )
}

/// Each row with a commit of its own, and all with one.
const COMMITS: [(bool, &str); 2] = [(true, "a commit each"), (false, "1 commit")];

/// Measures inserts into a heap, and prints what they cost.
fn run_heap_rows(rt: &(impl Print + AllocGlobal)) -> Option<()> {
    let alloc = rt.alloc();
    let inst = rows::heap(alloc).ok()?;
    for (each, commits) in COMMITS {
        let inserts = measure_inserts(alloc, &Heap::new(), &inst, each)?;
        print_inserts(rt, "a heap", commits, inserts).ok()?;
    }
    Some(())
}

/// Measures the same of a tree.
fn run_tree_rows(rt: &(impl Print + AllocGlobal)) -> Option<()> {
    let alloc = rt.alloc();
    let inst = rows::tree(alloc).ok()?;
    for (each, commits) in COMMITS {
        let inserts = measure_inserts(alloc, &TreeMethod::new(), &inst, each)?;
        print_inserts(rt, "a tree", commits, inserts).ok()?;
    }
    Some(())
}

/// How many entries a tree has when its look-ups are counted.
const ENTRIES: [u64; 3] = [1_000, 10_000, 100_000];

/// Grows a tree, and prints what a look-up asks for.
fn run_tree(rt: &(impl Print + AllocGlobal)) -> Option<()> {
    let alloc = rt.alloc();
    let mut tree = Tree::new(alloc)?;
    for entries in ENTRIES {
        tree.grow(alloc, entries)?;
        let asked = tree.pages_asked(alloc, entries / 2)?;
        println!(rt; "a tree of {entries} entries: a look-up asks for {asked} pages").ok()?;
    }
    Some(())
}

/// Grows a tree, and prints how long that and looking up each key took.
fn run_speed(rt: &(impl Print + AllocGlobal + Clock)) -> Option<()> {
    let alloc = rt.alloc();
    for entries in ENTRIES {
        let mut tree = Tree::new(alloc)?;
        let start = Instant::now(rt).ok()?;
        tree.grow(alloc, entries)?;
        let grown = start.elapsed(rt).ok()?.as_millis();
        let found = tree.found(alloc)?;
        let all = start.elapsed(rt).ok()?.as_millis();
        println!(rt; "{entries} entries put in: {grown} ms; with {found} look-ups: {all} ms").ok()?;
    }
    Some(())
}

fn run(rt: &HostRuntime) -> Option<()> {
    run_transactions(rt)?;
    run_heap_rows(rt)?;
    run_tree_rows(rt)?;
    run_tree(rt)?;
    let mut words = env::args(rt).ok()?.skip(1);
    if words.any(|word| word.as_str() == "--speed") {
        run_speed(rt)?;
    }
    Some(())
}

fn main(rt: HostRuntime) -> ExitCode {
    match run(&rt) {
        Some(()) => ExitCode::SUCCESS,
        None => ExitCode::FAILURE,
    }
}
