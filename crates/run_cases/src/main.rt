// Replays the stored runs, the refused listings as runs, the cases at both ends of limits, and runs with the Rust's answers, and prints of
// each kind how many agree, with the first that doesn't.
#![tactic(auto)]

mod bytes;
mod record;
mod run;
mod text;

ghost use Rattle.std.specs.Prelude.{◌≡◌, length};
ghost use Rattle.listing.specs.Listing.{listing_most};

use files::{large_buffer, load};
use listing::whole::LISTING_MOST;
use record::{Kind, Tally, replay};
use std::io;
use std::rt::Files;

// More bytes than a file of cases has.
fn file_buffer() -> [u8; 524288]
    ensures { 524288 ≡ length result }
{
    [0; 524288]
}

// As many bytes as the longest work buffer of a case.
fn work_buffer() -> [u8; 70000]
    ensures { 70000 ≡ length result }
{
    [0; 70000]
}

// As many bytes as the longest listing has.
fn listing_buffer() -> [u8; LISTING_MOST]
    ensures { listing_most ≡ length result }
{
    [0; LISTING_MOST]
}

// How many of a kind agree; the first that doesn't by its number, from 1.
fn print_tally(rt: &impl Print, name: &str, t: Tally) -> io::Result<()> {
    let agree = t.agree;
    let total = t.total;
    match t.first {
        None => println!(rt; "{name}: {agree} of {total} agree"),
        Some(first) => {
            println!(rt; "{name}: {agree} of {total} agree, the first that differs is {first}")
        }
    }
}

// Replays the cases of some bytes in buffers as long as the longest that a case asks for.
fn replay_all(rt: &impl Print, name: &str, cases: &[u8], kind: Kind) -> io::Result<()> {
    let mut work = work_buffer();
    let mut output = large_buffer();
    let mut lines = listing_buffer();
    let t = replay(cases, kind, &mut work, &mut output, &mut lines);
    print_tally(rt, name, t)
}

// Replays the cases of a file.
fn replay_file(
    rt: &(impl Files + Print + Eprint),
    name: &str,
    path: &[u8],
    kind: Kind,
) -> io::Result<()> {
    let mut buffer = file_buffer();
    match load(rt, path, &mut buffer) {
        Some(size) => replay_all(rt, name, &buffer[..size], kind),
        None => Ok(()),
    }
}

fn main(rt: HostRuntime) -> io::Result<()> {
    replay_file(&rt, "runs", b"runs.bin", Kind::Run)?;
    replay_file(&rt, "refusals", b"refusals.bin", Kind::Run)?;
    replay_file(&rt, "limits", b"limits.bin", Kind::Listing)?;
    replay_file(&rt, "rust", b"rust.bin", Kind::Run)
}
