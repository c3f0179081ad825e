// Calls that write into a lent output. Its length is the first number of the case; it is filled before, so that a byte left alone shows, and printed whole behind the answer.
use crate::pieces::{NUMBERS, place};
use crate::telling::{say_bytes, told_join, told_length};
use format::Edition;
use std::io;
use std::io::Stdout;

pub const UNTOUCHED: u8 = 0xEE;

// The longest output.
pub const ROOM: usize = 64;

// What is written: canonical payloads, and two payloads joined.
#[derive(Clone, Copy)]
pub enum Wanted {
    Names,
    Joined,
    Metadata,
    Hints,
    OldHints,
}

fn write(
    stdout: Stdout,
    wanted: Wanted,
    edition: Edition,
    p: &[u8],
    own: &[u8],
    out: &mut [u8],
) -> io::Result<bool> {
    match wanted {
        Wanted::Names => told_length(stdout, rewrite::names(p, edition, out)),
        Wanted::Joined => told_join(stdout, joining::join(p, own, edition, out)),
        Wanted::Metadata => told_length(stdout, rewrite::metadata(p, out)),
        Wanted::Hints => told_length(stdout, rewrite::hints(p, out)),
        Wanted::OldHints => told_length(stdout, reordering::canonical(p, out)),
    }
}

fn answer_into(
    stdout: Stdout,
    wanted: Wanted,
    edition: Edition,
    p: &[u8],
    own: &[u8],
    out: &mut [u8],
) -> io::Result<bool> {
    write(stdout, wanted, edition, p, own, out)?;
    say_bytes(stdout, b"  output", out)?;
    Ok(true)
}

// The first so many bytes of a room are the output.
fn answer_in(
    stdout: Stdout,
    wanted: Wanted,
    edition: Edition,
    p: &[u8],
    own: &[u8],
    room: &mut [u8],
    length: usize,
) -> io::Result<bool> {
    if length <= room.len() {
        return answer_into(stdout, wanted, edition, p, own, &mut room[..length]);
    }
    Ok(false)
}

pub fn answer(
    stdout: Stdout,
    wanted: Wanted,
    edition: Edition,
    n: &[u32; NUMBERS],
    p: &[u8],
    own: &[u8],
) -> io::Result<bool> {
    let mut room = [UNTOUCHED; ROOM];
    answer_in(stdout, wanted, edition, p, own, &mut room, place(0, n[0]))
}
