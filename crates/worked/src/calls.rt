// A case: what is lent to its call, which is looked for in one group of calls after the other.
use crate::pieces::{
    NUMBERS, bytes, call, first, first_word, head, is, numbers, other_words, part, second,
};
use crate::telling::say;
use crate::{code, leaves, lent_lists, modules, naming, why};
use format::Edition;
use std::io;
use std::io::Stdout;

// So many bytes are lent at most.
const ROOM: usize = 256;

// The calls of one edition alone.
fn put_plainly(
    stdout: Stdout,
    name: &[u8],
    n: &[u32; NUMBERS],
    count: usize,
    p: &[u8],
    other: &[u8],
) -> io::Result<bool> {
    if leaves::answer(stdout, name, p)? {
        return Ok(true);
    }
    if modules::answer(stdout, name, n, p, other)? {
        return Ok(true);
    }
    if code::answer(stdout, name, n, p, other)? {
        return Ok(true);
    }
    if why::answer(stdout, name, n, p)? {
        return Ok(true);
    }
    lent_lists::answer(stdout, name, n, count, p)
}

// A call's name as in the header, without `wm_`.
fn put(
    stdout: Stdout,
    name: &[u8],
    n: &[u32; NUMBERS],
    count: usize,
    p: &[u8],
    other: &[u8],
) -> io::Result<bool> {
    if is(first_word(name), b"wide") {
        return naming::answer(stdout, other_words(name), Edition::Wider, n, p, other);
    }
    if naming::answer(stdout, name, Edition::First, n, p, other)? {
        return Ok(true);
    }
    put_plainly(stdout, name, n, count, p, other)
}

// A case with its bytes.
fn answer_with(stdout: Stdout, line: &[u8], p: &[u8], other: &[u8]) -> io::Result<()> {
    let mut n = [0; NUMBERS];
    let count = numbers(head(line), &mut n);
    if !put(stdout, call(line), &n, count, p, other)? {
        say(stdout, b"  there is no such call\n")?;
    }
    Ok(())
}

pub fn answer(stdout: Stdout, line: &[u8]) -> io::Result<()> {
    let mut payload = [0; ROOM];
    let length = bytes(first(line), &mut payload);
    let mut other = [0; ROOM];
    let other_length = bytes(second(line), &mut other);
    answer_with(
        stdout,
        line,
        part(&payload, 0, length),
        part(&other, 0, other_length),
    )
}
