// Calls that are lent lists of numbers.
use crate::outputs::{ROOM, UNTOUCHED};
use crate::pieces::{NUMBERS, place, which, wide};
use crate::telling::{say_bytes, say_numbers, told, told_length};
use format::FunctionIndex;
use lists::function_names;
use markers::asking::quick;
use markers::making::make;
use std::io;
use std::io::Stdout;

// What stands in a list before a call, so that a place left alone shows.
const UNMARKED: u32 = 99;

// Where the lists of a case begin: behind two numbers, and of a quick question behind three.
const LISTED: u32 = 2;

const MARKED: u32 = 3;

// The numbers of a case from one place to another: none where there are not so many.
fn listed(n: &[u32], from: usize, count: usize) -> &[u32] {
    if from <= count {
        if count <= n.len() {
            return &n[from..count];
        }
    }
    &n[0..0]
}

// Function names: the output's length, how many indices there are, these, and the lengths.
fn write_into(
    stdout: Stdout,
    n: &[u32; NUMBERS],
    count: usize,
    text: &[u8],
    out: &mut [u8],
) -> io::Result<()> {
    let behind = place(LISTED, n[1]);
    let indices = listed(n, place(LISTED, 0), behind);
    let lengths = listed(n, behind, count);
    told_length(stdout, function_names(indices, lengths, text, out))?;
    say_bytes(stdout, b"  output", out)
}

fn write_in(
    stdout: Stdout,
    n: &[u32; NUMBERS],
    count: usize,
    text: &[u8],
    room: &mut [u8],
    length: usize,
) -> io::Result<()> {
    if length <= room.len() {
        write_into(stdout, n, count, text, &mut room[..length])?;
    }
    Ok(())
}

fn write(stdout: Stdout, n: &[u32; NUMBERS], count: usize, text: &[u8]) -> io::Result<bool> {
    let mut room = [UNTOUCHED; ROOM];
    write_in(stdout, n, count, text, &mut room, place(0, n[0]))?;
    Ok(true)
}

// Markers: how long the two lists are.
fn mark_into(stdout: Stdout, p: &[u8], indices: &mut [u32], offsets: &mut [u32]) -> io::Result<()> {
    told(stdout, make(p, indices, offsets))?;
    say_numbers(stdout, b"  indices", indices)?;
    say_numbers(stdout, b"  offsets", offsets)
}

fn mark_in(
    stdout: Stdout,
    p: &[u8],
    indices: &mut [u32],
    many: usize,
    offsets: &mut [u32],
    others: usize,
) -> io::Result<()> {
    if many <= indices.len() {
        if others <= offsets.len() {
            mark_into(stdout, p, &mut indices[..many], &mut offsets[..others])?;
        }
    }
    Ok(())
}

fn mark(stdout: Stdout, n: &[u32; NUMBERS], p: &[u8]) -> io::Result<bool> {
    let mut indices = [UNMARKED; NUMBERS];
    let mut offsets = [UNMARKED; NUMBERS];
    mark_in(
        stdout,
        p,
        &mut indices,
        place(0, n[0]),
        &mut offsets,
        place(0, n[1]),
    )?;
    Ok(true)
}

// A quick question: the end, the function, how many indices there are, these, and the offsets.
fn ask(stdout: Stdout, n: &[u32; NUMBERS], count: usize, p: &[u8]) -> io::Result<bool> {
    let behind = place(MARKED, n[2]);
    let indices = listed(n, place(MARKED, 0), behind);
    let offsets = listed(n, behind, count);
    told(
        stdout,
        quick(p, indices, offsets, wide(n[0]), FunctionIndex(n[1])),
    )
}

pub fn answer(
    stdout: Stdout,
    call: &[u8],
    n: &[u32; NUMBERS],
    count: usize,
    p: &[u8],
) -> io::Result<bool> {
    match which(call, b"function_names_write markers quick_function_name") {
        0 => write(stdout, n, count, p),
        1 => mark(stdout, n, p),
        2 => ask(stdout, n, count, p),
        _ => Ok(false),
    }
}
