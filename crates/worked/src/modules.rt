// The walk over a module, and whether its hints sit on branches.
use crate::pieces::{NUMBERS, which, wide};
use crate::telling::{told, told_count, told_section, told_verdict};
use std::io;
use std::io::Stdout;

pub fn answer(
    stdout: Stdout,
    call: &[u8],
    n: &[u32; NUMBERS],
    m: &[u8],
    name: &[u8],
) -> io::Result<bool> {
    match which(call, b"walk section custom hints_on_branches") {
        0 => told_count(stdout, walk::count(m)),
        1 => told_section(stdout, walk::section_at(m, wide(n[0]))),
        2 => told(stdout, walk::custom(m, name)),
        3 => told_verdict(stdout, branches::hints_on_branches(m), m.len()),
        _ => Ok(false),
    }
}
