// Why a function or a local has no name.
use crate::pieces::{NUMBERS, which};
use crate::telling::told_why;
use format::{FunctionIndex, LocalIndex};
use neighbours::functions::why_function;
use neighbours::locals::why_local;
use std::io;
use std::io::Stdout;

pub fn answer(stdout: Stdout, call: &[u8], n: &[u32; NUMBERS], p: &[u8]) -> io::Result<bool> {
    match which(call, b"why_function why_local") {
        0 => told_why(stdout, why_function(p, FunctionIndex(n[0]))),
        1 => told_why(stdout, why_local(p, FunctionIndex(n[0]), LocalIndex(n[1]))),
        _ => Ok(false),
    }
}
