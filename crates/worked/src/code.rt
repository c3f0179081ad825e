// Calls on metadata of code and on hints of both editions: to a payload, and through a module.
use crate::outputs;
use crate::outputs::Wanted;
use crate::pieces::{NUMBERS, which};
use crate::telling::{told, told_hint, told_verdict, told_yes};
use format::{CodeOffset, Edition, FunctionIndex, InstructionOffset};
use metadata::telling::{are_hints_canonical, is_canonical};
use std::io;
use std::io::Stdout;

fn of_old_hints(stdout: Stdout, call: &[u8], n: &[u32; NUMBERS], p: &[u8]) -> io::Result<bool> {
    let function = FunctionIndex(n[0]);
    let offset = InstructionOffset(n[1]);
    match which(
        call,
        b"old_hint old_hint_in old_hints_judge old_hints_is_canonical old_hints_canonical",
    ) {
        0 => told_hint(stdout, older::hint(p, function, offset)),
        1 => told_hint(stdout, through::older_hint(p, function, offset)),
        2 => told_verdict(stdout, older::judge(p), p.len()),
        3 => told_yes(stdout, reordering::is_canonical(p)),
        4 => outputs::answer(stdout, Wanted::OldHints, Edition::First, n, p, b""),
        _ => Ok(false),
    }
}

fn of_hints(stdout: Stdout, call: &[u8], n: &[u32; NUMBERS], p: &[u8]) -> io::Result<bool> {
    let function = FunctionIndex(n[0]);
    let offset = CodeOffset(n[1]);
    match which(
        call,
        b"hint hint_in hints_judge hints_is_canonical hints_canonical",
    ) {
        0 => told_hint(stdout, metadata::hint(p, function, offset)),
        1 => told_hint(stdout, through::hint(p, function, offset)),
        2 => told_verdict(stdout, metadata::judge_hints(p), p.len()),
        3 => told_yes(stdout, are_hints_canonical(p)),
        4 => outputs::answer(stdout, Wanted::Hints, Edition::First, n, p, b""),
        _ => of_old_hints(stdout, call, n, p),
    }
}

pub fn answer(
    stdout: Stdout,
    call: &[u8],
    n: &[u32; NUMBERS],
    p: &[u8],
    format: &[u8],
) -> io::Result<bool> {
    let function = FunctionIndex(n[0]);
    let offset = CodeOffset(n[1]);
    match which(
        call,
        b"metadata metadata_in metadata_judge metadata_is_canonical metadata_canonical",
    ) {
        0 => told(stdout, metadata::find(p, function, offset)),
        1 => told(stdout, through::metadata(p, format, function, offset)),
        2 => told_verdict(stdout, metadata::judge(p), p.len()),
        3 => told_yes(stdout, is_canonical(p)),
        4 => outputs::answer(stdout, Wanted::Metadata, Edition::First, n, p, b""),
        _ => of_hints(stdout, call, n, p),
    }
}
