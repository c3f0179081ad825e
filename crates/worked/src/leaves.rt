// A number and a name by themselves, as `reading` reads them.
use crate::pieces::which;
use crate::telling::tell;
use format::Refusal;
use reading::Cursor;
use std::io;
use std::io::Stdout;

fn told_refusal(stdout: Stdout, r: Refusal) -> io::Result<bool> {
    let reason = r.reason;
    let at = r.offset;
    tell(stdout, b"  refused", &[reason.number() as u64, at.0 as u64])
}

// A number's value, and the offset behind it.
fn told_number(stdout: Stdout, s: &[u8]) -> io::Result<bool> {
    let all = Cursor {
        at: 0,
        end: s.len(),
    };
    match all.number(s) {
        Err(r) => told_refusal(stdout, r),
        Ok((v, next, _)) => tell(stdout, b"  value", &[v as u64, next.at as u64]),
    }
}

// That a name is accepted, and the offset behind it.
fn told_name(stdout: Stdout, s: &[u8]) -> io::Result<bool> {
    let all = Cursor {
        at: 0,
        end: s.len(),
    };
    match all.name(s) {
        Err(r) => told_refusal(stdout, r),
        Ok((_, next, _)) => tell(stdout, b"  accepted", &[next.at as u64]),
    }
}

pub fn answer(stdout: Stdout, call: &[u8], p: &[u8]) -> io::Result<bool> {
    match which(call, b"number name") {
        0 => told_number(stdout, p),
        1 => told_name(stdout, p),
        _ => Ok(false),
    }
}
