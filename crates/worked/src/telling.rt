// What calls answer, in the header's words and numbers, each on a line of its own behind its case.
use format::{
    Answer, Hint, HintAnswer, JoinRefusal, JoinWritten, Offset, PairAnswer, Place, Refusal,
    Verdict, Whose, Written,
};
use neighbours::{Neighbour, Why};
use std::io;
use std::io::{Stdout, Write};
use walk::Counted;
use walk::survey::SectionAnswer;

// Whose a name or a refusal is; nobody's where there is none, and of what both are joined to.
const NOBODY: u64 = 0;

const SEPARATE: u64 = 1;

const OWN: u64 = 2;

pub fn say(mut stdout: Stdout, words: &[u8]) -> io::Result<()> {
    stdout.write_all(words)
}

fn say_number(mut stdout: Stdout, n: u64) -> io::Result<()> {
    write!(stdout, " {n}")
}

fn say_index(stdout: Stdout, n: u32) -> io::Result<()> {
    say_number(stdout, n as u64)
}

fn say_byte(mut stdout: Stdout, b: u8) -> io::Result<()> {
    write!(stdout, " {b:02x}")
}

// Words and numbers. This, and whatever tells by it, says that there was such a call.
pub fn tell(stdout: Stdout, words: &[u8], numbers: &[u64]) -> io::Result<bool> {
    say(stdout, words)?;
    for n in numbers {
        say_number(stdout, *n)?;
    }
    say(stdout, b"\n")?;
    Ok(true)
}

// Code, offset and length.
fn tell_answer(
    stdout: Stdout,
    words: &[u8],
    code: u64,
    offset: u64,
    length: u64,
) -> io::Result<bool> {
    tell(stdout, words, &[code, offset, length])
}

fn told_none(stdout: Stdout) -> io::Result<bool> {
    tell_answer(stdout, b"  none", 0, 0, 0)
}

fn told_place(stdout: Stdout, code: u8, at: Offset, length: usize) -> io::Result<bool> {
    tell_answer(stdout, b"  found", code as u64, at.0 as u64, length as u64)
}

// So many bytes from the front: the whole payload, where it was accepted, or what was written. A walk tells how many sections there are in the same words.
fn told_all(stdout: Stdout, length: usize) -> io::Result<bool> {
    tell_answer(stdout, b"  found", 0, 0, length as u64)
}

fn told_refusal(stdout: Stdout, r: Refusal) -> io::Result<bool> {
    let reason = r.reason;
    let at = r.offset;
    tell_answer(stdout, b"  refused", reason.number() as u64, at.0 as u64, 0)
}

pub fn told(stdout: Stdout, answer: Answer) -> io::Result<bool> {
    match answer {
        Ok(None) => told_none(stdout),
        Err(r) => told_refusal(stdout, r),
        Ok(Some(p)) => told_place(stdout, 0, p.offset, p.length),
    }
}

pub fn told_verdict(stdout: Stdout, verdict: Verdict, length: usize) -> io::Result<bool> {
    match verdict {
        Err(r) => told_refusal(stdout, r),
        Ok(()) => told_all(stdout, length),
    }
}

pub fn told_count(stdout: Stdout, count: Counted) -> io::Result<bool> {
    match count {
        Err(r) => told_refusal(stdout, r),
        Ok(n) => told_all(stdout, n),
    }
}

pub fn told_length(stdout: Stdout, written: Written) -> io::Result<bool> {
    match written {
        Err(r) => told_refusal(stdout, r),
        Ok(n) => told_all(stdout, n),
    }
}

pub fn told_section(stdout: Stdout, answer: SectionAnswer) -> io::Result<bool> {
    match answer {
        Ok(None) => told_none(stdout),
        Err(r) => told_refusal(stdout, r),
        Ok(Some(p)) => told_place(stdout, p.id, p.at, p.length),
    }
}

pub fn told_hint(stdout: Stdout, answer: HintAnswer) -> io::Result<bool> {
    match answer {
        Ok(None) => told_none(stdout),
        Err(r) => told_refusal(stdout, r),
        Ok(Some(hint)) => match hint {
            Hint::Unlikely => tell_answer(stdout, b"  unlikely", 0, 0, 0),
            Hint::Likely => tell_answer(stdout, b"  likely", 0, 0, 0),
        },
    }
}

// The same, and whose it is.
fn tell_whose(
    stdout: Stdout,
    words: &[u8],
    code: u64,
    offset: u64,
    length: u64,
    whose: u64,
) -> io::Result<bool> {
    tell(stdout, words, &[code, offset, length, whose])
}

fn of_whose(whose: Whose) -> u64 {
    match whose {
        Whose::Separate => SEPARATE,
        Whose::Own => OWN,
    }
}

fn told_its_refusal(stdout: Stdout, whose: u64, r: Refusal) -> io::Result<bool> {
    let reason = r.reason;
    let at = r.offset;
    tell_whose(
        stdout,
        b"  refused",
        reason.number() as u64,
        at.0 as u64,
        0,
        whose,
    )
}

fn told_its_place(stdout: Stdout, whose: u64, p: Place) -> io::Result<bool> {
    let at = p.offset;
    tell_whose(stdout, b"  found", 0, at.0 as u64, p.length as u64, whose)
}

pub fn told_pair(stdout: Stdout, answer: PairAnswer) -> io::Result<bool> {
    match answer {
        Ok(None) => tell_whose(stdout, b"  none", 0, 0, 0, NOBODY),
        Err((whose, r)) => told_its_refusal(stdout, of_whose(whose), r),
        Ok(Some((whose, p))) => told_its_place(stdout, of_whose(whose), p),
    }
}

pub fn told_join(stdout: Stdout, written: JoinWritten) -> io::Result<bool> {
    match written {
        Err(JoinRefusal::Payload(whose, r)) => told_its_refusal(stdout, of_whose(whose), r),
        Err(JoinRefusal::Output(r)) => told_its_refusal(stdout, NOBODY, r),
        Ok(n) => tell_whose(stdout, b"  found", 0, 0, n as u64, NOBODY),
    }
}

// Code, offset and position; no neighbours.
fn tell_why(
    stdout: Stdout,
    words: &[u8],
    code: u64,
    offset: u64,
    position: u64,
) -> io::Result<bool> {
    tell(stdout, words, &[code, offset, position, 0, 0, 0, 0])
}

// Whether there is a neighbour, and its index.
#[derive(Clone, Copy)]
struct Side {
    has: u64,
    index: u64,
}

fn on_side(neighbour: Neighbour) -> Side {
    match neighbour {
        None => Side { has: 0, index: 0 },
        Some(index) => Side {
            has: 1,
            index: index as u64,
        },
    }
}

fn told_between(stdout: Stdout, below: Side, above: Side) -> io::Result<bool> {
    tell(
        stdout,
        b"  no entry",
        &[0, 0, 0, below.has, below.index, above.has, above.index],
    )
}

fn told_why_refused(stdout: Stdout, r: Refusal) -> io::Result<bool> {
    let reason = r.reason;
    let at = r.offset;
    tell_why(stdout, b"  refused", reason.number() as u64, at.0 as u64, 0)
}

fn told_reason(stdout: Stdout, why: Why) -> io::Result<bool> {
    match why {
        Why::Named(id, position) => tell_why(stdout, b"  found", id as u64, 0, position as u64),
        Why::NoSubsection => tell_why(stdout, b"  no subsection", 0, 0, 0),
        Why::NoGroup => tell_why(stdout, b"  no group", 0, 0, 0),
        Why::NoEntry(below, above) => told_between(stdout, on_side(below), on_side(above)),
    }
}

pub fn told_why(stdout: Stdout, answer: Result<Why, Refusal>) -> io::Result<bool> {
    match answer {
        Err(r) => told_why_refused(stdout, r),
        Ok(why) => told_reason(stdout, why),
    }
}

// A yes or no.
pub fn told_yes(stdout: Stdout, yes: bool) -> io::Result<bool> {
    tell(stdout, b" ", &[yes as u64])
}

// Bytes, in hexadecimal.
pub fn say_bytes(stdout: Stdout, words: &[u8], bytes: &[u8]) -> io::Result<()> {
    say(stdout, words)?;
    for b in bytes {
        say_byte(stdout, *b)?;
    }
    say(stdout, b"\n")
}

// Numbers of 32 bits.
pub fn say_numbers(stdout: Stdout, words: &[u8], numbers: &[u32]) -> io::Result<()> {
    say(stdout, words)?;
    for n in numbers {
        say_index(stdout, *n)?;
    }
    say(stdout, b"\n")
}
