// Runs the worked cases: each line of the file stdin is a call with what is lent to it, by its name in the header without `wm_`, and is printed with what the library answers beneath the C boundary, in the numbers of the header. The C calls themselves are compared with the second reader by the tests of the host. What is printed is held to the file stdout, so that a case costs no proof.
//   CALL NUMBERS.. | BYTES.. | BYTES..      the bytes in hexadecimal; what a call has no use for is left out
//   # ..                                    words for whoever reads the cases
#![tactic(auto)]

use pieces::{end_of, part};
use std::io;
use std::io::{ErrorKind, Read, Stdin, Stdout};
use telling::say;

mod calls;
mod code;
mod leaves;
mod lent_lists;
mod modules;
mod naming;
mod outputs;
mod pieces;
mod telling;
mod why;

const LINE_END: u8 = b'\n';

const REMARK: u8 = b'#';

// So many bytes of cases are read at most.
const ROOM: usize = 65_536;

// Whether a line has no call.
fn is_remark(line: &[u8]) -> bool {
    if line.len() == 0 {
        return true;
    }
    line[0] == REMARK
}

// A line, and behind it what its call answers.
fn run(stdout: Stdout, line: &[u8]) -> io::Result<()> {
    say(stdout, line)?;
    say(stdout, b"\n")?;
    if !is_remark(line) {
        calls::answer(stdout, line)?;
    }
    Ok(())
}

// Every line.
fn run_all(stdout: Stdout, cases: &[u8]) -> io::Result<()> {
    let mut at = 0;
    while at < cases.len() {
        let end = end_of(cases, at, LINE_END);
        run(stdout, part(cases, at, end))?;
        at = end + 1;
    }
    Ok(())
}

// Reads to the end of the cases, or until the room is full. A read that a signal interrupted is tried again.
fn read_cases(mut stdin: Stdin, room: &mut [u8]) -> io::Result<usize> {
    let mut done = 0;
    let mut tries = u64::MAX;
    while done < room.len() {
        match stdin.read(&mut room[done..]) {
            Ok(0) => {
                return Ok(done);
            }
            Ok(n) => {
                done += n;
            }
            Err(e) => {
                if tries == 0 || e.kind() != ErrorKind::Interrupted {
                    return Err(e);
                }
                tries -= 1;
            }
        }
    }
    Ok(done)
}

fn main(rt: HostRuntime) -> io::Result<()> {
    let mut room = [0; ROOM];
    let length = read_cases(rt.stdin(), &mut room)?;
    run_all(rt.stdout(), part(&room, 0, length))
}
