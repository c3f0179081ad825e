// Lists the sections of the module on standard input.
#![tactic(auto)]

ghost use Rattle.std.specs.Prelude.{◌≡◌, ◌≤◌, length};
ghost use Rattle.listing.specs.Input.{ReadIn};
ghost use Rattle.listing.specs.Lines.{room};

use std::io::{ErrorKind, Read, Stdin, Stdout, Write};
use std::{fmt, io};

mod lines;
mod list;

// One byte more than the longest module that is listed, so that a longer one shows.
const MODULE: usize = 65_537;

// Room for the longest listing: `room` in specs/Lines.antt.
const ROOM: usize = 2_098_176;

// Which of the two streams failed, and of what.
#[derive(Drop)]
enum Failed {
    Input(io::Error),
    Output(io::Error),
}

impl fmt::Debug for Failed {
    fn fmt<W: fmt::Write>(&self, f: &mut fmt::Formatter<W>) -> fmt::Result {
        match self {
            Failed::Input(e) => write!(f, "standard input: {e}"),
            Failed::Output(e) => write!(f, "standard output: {e}"),
        }
    }
}

// Reads to the end of the input, or until `buf` is full. A read that a signal interrupted is tried again.
fn read_input(mut input: Stdin, buf: &mut [u8]) -> io::Result<usize>
    ensures { ReadIn (length buf.new) result }
{
    let mut done = 0;
    let mut tries = u64::MAX;
    while done < buf.len() {
        match input.read(&mut buf[done..]) {
            Ok(0) => {
                return Ok(done);
            }
            Ok(n) => {
                done += n;
            }
            Err(e) => {
                if tries == 0 || e.kind() != ErrorKind::Interrupted {
                    return Err(e);
                }
                tries -= 1;
            }
        }
    }
    Ok(done)
}

// The rooms for a module and its listing. Only their lengths matter.
fn module_room() -> [u8; MODULE]
    ensures { 65_537 ≡ length result }
{
    [0; MODULE]
}

fn listing_room() -> [u8; ROOM]
    ensures { room ≡ length result }
{
    [0; ROOM]
}

// Reads a module into `m` and writes its listing from `out`.
fn run(input: Stdin, mut output: Stdout, m: &mut [u8], out: &mut [u8]) -> Result<(), Failed>
    requires { room ≤ length out.old }
{
    let n = match read_input(input, m) {
        Ok(n) => n,
        Err(e) => {
            return Err(Failed::Input(e));
        }
    };
    let end = list::list(&m[..n], out);
    match output.write_all(&out[..end]) {
        Ok(()) => Ok(()),
        Err(e) => Err(Failed::Output(e)),
    }
}

fn main(rt: HostRuntime) -> Result<(), Failed> {
    let mut module = module_room();
    let mut room = listing_room();
    run(rt.stdin(), rt.stdout(), &mut module, &mut room)
}
