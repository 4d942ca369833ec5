// The session program: reads records, takes turns, writes lines. What a record means is decided in `reading`, what it leaves and prints in `records`.
#![tactic(auto)]

ghost use Rattle.std.specs.Prelude.{◌≤◌, IfOk, length};

use reading::{LONGEST_RECORD, Session};
use std::io;
use std::io::{Read, Write};
use transcript::{Catalogue, Desk, ENTRIES, IDS, Lists, MARKS, STARTS, TEXT, WORDS};

fn main(rt: HostRuntime) -> io::Result<()> {
    let mut buf = [0u8; LONGEST_RECORD];
    let mut desk = Desk {
        catalogue: Catalogue {
            stars: [0; ENTRIES],
            codes: [0; WORDS],
            starts: [0; STARTS],
            ids: [0; IDS],
        },
        lists: Lists {
            marks: [0; MARKS],
            entries: [0; ENTRIES],
            distances: [0; ENTRIES],
        },
    };
    let mut out = [0u8; TEXT];
    run(
        &mut rt.stdin(),
        &mut rt.stdout(),
        &mut buf,
        &mut desk,
        &mut out,
    )
}

// The turns, to the last; a read or a write that fails ends them.
fn run(
    input: &mut impl Read,
    output: &mut impl Write,
    buf: &mut [u8; LONGEST_RECORD],
    desk: &mut Desk,
    out: &mut [u8; TEXT],
) -> io::Result<()> {
    let mut session = Session::start();
    loop {
        let got = read_record(input, buf)?;
        let turned = records::turn(session, &buf[..got], desk, out);
        output.write_all(&out[..turned.written])?;
        match turned.next {
            Some(next) => session = next,
            None => return Ok(()),
        }
    }
}

// Reads the next record, or what the input still has of it, to the front of buf, and returns how many bytes, as read_full does.
fn read_record(input: &mut impl Read, buf: &mut [u8; LONGEST_RECORD]) -> io::Result<usize>
    ensures { IfOk result (λ n. n ≤ LONGEST_RECORD) }
{
    let got = read_full(input, &mut buf[..4])?;
    let n = reading::body_length(&buf[..got]);
    if n == 0 {
        return Ok(got);
    }
    let end = 4 + n;
    let more = read_full(input, &mut buf[4..end])?;
    Ok(got + more)
}

// Reads until buf is full or the input ends, and returns how many bytes it put at the front of buf.
// By hand: std's read_exact does not say how many bytes came before the input's end.
fn read_full(input: &mut impl Read, buf: &mut [u8]) -> io::Result<usize>
    ensures { IfOk result (λ n. n ≤ length buf.new) }
{
    let mut done = 0;
    while done < buf.len() {
        let n = input.read(&mut buf[done..])?;
        if n == 0 {
            break;
        }
        done += n;
    }
    Ok(done)
}
