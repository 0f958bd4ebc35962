// The load program: seed and count from standard input, the records of their load to standard output, for the job program.
// All is put into one buffer and written at once. No contract can say which bytes standard input gives: on any reader and any writer whose bytes are
// known, what is written is the load that the input asks for, and a read or a write that fails ends the program with its error.
#![tactic(auto)]

ghost use Rattle.std.specs.Prelude.{◌≡◌, ◌<◌, length, take, IfOk, OnOk, IfSome};
ghost use Rattle.std.specs.Io.{ReadsAtMost};
ghost use Rattle.std.specs.Io.KnownBytes.{Appends, Consumes, IsAtEnd};
ghost use Rattle.load_spec.specs.Load.{longest, load_by};

use std::io;
use std::io::{Read, Write};

// Reads until the buffer is full or the input ends, and answers how many bytes came.
fn read_full<R: Read>(from: &mut R, buf: &mut [u8]) -> io::Result<usize>
    ensures within { ReadsAtMost result buf.new }
    ensures came { IfOk result (λ n. Consumes (R.remaining from.old) (R.remaining from.new) (take n buf.new)) }
    ensures ended { IfOk result (λ n. n < length buf.new → IsAtEnd (R.remaining from.new)) }
{
    let mut done = 0;
    // No `for`, and no `read_exact`: how often a read comes back is open, and that it was cut is no error here.
    while done < buf.len() {
        let n = from.read(&mut buf[done..])?;
        if n == 0 {
            break;
        }
        done += n;
    }
    Ok(done)
}

// Writes bytes, which have to be the load that an input asks for.
fn write_load<W: Write>(to: &mut W, input: &[u8], load: &[u8]) -> io::Result<()>
    requires { load.now ≡ load_by input.now }
    ensures { OnOk result (Appends (W.contents to.old) (W.contents to.new) (load_by input.now)) }
{
    to.write_all(load)
}

// Room for the longest load.
fn room() -> [u8; load_records::LONGEST]
    ensures { longest ≡ length result }
{
    [0u8; load_records::LONGEST]
}

// Reads what a load is asked by, and writes the load. Bytes behind the first 16 do not count.
fn run<R: Read, W: Write>(from: &mut R, to: &mut W) -> io::Result<()>
    ensures { OnOk result (IfSome (R.remaining from.old) (λ input. Appends (W.contents to.old) (W.contents to.new) (load_by input))) }
{
    let mut asked = [0u8; 16];
    let n = read_full(from, &mut asked)?;
    let input = &asked[..n];
    let mut out = room();
    let len = load_records::put_asked(input, &mut out);
    write_load(to, input, &out[..len])
}

fn main(rt: HostRuntime) -> io::Result<()> {
    run(&mut rt.stdin(), &mut rt.stdout())
}
