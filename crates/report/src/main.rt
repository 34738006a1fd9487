// The report program: reads a card on standard input and prints what document 01 lays down.
// What it prints is worked out by `reporting::report`; here the card is read and the text written.
#![tactic(auto)]

ghost use Rattle.std.specs.Prelude.{◌≤◌, length};

use std::io;
use std::io::Read;

// Reads until the buffer is full, the input ends or a read fails, and answers how many bytes stand at its front.
fn read_full(input: &mut impl Read, buffer: &mut [u8]) -> usize
    ensures { result ≤ length buffer.new }
{
    let mut done = 0;
    while done < buffer.len() {
        match input.read(&mut buffer[done..]) {
            Ok(0) => break,
            Ok(n) => done += n,
            Err(_) => break,
        }
    }
    done
}

fn main(rt: HostRuntime) -> io::Result<()> {
    let mut input = [0u8; reporting::INPUT_LIMIT + 1];
    let n = read_full(&mut rt.stdin(), &mut input);
    let answer = reporting::report(&input[..n]);
    rt.write_all(&answer.bytes[..answer.length])
}
