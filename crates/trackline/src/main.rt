// trackline: all of standard input is one hire block. It prints the block's line, or `refused` with a space and the number; either ends
// with carriage return and line feed. `printed` is proved of what is put into the output for the bytes that were read; that these are all of
// standard input, and that the output arrives, is not: a read that fails counts as the end, and a write that fails goes unnoticed.
#![tactic(auto)]

mod output;

ghost use Rattle.std.specs.Prelude.{◌≡◌, ◌+◌, ◌≤◌, ◌++◌, length};
ghost use Rattle.limits.specs.Numbers.{paper_number};
ghost use Rattle.columns.specs.Text.{ended_length};
ghost use Rattle.trackline.specs.Printed.{refusal_text, printed};

use columns::LINE_LENGTH;
use limits::Refusal;
use output::Output;
use std::io::{Read, Stdin};

// One byte more than the longest block has, so that a longer input is noticed.
const INPUT: usize = 8379;

// Reads until the buffer is full, the input ends or a read fails, and gives how many bytes stand at the buffer's front.
// Kept: a loop, as a read may give less than is asked for, and read_to_end wants memory without a bound.
fn read_full(from: &mut Stdin, buffer: &mut [u8]) -> usize
    ensures { result ≤ length buffer.new }
{
    let mut done = 0;
    while done < buffer.len() {
        match from.read(&mut buffer[done..]) {
            Ok(0) | Err(_) => return done,
            Ok(n) => done += n,
        }
    }
    done
}

// `refused`, a space and the number, which has one or two digits.
fn put_refusal(refusal: Refusal, out: &mut Output)
    requires { length out.old + 10 ≤ ended_length }
    ensures { out.new ≡ out.old ++ refusal_text (paper_number refusal) }
{
    let number = u32::from(refusal);
    out.put(b"refused ");
    if 10 <= number {
        out.push(b'0' + (number / 10 % 10) as u8);
    }
    out.push(b'0' + (number % 10) as u8);
}

// All that is printed: the line of the block, or its refusal, with a line end.
fn reply(block: &[u8]) -> Output
    ensures { result ≡ printed block.now }
{
    let mut line = [0u8; LINE_LENGTH];
    let mut out = Output::new();
    match line::block(block, &mut line) {
        Ok(()) => out.put(&line),
        Err(refusal) => put_refusal(refusal, &mut out),
    }
    out.push(b'\r');
    out.push(b'\n');
    out
}

fn main(rt: HostRuntime) {
    let mut input = [0u8; INPUT];
    let n = read_full(&mut rt.stdin(), &mut input);
    let _ = rt.write_all(reply(&input[..n]).as_slice());
}
