// Standard input: command byte, count byte, then what came over the line. Prints what the reply says.
#![tactic(auto)]

ghost use Rattle.reply.specs.Input.{OfSomeInput};

use reply::Input;
use std::env::{Env, FillError};
use std::io::{IsTerminal, Read, Stdin, Write};
use usage::usage;

mod usage;

// Reads to the end of the input, which a read that fails ends too. A proved loop has to end, and nothing says that an input does:
// so it ends at a number of turns that no run takes.
fn read_all(mut stdin: Stdin, frames: &mut [u8; 1105], buffer: &mut [u8]) -> Input
    ensures { OfSomeInput result frames.new }
{
    let mut input = reply::begin();
    for _ in 0..u64::MAX {
        let n = stdin.read(buffer).unwrap_or(0);
        if n == 0 {
            break;
        }
        input = reply::push(frames, input, &buffer[..n]);
    }
    input
}

fn main(rt: HostRuntime) {
    // Argument 0 is the program's own name.
    let has_argument = !matches!(rt.arg(1, &mut [0]), Err(FillError::NotPresent));
    // A terminal is not read either: it takes some bytes for keys and changes others, so that a capture would not come whole.
    if has_argument || rt.stdin().is_terminal() {
        let _ = rt.stderr().write_all(usage());
        return;
    }
    // Arrays of fixed size, here and below: there is no heap.
    let mut frames = [0u8; 1105];
    let mut buffer = [0u8; 65536];
    let input = read_all(rt.stdin(), &mut frames, &mut buffer);
    let mut out = [0u8; 8192];
    let n = reply::print(&frames, input, &mut out);
    // A write that fails ends the program quietly. So does one to a pipe that nobody reads any more: from its start on a program
    // ignores the signal by which the system would end it there.
    let _ = rt.stdout().write_all(&out[..n]);
}
