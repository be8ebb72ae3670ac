// Asks what each line of standard input asks, and says which answers differ from the line's own.
#![tactic(auto)]

mod act;
mod answer;
mod judge;
mod question;
mod tally;
mod words;

ghost use Rattle.std.specs.Prelude.{◌≤◌, length};

use judge::judge;
use question::Lent;
use std::io;
use std::io::Read;
use tally::Tally;

// Room for all of the input.
const INPUT: usize = 4194304;

// Room for a result, and for no more than a line may name.
const ROOM: usize = 66064;

// Each line that has an end is counted, and said where it is not as it should be. A write that fails ends nothing: what else
// is said goes on.
fn take_lines(rt: &impl Print, input: &[u8], lent: &mut [Lent; 4], out: &mut [u8]) -> Tally {
    let mut tally = Tally::default();
    for line in input.split_inclusive(|b| *b == b'\n') {
        match line.strip_suffix(b"\n") {
            Some(line) => {
                let (act, fate) = judge(line, lent, out);
                tally.count(act, fate);
                if fate.is_wrong() {
                    let _ = println!(rt; "line {} {fate}", tally.lines());
                }
            }
            None => {
                let _ = println!(rt; "a line has no end");
            }
        }
    }
    tally
}

// Reads until the room is full, the input ends or a read fails: what then stands in it.
// cofferdrift has the like: two programs, and no crate between them for these few lines.
fn read_full<'a>(from: &mut impl Read, room: &'a mut [u8]) -> &'a [u8]
    ensures { length result.now ≤ length room.old }
{
    let most = room.len() as u64;
    let mut rest = &mut room[..];
    let _ = io::copy(&mut from.take(most), &mut rest);
    let left = rest.len();
    &room[..room.len().saturating_sub(left)]
}

// The arrays are made here once and lent down.
fn main(rt: HostRuntime) {
    let mut input = [0u8; INPUT];
    let mut lent = [Lent::new(), Lent::new(), Lent::new(), Lent::new()];
    let mut out = [0u8; ROOM];
    let input = read_full(&mut rt.stdin(), input.as_mut_slice());
    let tally = take_lines(&rt, input, &mut lent, &mut out);
    let _ = println!(rt; "{tally}");
}
