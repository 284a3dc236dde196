// Code only: runs the stored set. For each case standard input has a line with its length in bytes and then the bytes, an input of the run
// program; what the run program prints for each is printed, one behind another.
#![tactic(auto)]

ghost use Rattle.std.specs.Prelude.{◌≡◌, ◌≤◌, length};
ghost use Rattle.run_feed.specs.Steps.{output_room};

use run_text::{paper_out, run};
use std::io;
use test_console::input::read_full;
use test_console::show;
use text::{LF, find};
use text_number::decimal;

// Room for the stored set.
const SET_ROOM: usize = 2_000_000;

// Only the length is told, which lending asks for.
fn paper_in() -> [u8; SET_ROOM]
    ensures { 2000000 ≡ length result }
{
    [0u8; SET_ROOM]
}

// Runs one case, and prints what it says.
fn case(rt: &impl Print, input: &[u8], out: &mut [u8]) -> io::Result<()>
    requires { output_room ≤ length out.old }
    ensures { length out.new ≡ length out.old }
{
    let k = run(input, out);
    show::text(rt, &out[..k])
}

// Runs each case of s. A malformed length ends it, and what is expected of the later cases is then missing.
fn cases(rt: &impl Print, s: &[u8], out: &mut [u8]) -> io::Result<()>
    requires { output_room ≤ length out.old }
{
    let n = s.len();
    let mut at = 0;
    while at < n {
        let end = find(s, at, n, LF);
        if end == n {
            return Ok(());
        }
        let Some(size) = decimal(s, at, end, 10) else {
            return Ok(());
        };
        let from = end + 1;
        let length = size as usize;
        if n - from < length {
            return Ok(());
        }
        at = from + length;
        case(rt, &s[from..at], out)?;
    }
    Ok(())
}

fn main(rt: HostRuntime) -> io::Result<()> {
    let mut set = paper_in();
    let n = read_full(&mut rt.stdin(), &mut set)?;
    let mut out = paper_out();
    cases(&rt, &set[..n], &mut out)
}
