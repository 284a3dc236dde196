// Code only: the run program: reads a sheet, a line `-` and bars from standard input, and prints what each bar and the book then say.
#![tactic(auto)]

ghost use Rattle.std.specs.Prelude.{◌≡◌, length};
ghost use Rattle.std.specs.Io.{ReadsAtMost};

use run_text::{INPUT_ROOM, paper_out, run};
use std::io;
use std::io::Read;

// Room for an input, and to tell a longer one. Only the length is told, which lending asks for.
fn paper_in() -> [u8; INPUT_ROOM]
    ensures { 65537 ≡ length result }
{
    [0u8; INPUT_ROOM]
}

// Reads until `space` is full or the input ends, and answers how many bytes stand at its start then. A read that fails is the error.
fn read_full(reader: &mut impl Read, space: &mut [u8]) -> io::Result<usize>
    ensures { ReadsAtMost result space.new }
{
    let mut done = 0;
    while done < space.len() {
        let n = reader.read(&mut space[done..])?;
        if n == 0 {
            break;
        }
        done += n;
    }
    Ok(done)
}

fn main(rt: HostRuntime) -> io::Result<()> {
    let mut input = paper_in();
    let n = read_full(&mut rt.stdin(), &mut input)?;
    let mut out = paper_out();
    let k = run(&input[..n], &mut out);
    rt.write_all(&out[..k])
}
