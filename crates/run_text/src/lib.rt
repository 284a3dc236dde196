// The run program's work: from the bytes of its input to the bytes that it prints.
#![tactic(auto)]

ghost use Rattle.std.specs.Prelude.{◌≡◌, ◌≤◌, length, replicate};
ghost use Rattle.text.specs.Read.{Put};
ghost use Rattle.position.specs.Run.{run_do};
ghost use Rattle.run_feed.specs.Steps.{output_room};
ghost use Rattle.run_bars.specs.Steps.{RanAs};
ghost use Rattle.run_text.specs.declared.RunError.TheVariants as RunError;
ghost use Rattle.run_text.specs.Refused.{run_refusal};

use run_bars::{INPUT_LIMIT, run_bars};
use run_input::{InputError, find_dash};
use run_output::put_refusal;
use table::TABLE_LENGTH;
use table_compile::{CompileError, compile};
use text::clear;

// The most bytes of an input, and one more, so that a longer one is told.
pub const INPUT_ROOM: usize = INPUT_LIMIT + 1;

// The bytes of room for every output.
pub const OUTPUT_ROOM: usize = 2_500_000;

// Why an input is refused: it is too long, its lines are, or its sheet is.
#[derive(Clone, Copy)]
enum RunError {
    PastLimit,
    Input(InputError),
    Compile(CompileError),
}

impl RunError {
    // The number of the answer.
    fn number(self) -> u32
        ensures { result ≡ run_refusal self }
    {
        match self {
            RunError::PastLimit => 7,
            RunError::Input(e) => e.number(),
            RunError::Compile(e) => e.number(),
        }
    }
}

impl From<InputError> for RunError {
    ghost from_gives = { λ e r. r ≡ RunError.Input e };

    fn from(e: InputError) -> RunError {
        RunError::Input(e)
    }
}

impl From<CompileError> for RunError {
    ghost from_gives = { λ e r. r ≡ RunError.Compile e };

    fn from(e: CompileError) -> RunError {
        RunError::Compile(e)
    }
}

// Zeros for every output. Only the length is told, which lending asks for.
pub fn paper_out() -> [u8; OUTPUT_ROOM]
    ensures { output_room ≡ length result }
{
    [0u8; OUTPUT_ROOM]
}

// Reads the input, compiles its sheet, and runs its bars.
fn run_sheet(s: &[u8], out: &mut [u8]) -> Result<usize, RunError>
    requires out_value { out.old ≡ replicate (length out.old) 0 }
    requires output_room_in_bounds { output_room ≤ length out.old }
    ensures { RanAs run_refusal s.now out.old out.new result }
{
    if INPUT_LIMIT < s.len() {
        return Err(RunError::PastLimit);
    }
    let p = find_dash(s).ok_or(InputError::Malformed)?;
    let mut table = [0u8; TABLE_LENGTH];
    compile(&s[..p], &mut table)?;
    Ok(run_bars(&table, s, p + 2, out)?)
}

// Writes to the start of `out` what the run program prints for the input s, zeros behind it, and answers how many bytes that is.
pub fn run(s: &[u8], out: &mut [u8]) -> usize
    requires { output_room ≤ length out.old }
    ensures { Put (replicate (length out.old) 0) out.new 0 (run_do s.now) result }
{
    clear(out);
    match run_sheet(s, out) {
        Ok(n) => n,
        Err(e) => {
            clear(out);
            put_refusal(out, 0, e.number())
        }
    }
}
