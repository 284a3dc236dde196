// A bar's line with its revision: what it says, or why it is refused.
#![tactic(auto)]

ghost use Rattle.std.specs.Prelude.{◌≡◌, ◌≤◌, length};
ghost use Rattle.std.proofs.Math.Seq.{slice};
ghost use Rattle.text.specs.Read.{Part};
ghost use Rattle.text.specs.Text.{pipe, split};
ghost use Rattle.revise.specs.Places.{LineEnd};
ghost use Rattle.revise_first.specs.First.{FirstAs, FieldsAs, RangedAs, LastPipe, RevisionAs};

use bar::{Bar, BarNumbers};
use revise_line::is_bar;
use text::{LF, PIPE, count_parts};
use text_number::decimal;

// A bar with its revision.
#[derive(Clone, Copy)]
pub struct Revised {
    pub bar: Bar,
    pub revision: u32,
}

// Why a bar's line is refused.
#[derive(Clone, Copy)]
pub enum FirstError {
    Malformed,
    BadNumber,
    BadBar,
}

// The place of the last `|` of s in from..to, where there is one.
fn last_pipe(s: &[u8], from: usize, to: usize) -> usize
    requires part { Part s.now from to }
    requires in_bounds { 2 ≤ length (split pipe (slice from to s.now)) }
    ensures { LastPipe s.now from to result }
{
    for i in (from..to).rev() {
        if s[i] == PIPE {
            return i;
        }
    }
    from
}

// The revision that s has in from..to: 1 to 10 digits of a u32.
fn read_revision(s: &[u8], from: usize, to: usize) -> Option<u32>
    requires { Part s.now from to }
    ensures { RevisionAs (slice from to s.now) result }
{
    let v = decimal(s, from, to, 10)?;
    if 4_294_967_295 < v {
        return None;
    }
    Some(v as u32)
}

// The bar of four numbers, with its revision.
fn in_range(b: BarNumbers, revision: u32) -> Result<Revised, FirstError>
    ensures { RangedAs b revision result }
{
    let bar = book_feed_input::read_bar(b.id, b.instant, b.offset, b.price).ok_or(
        FirstError::BadBar,
    )?;
    Ok(Revised { bar, revision })
}

// The bar and the revision whose five fields s has in from..to, behind `B|`.
fn read_fields(s: &[u8], from: usize, to: usize) -> Result<Revised, FirstError>
    requires part { Part s.now from to }
    requires s_len { length (split pipe (slice from to s.now)) ≡ 5 }
    ensures { FieldsAs (slice from to s.now) result }
{
    let last = last_pipe(s, from, to);
    let b = run_input::read_bar(s, from, last).ok_or(FirstError::BadNumber)?;
    let revision = read_revision(s, last + 1, to).ok_or(FirstError::BadNumber)?;
    in_range(b, revision)
}

// What the line of s in at..end says as a bar's line.
pub fn read_first(s: &[u8], at: usize, end: usize) -> Result<Revised, FirstError>
    requires { LineEnd s.now at end }
    ensures { FirstAs (slice at end s.now) result }
{
    let last = end - 1;
    if !is_bar(s, at, end) || s[last] != LF || count_parts(s, at, last, PIPE) != 6 {
        return Err(FirstError::Malformed);
    }
    read_fields(s, at + 2, last)
}
