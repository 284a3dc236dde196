// Code only: the codes that a sheet's values have in a table. Each value is noted once, in a wordbook of its own, in the order of first use.
#![tactic(auto)]

ghost use Rattle.std.specs.Prelude.{◌+◌, ◌*◌, ◌/◌, length};
ghost use Rattle.std.proofs.Math.Seq.{slice};
ghost use Rattle.text.specs.Read.{Part};
ghost use Rattle.table_wordbook.specs.Wordbook.{book_words};
ghost use Rattle.table_wordbook.specs.Read.{SameBuffers};
ghost use Rattle.table_codes.specs.Read.{value_in, RowOk, RowsOk, Room, Open, ValueAdded, ValuesCoded};

use sheet::CLAUSE_NUMBERS;
use signal::is_wild;
use table_wordbook::Wordbook;
use text::put_part;

// The code of the wildcard.
const WILD_CODE: u16 = table::WILD_CODE as u16;

// Writes the value in from..to of s behind the last of the values, and notes it: answered is its code, one more than its number. The
// wildcard has a code of its own and is not noted.
fn note_value(s: &[u8], from: usize, to: usize, texts: &mut [u8], values: &mut Wordbook) -> u16
    requires part { Part s.now from to }
    requires room { Open (book_words texts.old values.old) (length (slice from to s.now)) }
    ensures same_buffers { SameBuffers values.old values.new }
    ensures added { ValueAdded (slice from to s.now) (book_words texts.old values.old) (book_words texts.new values.new) result }
{
    if is_wild(s, from, to) {
        return WILD_CODE;
    }
    let end = values.words(texts).end();
    let behind = put_part(texts, end, s, from, to);
    values.note(texts, behind) + 1
}

// Notes value j: the first, second or third of clause j / 3. It stands between two of the clause's places, one next to the other.
#[tactic(auto, using(table_codes::proofs::Places::value_stands))]
fn note_value_at(s: &[u8], cs: &[u16], j: usize, texts: &mut [u8], values: &mut Wordbook) -> u16
    requires row_ok { RowOk s.now cs.now (j / 3) }
    requires room { Open (book_words texts.old values.old) (length (value_in s.now cs.now j)) }
    ensures same_buffers { SameBuffers values.old values.new }
    ensures added { ValueAdded (value_in s.now cs.now j) (book_words texts.old values.old) (book_words texts.new values.new) result }
{
    let at = CLAUSE_NUMBERS * (j / 3);
    let from = cs[at + 1] as usize;
    let before = at + 4 + j % 3;
    let a = from + cs[before] as usize + 1;
    let b = from + cs[before + 1] as usize;
    note_value(s, a, b, texts, values)
}

// Notes the values of m clauses, three each, and writes their codes.
pub fn note_values(
    s: &[u8],
    cs: &[u16],
    m: usize,
    texts: &mut [u8],
    values: &mut Wordbook,
    codes: &mut [u16],
)
    requires rows_ok { RowsOk s.now cs.now m }
    requires room { Room (book_words texts.old values.old) codes.old (3 * m) }
    ensures same_buffers { SameBuffers values.old values.new }
    ensures coded { ValuesCoded s.now cs.now m (book_words texts.old values.old) codes.old (book_words texts.new values.new) codes.new }
{
    for j in 0..3 * m {
        codes[j] = note_value_at(s, cs, j, texts, values);
    }
}
