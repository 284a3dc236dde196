// The numbers that a sheet's keys have in a table. Each key is noted once, in a wordbook of its own, in the order of first use.
#![tactic(auto)]

ghost use Rattle.std.specs.Prelude.{◌≡◌, ◌+◌, ◌*◌, ◌/◌, ◌≤◌, length, drop};
ghost use Rattle.sheet.specs.Places.{clause_numbers, signal_at};
ghost use Rattle.table_wordbook.specs.Wordbook.{book_words};
ghost use Rattle.table_wordbook.specs.Read.{SameBuffers};
ghost use Rattle.table_codes.specs.Read.{clause_in, RowOk, RowsOk, Room, Open, KeyAdded, KeysNoted};

use sheet::CLAUSE_NUMBERS;
use signal::{SignalAt, put_key};
use table_wordbook::Wordbook;

// The signal of the clause whose numbers start at `at`.
fn signal_at(cs: &[u16], at: usize) -> SignalAt
    requires { at + clause_numbers ≤ length cs.now }
    ensures { result ≡ signal_at (drop at cs.now) }
{
    SignalAt {
        k1: cs[at + 2] as usize,
        k2: cs[at + 3] as usize,
        k3: cs[at + 4] as usize,
        v1: cs[at + 5] as usize,
        v2: cs[at + 6] as usize,
        v3: cs[at + 7] as usize,
        score: cs[at + 8] as u64,
    }
}

// Writes the key of clause i behind the last of the keys, and notes it: answered is its number.
fn note_key(s: &[u8], cs: &[u16], i: usize, texts: &mut [u8], keys: &mut Wordbook) -> u16
    requires row_ok { RowOk s.now cs.now i }
    requires room { Open (book_words texts.old keys.old) (length (clause_in s.now cs.now i).signal.key) }
    ensures same_buffers { SameBuffers keys.old keys.new }
    ensures added { KeyAdded (clause_in s.now cs.now i).signal.key (book_words texts.old keys.old) (book_words texts.new keys.new) result }
{
    let at = CLAUSE_NUMBERS * i;
    let from = cs[at + 1] as usize;
    let end = keys.words(texts).end();
    let to = put_key(texts, end, &s[from..], signal_at(cs, at));
    keys.note(texts, to)
}

// Notes the keys of m clauses, and writes their numbers.
pub fn note_keys(
    s: &[u8],
    cs: &[u16],
    m: usize,
    texts: &mut [u8],
    keys: &mut Wordbook,
    numbers: &mut [u16],
)
    requires rows_ok { RowsOk s.now cs.now m }
    requires room { Room (book_words texts.old keys.old) numbers.old m }
    ensures same_buffers { SameBuffers keys.old keys.new }
    ensures noted { KeysNoted s.now cs.now m (book_words texts.old keys.old) numbers.old (book_words texts.new keys.new) numbers.new }
{
    for i in 0..m {
        numbers[i] = note_key(s, cs, i, texts, keys);
    }
}
