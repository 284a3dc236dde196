// The compiled table: the values of its header and of its rows, and reading them. Which bytes are a table and which sheet they mean
// are definitions (specs/).
#![tactic(auto)]

ghost use Rattle.std.specs.Prelude.{◌≡◌, ◌+◌, ◌*◌, ◌≤◌, length};
ghost use Rattle.table.specs.Layout.{head_length, event_length, clause_length, word_length, layout_in, settings_in, counts_in, places_in, word_text};
ghost use Rattle.table.specs.Read.{EventAt, ClauseAt, WordAt};

use le::{get_u16, get_u32};

// The lengths of a table, of its header and of the rows of each kind.
pub const TABLE_LENGTH: usize = 32768;

pub const HEAD_LENGTH: usize = 80;

pub const EVENT_LENGTH: usize = 12;

pub const CLAUSE_LENGTH: usize = 12;

pub const WORD_LENGTH: usize = 8;

// The number with which a table begins: another layout has another one.
pub const LAYOUT_NUMBER: u32 = 0xff00_0002;

// The code of the wildcard among a clause's values: -1 in 16 bits.
pub const WILD_CODE: usize = 65535;

// The settings of a position.
#[derive(Clone, Copy)]
pub struct Settings {
    pub interval: u32,
    pub timeout: u32,
    pub stop: u32,
    pub t0: u16,
    pub evening: u16,
}

// How many rows of each kind there are, and the lengths of the position's name and symbol.
#[derive(Clone, Copy)]
pub struct Counts {
    pub events: u32,
    pub clauses: u32,
    pub keys: u32,
    pub values: u32,
    pub name: u32,
    pub symbol: u32,
}

// Where the rows of each kind start, then the texts: the position's, the events' names, the keys, the values; and the end.
#[derive(Clone, Copy)]
pub struct Places {
    pub events: u32,
    pub clauses: u32,
    pub keys: u32,
    pub values: u32,
    pub texts: u32,
    pub names: u32,
    pub keytexts: u32,
    pub valuetexts: u32,
    pub used: u32,
}

// An event: its kind (0 opening or 1 exit, and twice the lots beyond the first), its operate, where its name stands, and its clauses among all
// clauses.
#[derive(Clone, Copy)]
pub struct EventRow {
    pub kind: u16,
    pub operate: u16,
    pub at: u16,
    pub len: u16,
    pub first: u16,
    pub count: u16,
}

// A clause: 0 all, 1 any or 2 not, the number of its key, the codes of its values, its score.
#[derive(Clone, Copy)]
pub struct ClauseRow {
    pub kind: u16,
    pub key: u16,
    pub v1: u16,
    pub v2: u16,
    pub v3: u16,
    pub score: u16,
}

// A key or a value: where its text stands; its rank among the texts; and the number of the text that has this row's number as its rank.
#[derive(Clone, Copy)]
pub struct WordRow {
    pub at: u16,
    pub len: u16,
    pub rank: u16,
    pub order: u16,
}

// The number with which t begins.
#[tactic(auto, unfolding(crate::specs::Layout::layout_in))]
pub fn read_layout(t: &[u8]) -> u32
    requires { head_length ≤ length t.now }
    ensures { result ≡ layout_in t.now }
{
    get_u32(t, 0)
}

// The settings in the header of t.
#[tactic(auto, unfolding(crate::specs::Layout::settings_in))]
pub fn read_settings(t: &[u8]) -> Settings
    requires { head_length ≤ length t.now }
    ensures { result ≡ settings_in t.now }
{
    Settings {
        interval: get_u32(t, 4),
        timeout: get_u32(t, 8),
        stop: get_u32(t, 12),
        t0: get_u16(t, 16),
        evening: get_u16(t, 18),
    }
}

// The counts in the header of t.
#[tactic(auto, unfolding(crate::specs::Layout::counts_in))]
pub fn read_counts(t: &[u8]) -> Counts
    requires { head_length ≤ length t.now }
    ensures { result ≡ counts_in t.now }
{
    Counts {
        events: get_u32(t, 20),
        clauses: get_u32(t, 24),
        keys: get_u32(t, 28),
        values: get_u32(t, 32),
        name: get_u32(t, 36),
        symbol: get_u32(t, 40),
    }
}

// The places in the header of t.
#[tactic(auto, unfolding(crate::specs::Layout::places_in))]
pub fn read_places(t: &[u8]) -> Places
    requires { head_length ≤ length t.now }
    ensures { result ≡ places_in t.now }
{
    Places {
        events: get_u32(t, 44),
        clauses: get_u32(t, 48),
        keys: get_u32(t, 52),
        values: get_u32(t, 56),
        texts: get_u32(t, 60),
        names: get_u32(t, 64),
        keytexts: get_u32(t, 68),
        valuetexts: get_u32(t, 72),
        used: get_u32(t, 76),
    }
}

// Event number i of the rows.
#[tactic(auto, using(crate::proofs::Rows::event_is))]
pub fn event_at(rows: &[u8], i: usize) -> EventRow
    requires { event_length * i + event_length ≤ length rows.now }
    ensures { EventAt rows.now i result }
{
    let p = EVENT_LENGTH * i;
    EventRow {
        kind: get_u16(rows, p),
        operate: get_u16(rows, p + 2),
        at: get_u16(rows, p + 4),
        len: get_u16(rows, p + 6),
        first: get_u16(rows, p + 8),
        count: get_u16(rows, p + 10),
    }
}

// Clause number i of the rows.
#[tactic(auto, using(crate::proofs::Rows::clause_is))]
pub fn clause_at(rows: &[u8], i: usize) -> ClauseRow
    requires { clause_length * i + clause_length ≤ length rows.now }
    ensures { ClauseAt rows.now i result }
{
    let p = CLAUSE_LENGTH * i;
    ClauseRow {
        kind: get_u16(rows, p),
        key: get_u16(rows, p + 2),
        v1: get_u16(rows, p + 4),
        v2: get_u16(rows, p + 6),
        v3: get_u16(rows, p + 8),
        score: get_u16(rows, p + 10),
    }
}

// Key or value number i of the rows.
#[tactic(auto, using(crate::proofs::Rows::word_is))]
pub fn word_at(rows: &[u8], i: usize) -> WordRow
    requires { word_length * i + word_length ≤ length rows.now }
    ensures { WordAt rows.now i result }
{
    let p = WORD_LENGTH * i;
    WordRow {
        at: get_u16(rows, p),
        len: get_u16(rows, p + 2),
        rank: get_u16(rows, p + 4),
        order: get_u16(rows, p + 6),
    }
}

// The text of a key or a value among the texts.
#[tactic(auto, using(le::proofs::Laws::part_lent), unfolding(crate::specs::Layout::word_text))]
pub fn word_text(texts: &[u8], w: WordRow) -> &[u8]
    requires { w.at + w.len ≤ length texts.now }
    ensures { result.now ≡ word_text texts.now w }
{
    let at = w.at as usize;
    &texts[at..at + w.len as usize]
}
