// Whether the header of a table is right: its settings, its counts and its places.
#![tactic(auto)]

ghost use Rattle.std.specs.Prelude.{◌≡◌, ◌+◌, ◌<◌, eqb};
ghost use Rattle.table.specs.Table.{settings_ok, counts_ok, places_ok, head_ok};
ghost use Rattle.table_check_head.specs.Check.{Few};

use sheet::{
    CLAUSE_LIMIT, EVENING_LIMIT, EVENT_LIMIT, INTERVAL_LIMIT, NAME_LIMIT, STOP_LIMIT, T0_LIMIT,
    TIMEOUT_LIMIT,
};
use table::{
    CLAUSE_LENGTH, Counts, EVENT_LENGTH, HEAD_LENGTH, LAYOUT_NUMBER, Places, Settings,
    TABLE_LENGTH, WORD_LENGTH, read_counts, read_layout, read_places, read_settings,
};

// Whether the settings are in range.
#[tactic(auto, unfolding(text::specs::Conditions::all_of, table::specs::Table::settings_ok))]
fn settings_ok(s: Settings) -> bool
    ensures { result ≡ settings_ok s }
{
    s.interval as u64 <= INTERVAL_LIMIT
        && s.timeout as u64 <= TIMEOUT_LIMIT
        && s.stop as u64 <= STOP_LIMIT
        && s.t0 as u64 <= T0_LIMIT
        && s.evening as u64 <= EVENING_LIMIT
}

// Whether the counts are in range.
#[tactic(auto, unfolding(text::specs::Conditions::all_of, table::specs::Table::counts_ok))]
fn counts_ok(c: Counts) -> bool
    ensures { result ≡ counts_ok c }
{
    c.events as usize <= EVENT_LIMIT
        && c.clauses as usize <= CLAUSE_LIMIT
        && c.keys as usize <= CLAUSE_LIMIT
        && c.values as usize <= 3 * CLAUSE_LIMIT
        && c.name as usize <= NAME_LIMIT
        && c.symbol as usize <= NAME_LIMIT
}

// Whether a and n bytes more end at b.
fn ends_at(a: u32, n: usize, b: u32) -> bool
    requires { n < 65536 }
    ensures { result ≡ eqb b (a + n) }
{
    b as usize == a as usize + n
}

// Whether the places follow each other.
#[tactic(auto, unfolding(text::specs::Conditions::all_of, table::specs::Table::places_ok))]
fn places_ok(c: Counts, p: Places) -> bool
    requires { Few c }
    ensures { result ≡ places_ok c p }
{
    p.events as usize == HEAD_LENGTH
        && ends_at(p.events, EVENT_LENGTH * c.events as usize, p.clauses)
        && ends_at(p.clauses, CLAUSE_LENGTH * c.clauses as usize, p.keys)
        && ends_at(p.keys, WORD_LENGTH * c.keys as usize, p.values)
        && ends_at(p.values, WORD_LENGTH * c.values as usize, p.texts)
        && ends_at(p.texts, c.name as usize + c.symbol as usize, p.names)
        && p.names <= p.keytexts
        && p.keytexts <= p.valuetexts
        && p.valuetexts <= p.used
        && p.used as usize <= TABLE_LENGTH
}

// Whether the header of t is right.
#[tactic(auto, using(crate::proofs::Heads::few), unfolding(text::specs::Conditions::all_of, table::specs::Table::head_ok))]
pub fn head_ok(t: &[u8]) -> bool
    ensures { result ≡ head_ok t.now }
{
    t.len() == TABLE_LENGTH
        && read_layout(t) == LAYOUT_NUMBER
        && settings_ok(read_settings(t))
        && counts_ok(read_counts(t))
        && places_ok(read_counts(t), read_places(t))
}
