// Writes the header of a compiled table: the layout number, the settings, the counts and the places.
//
// A function that puts something writes it to dst from `at` on, and answers the place behind it.
#![tactic(auto)]

ghost use Rattle.std.specs.Prelude.{◌≡◌, ◌++◌, ◌+◌, ◌<◌, ◌≤◌, length};
ghost use Rattle.le.specs.Field.{put32};
ghost use Rattle.table.specs.Layout.{table_length, head_length, layout_number};
ghost use Rattle.table_layout.specs.Build.{settings_bytes, counts_bytes, places_bytes, places_of};
ghost use Rattle.table_layout.specs.Fits.{SettingsFit};
ghost use Rattle.table_write_rows.specs.Rows.{PutOf};
ghost use Rattle.table_write_head.specs.Head.{settings_of, counts_of, HeadFits};

use sheet::SheetAt;
use table::{Counts, LAYOUT_NUMBER, Places, Settings};
use table_write_rows::put_two;

// How many bytes the header and each row have, as the header counts.
const HEAD_LENGTH: u32 = table::HEAD_LENGTH as u32;

const EVENT_LENGTH: u32 = table::EVENT_LENGTH as u32;

const CLAUSE_LENGTH: u32 = table::CLAUSE_LENGTH as u32;

const WORD_LENGTH: u32 = table::WORD_LENGTH as u32;

// Writes v in four bytes.
fn put_four(dst: &mut [u8], at: usize, v: u32) -> usize
    requires { at + 4 ≤ length dst.old }
    ensures { PutOf 4 dst.old dst.new at (put32 v) result }
{
    le::put_u32(dst, at, v);
    at + 4
}

// The settings of a sheet.
fn settings_of(a: SheetAt) -> Settings
    requires { SettingsFit (settings_of a) }
    ensures { result ≡ settings_of a }
{
    Settings {
        interval: a.interval as u32,
        timeout: a.timeout as u32,
        stop: a.stop as u32,
        t0: a.t0 as u16,
        evening: a.evening as u16,
    }
}

// The counts of a sheet with so many keys and values.
fn counts_of(a: SheetAt, keys: usize, values: usize) -> Counts
    requires le_name { (2 ≤ a.name) × (a.name < a.symbol) }
    requires values_bound { (places_of (counts_of a keys values) 0 0 0).used ≤ table_length }
    ensures { result ≡ counts_of a keys values }
{
    Counts {
        events: a.events as u32,
        clauses: a.clauses as u32,
        keys: keys as u32,
        values: values as u32,
        name: (a.name - 2) as u32,
        symbol: (a.symbol - (a.name + 1)) as u32,
    }
}

// The places of the rows and the texts, one after another, where the events' names, the keys and the values are so long.
fn places_of(c: Counts, names: u32, keys: u32, values: u32) -> Places
    requires { (places_of c names keys values).used ≤ table_length }
    ensures { result ≡ places_of c names keys values }
{
    let clauses = HEAD_LENGTH + EVENT_LENGTH * c.events;
    let keyrows = clauses + CLAUSE_LENGTH * c.clauses;
    let valuerows = keyrows + WORD_LENGTH * c.keys;
    let texts = valuerows + WORD_LENGTH * c.values;
    let first = texts + c.name + c.symbol;
    let keytexts = first + names;
    let valuetexts = keytexts + keys;
    Places {
        events: HEAD_LENGTH,
        clauses,
        keys: keyrows,
        values: valuerows,
        texts,
        names: first,
        keytexts,
        valuetexts: valuetexts,
        used: valuetexts + values,
    }
}

// Writes the settings.
fn put_settings(dst: &mut [u8], at: usize, s: Settings) -> usize
    requires { at + 16 ≤ length dst.old }
    ensures { PutOf 16 dst.old dst.new at (settings_bytes s) result }
{
    let p = put_four(dst, at, s.interval);
    let p = put_four(dst, p, s.timeout);
    let p = put_four(dst, p, s.stop);
    let p = put_two(dst, p, s.t0);
    put_two(dst, p, s.evening)
}

// Writes the counts.
fn put_counts(dst: &mut [u8], at: usize, c: Counts) -> usize
    requires { at + 24 ≤ length dst.old }
    ensures { PutOf 24 dst.old dst.new at (counts_bytes c) result }
{
    let p = put_four(dst, at, c.events);
    let p = put_four(dst, p, c.clauses);
    let p = put_four(dst, p, c.keys);
    let p = put_four(dst, p, c.values);
    let p = put_four(dst, p, c.name);
    put_four(dst, p, c.symbol)
}

// Writes the places of the rows.
fn put_row_places(dst: &mut [u8], at: usize, q: Places) -> usize
    requires { at + 16 ≤ length dst.old }
    ensures { PutOf 16 dst.old dst.new at (put32 q.events ++ put32 q.clauses ++ put32 q.keys ++ put32 q.values) result }
{
    let p = put_four(dst, at, q.events);
    let p = put_four(dst, p, q.clauses);
    let p = put_four(dst, p, q.keys);
    put_four(dst, p, q.values)
}

// Writes all places.
fn put_places(dst: &mut [u8], at: usize, q: Places) -> usize
    requires { at + 36 ≤ length dst.old }
    ensures { PutOf 36 dst.old dst.new at (places_bytes q) result }
{
    let p = put_row_places(dst, at, q);
    let p = put_four(dst, p, q.texts);
    let p = put_four(dst, p, q.names);
    let p = put_four(dst, p, q.keytexts);
    let p = put_four(dst, p, q.valuetexts);
    put_four(dst, p, q.used)
}

// Writes the header of a sheet with so many keys and values, where the events' names, the keys and the values are so long.
pub fn put_head(
    dst: &mut [u8],
    at: usize,
    a: SheetAt,
    keys: usize,
    values: usize,
    names: usize,
    keytexts: usize,
    valuetexts: usize,
) -> usize
    requires head_fits { HeadFits a keys values names keytexts valuetexts }
    requires head_length_in_bounds { at + head_length ≤ length dst.old }
    ensures { PutOf head_length dst.old dst.new at (put32 layout_number ++ settings_bytes (settings_of a) ++ counts_bytes (counts_of a keys values) ++ places_bytes (places_of (counts_of a keys values) names keytexts valuetexts)) result }
{
    let c = counts_of(a, keys, values);
    let q = places_of(c, names as u32, keytexts as u32, valuetexts as u32);
    let p = put_four(dst, at, LAYOUT_NUMBER);
    let p = put_settings(dst, p, settings_of(a));
    let p = put_counts(dst, p, c);
    put_places(dst, p, q)
}
