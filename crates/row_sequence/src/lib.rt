// The sequence text of a pair row: both records' descriptions, joined by ` -> `.
#![tactic(auto)]

ghost use Rattle.std.specs.Prelude.{◌≡◌, true, [], ◌++◌, ◌+◌, ◌<◌, ◌≤◌, length, get_or};
ghost use Rattle.text.specs.Literal.{bytes};
ghost use Rattle.text.specs.Text.{begins};
ghost use Rattle.text.specs.Read.{Put};
ghost use Rattle.stop.specs.Stop.{stop_text};
ghost use Rattle.operate.specs.Operate.{latin as Operate·latin};
ghost use Rattle.sheet.specs.Sheet.{name_limit};
ghost use Rattle.position.specs.Rows.{close_name, tagged, event_tag, sequence_part, sequence_of};
ghost use Rattle.table.specs.Layout.{counts_in, parts_in};
ghost use Rattle.table.specs.Table.{is_table, sheet_of};
ghost use Rattle.row_sequence.specs.Named.{NamedIn};
ghost use Rattle.row_sequence.specs.Part.{part_limit, PartPut};

use operate::to_chinese;
use position::{Description, Record};
use row_names::event_text;
use stop::put_stop;
use table::read_settings;
use text::{contains, part_eq, put_byte, put_part};

// What parts a description's name from its tag.
const AT: u8 = 64;

// What ends an operate's spelling in an event's name.
const HASH: u8 = 35;

// The codes of the operates that a tag names.
const LO: u32 = operate::LO as u32;

const LE: u32 = operate::LE as u32;

const SO: u32 = operate::SO as u32;

const SE: u32 = operate::SE as u32;

// Whether desc starts with a spelling and `#`.
fn starts_with(desc: &[u8], spelling: &[u8]) -> bool
    ensures { result ≡ begins (spelling.now ++ bytes "#") desc.now }
{
    let n = spelling.len();
    n < desc.len() && desc[n] == HASH && part_eq(spelling, 0, n, desc, 0, n)
}

// Whether desc starts with either spelling of an operate and `#`.
fn is_tagged(desc: &[u8], latin: &[u8], code: u32) -> bool
    requires code_bound { code < 7 }
    requires latin_value { latin.now ≡ get_or Operate·latin code [] }
    ensures { result ≡ tagged code desc.now }
{
    starts_with(desc, latin) || starts_with(desc, &to_chinese(code))
}

// The tag of desc (the Rust's `event_tag_from_desc`).
fn event_tag(desc: &[u8]) -> &'static [u8]
    ensures { result.now ≡ event_tag desc.now }
{
    if is_tagged(desc, b"LO", LO) {
        b"LO"
    } else if is_tagged(desc, b"SO", SO) {
        b"SO"
    } else if is_tagged(desc, b"LE", LE) {
        b"LE"
    } else if is_tagged(desc, b"SE", SE) {
        b"SE"
    } else {
        b"is_match"
    }
}

// Writes an event's name with its tag to dst at `at` (the Rust's `format_event_desc_for_python`), and answers the place behind it.
fn put_event_desc(dst: &mut [u8], at: usize, desc: &[u8]) -> usize
    requires desc_len_bound { length desc.now ≤ name_limit }
    requires part_limit_in_bounds { at + part_limit ≤ length dst.old }
    ensures { PartPut dst.old dst.new at (sequence_part desc.now) result }
{
    let p = put_part(dst, at, desc, 0, desc.len());
    if contains(desc, AT) {
        return p;
    }
    let q = put_byte(dst, p, AT);
    let tag = event_tag(desc);
    put_part(dst, q, tag, 0, tag.len())
}

// Writes the name of a closing to dst at `at`, 平空 for SE and else 平多, and answers the place behind it.
fn put_close_name(dst: &mut [u8], at: usize, operate: u8) -> usize
    requires { at + 6 ≤ length dst.old }
    ensures { Put dst.old dst.new at (close_name operate) result }
{
    let code = if operate as u32 == SE { SE } else { LE };
    put_part(dst, at, &to_chinese(code), 0, 6)
}

// Writes the text of a closing by a stop or a timeout of h hundredths to dst at `at`, and answers the place behind it.
fn put_closing(dst: &mut [u8], at: usize, operate: u8, h: u64, unit: &[u8]) -> usize
    requires unit_len_bound { length unit.now ≤ 8 }
    requires part_limit_in_bounds { at + part_limit ≤ length dst.old }
    ensures { PartPut dst.old dst.new at (close_name operate ++ bytes "@" ++ stop_text h ++ unit.now) result }
{
    let p = put_close_name(dst, at, operate);
    let q = put_byte(dst, p, AT);
    let end = put_stop(dst, q, h);
    let k = unit.len();
    put_part(dst, end, unit, 0, k)
}

// Writes a record's part of the sequence to dst at `at`, and answers the place behind it.
fn put_description(dst: &mut [u8], at: usize, t: &[u8], r: Record) -> usize
    requires t_value { is_table t.now ≡ true }
    requires named_in { NamedIn (counts_in t.now).events r.description }
    requires part_limit_in_bounds { at + part_limit ≤ length dst.old }
    ensures { PartPut dst.old dst.new at (sequence_of (sheet_of (parts_in t.now)) r) result }
{
    match r.description {
        Description::Event(i) => put_event_desc(dst, at, event_text(t, i as usize)),
        Description::Stop => {
            let h = read_settings(t).stop as u64;
            put_closing(dst, at, r.operate, h, b"BP\xe6\xad\xa2\xe6\x8d\x9f")
        }
        Description::Timeout => {
            let h = 100 * (read_settings(t).timeout as u64);
            put_closing(dst, at, r.operate, h, b"K\xe8\xb6\x85\xe6\x97\xb6")
        }
    }
}

// Writes the sequence of a pair of records to dst at `at`, and answers the place behind it.
pub fn put_sequence(dst: &mut [u8], at: usize, t: &[u8], a: Record, b: Record) -> usize
    requires t_value { is_table t.now ≡ true }
    requires named_in { NamedIn (counts_in t.now).events a.description × NamedIn (counts_in t.now).events b.description }
    requires at_in_bounds { at + 1024 ≤ length dst.old }
    ensures { Put dst.old dst.new at (sequence_of (sheet_of (parts_in t.now)) a ++ bytes " -> " ++ sequence_of (sheet_of (parts_in t.now)) b) result }
{
    let p = put_description(dst, at, t, a);
    let q = put_part(dst, p, b" -> ", 0, 4);
    put_description(dst, q, t, b)
}
