// The event that an entry's signals choose, kept as a number until the entry is fed.
#![tactic(auto)]

ghost use Rattle.std.specs.Prelude.{◌≡◌, true};
ghost use Rattle.event_find.specs.Places.{lines_at, LinesOk};
ghost use Rattle.table.specs.Table.{is_table};
ghost use Rattle.revise_match.specs.Matched.{match_in, MatchedAt};

use table_match::first_match;

// What stands for no event.
const NOTHING: u16 = 65535;

// The number of the first match over an accepted table.
pub fn match_code(
    t: &[u8],
    s: &[u8],
    starts: &[usize],
    mids: &[usize],
    prints: &[u16],
    n: usize,
) -> u16
    requires t_value { is_table t.now ≡ true }
    requires lines_ok { LinesOk s.now starts.now mids.now prints.now n }
    ensures { MatchedAt t.now result (lines_at s.now starts.now mids.now n) }
{
    match first_match(t, s, starts, mids, prints, n) {
        Some(i) => i as u16,
        None => NOTHING,
    }
}

// The match that a number stands for.
pub fn match_of(code: u16) -> Option<usize>
    ensures { result ≡ match_in code }
{
    if code == NOTHING {
        None
    } else {
        Some(code as usize)
    }
}
