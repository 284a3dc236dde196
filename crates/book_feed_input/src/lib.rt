// What a step is given: the bar of four numbers, and the choice that a match stands for.
#![tactic(auto)]

ghost use Rattle.std.specs.Prelude.{◌≡◌, true};
ghost use Rattle.bar.specs.Bar.{between};
ghost use Rattle.table.specs.Layout.{counts_in, parts_in};
ghost use Rattle.table.specs.Table.{is_table, sheet_of};
ghost use Rattle.table_match.specs.First.{Below};
ghost use Rattle.position.specs.Step.{choice_of};
ghost use Rattle.book_feed_input.specs.Bars.{BarAs};

use bar::{Bar, Instant, LAST_INSTANT, Time};
use double::is_finite;
use operate::HO;
use position::Choice;
use table::{event_at, read_places};

// The ranges of the fields, as numbers of 64 bits.
const LAST_ID: i64 = bar::LAST_ID as i64;

const LAST_OFFSET: i64 = bar::LAST_OFFSET as i64;

const FIRST_OFFSET: i64 = -LAST_OFFSET;

// Whether z is in lo..hi, both included.
fn within(lo: i64, hi: i64, z: i64) -> bool
    ensures { result ≡ between lo hi z }
{
    (lo..=hi).contains(&z)
}

// The bar of four numbers.
pub fn read_bar(id: i64, instant: i64, offset: i64, price: f64) -> Option<Bar>
    ensures { BarAs id instant offset price result }
{
    let fits = within(0, LAST_ID, id)
        && within(0, LAST_INSTANT, instant)
        && within(FIRST_OFFSET, LAST_OFFSET, offset)
        && is_finite(price);
    if !fits {
        return None;
    }
    Some(Bar {
        id: id as u32,
        time: Time {
            instant: Instant(instant),
            offset: offset as i32,
        },
        price,
    })
}

// The choice that a match over an accepted table stands for: HO where nothing matches.
pub fn choose(t: &[u8], m: Option<usize>) -> Choice
    requires t_value { is_table t.now ≡ true }
    requires below { Below (counts_in t.now).events m }
    ensures { result ≡ choice_of (sheet_of (parts_in t.now)).events m }
{
    let Some(i) = m else {
        return Choice {
            operate: HO,
            event: 0,
            lots: 0,
        };
    };
    let p = read_places(t);
    let e = event_at(&t[p.events as usize..p.clauses as usize], i);
    Choice {
        operate: e.operate as u8,
        event: i as u16,
        lots: e.kind / 2 + 1,
    }
}
