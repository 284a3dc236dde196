// The machine's step: what an accepted bar does to the header, rule by rule, after the Rust's `update_profiled_with_signal_map`.
#![tactic(auto)]

ghost use Rattle.std.specs.Prelude.{◌≡◌};
ghost use Rattle.position.specs.Step.{settle as Step·settle, held_lots, new_hold};
ghost use Rattle.position_machine.specs.Update.{going_of};

use bar::Bar;
use double::{Yield, hold_yield};
use position::{Head, Hold, Pos, Record};

pub mod step;

// The header after a bar, the lots of its position, and what the bar wrote.
#[derive(Clone, Copy)]
pub struct Update {
    pub head: Head,
    pub lots: u16,
    pub wrote: Option<Record>,
}

// The last hold with its yield up to the bar.
#[tactic(auto, unfolding(position::specs::Step::settle))]
pub fn settle(bar: Bar, o: Hold) -> Hold
    ensures { result ≡ Step·settle bar o }
{
    Hold {
        n1b: hold_yield(o.price, bar.price),
        ..o
    }
}

// The lots of a hold at a position: 0 when Flat.
pub fn held_lots(pos: Pos, lots: u16) -> u16
    ensures { result ≡ held_lots pos lots }
{
    match pos {
        Pos::Flat => 0,
        Pos::Short | Pos::Long => lots,
    }
}

// The bar's hold, whose yield is absent.
#[tactic(auto, unfolding(position::specs::Step::new_hold))]
pub fn new_hold(bar: Bar, u: Update) -> Hold
    ensures { result ≡ new_hold bar (going_of u) }
{
    let pos = u.head.pos;
    Hold {
        time: bar.time,
        pos,
        price: bar.price,
        n1b: Yield::Absent,
        lots: held_lots(pos, u.lots),
    }
}
