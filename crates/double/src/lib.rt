// Doubles: whether one is finite, yields, rounding to a whole number, the stop test, days.
//
// Every operation rounds once, in the order in which it is written.
#![tactic(auto)]

ghost use Rattle.std.specs.Prelude.{◌≡◌, ◌<◌, ◌≤◌, ◌^◌};
ghost use Rattle.std.specs.Float.Ieee.Scale.{finite};
ghost use Rattle.std.specs.Int.Signed.{mag};
ghost use Rattle.double.specs.Double.{round_away, hold_yield, pair_yield, stop_hit, days_of};
ghost use Rattle.double.specs.Read.{near};
ghost use Rattle.double.specs.Double.{gain as Double·gain};

// The side of a position.
#[derive(Clone, Copy)]
pub enum Side {
    Long,
    Short,
}

// The yield of a hold or of a pair in basis points. An enum of its own: the form that the specification names for it.
#[derive(Clone, Copy)]
pub enum Yield {
    Absent,
    Bp(f64),
}

// Whether x is neither a NaN nor an infinity.
pub fn is_finite(x: f64) -> bool
    ensures { result ≡ finite x }
{
    x.is_finite()
}

// The whole number nearest to a magnitude with the exponent's field e and the digits t: ties go up.
fn nearest(e: u64, t: u64) -> u64
    requires fact_1 { e < 1075 }
    requires fact_2 { t < 2 ^ 52 }
    ensures { (result ≡ near e t) × (result ≤ 2 ^ 53) }
{
    if e < 1022 {
        return 0;
    }
    let q = ((4503599627370496 + t) >> (1074 - e)) + 1;
    q / 2
}

// x rounded to a whole number, ties away from zero, worked out from its bits: the form that the specification names for it, not std's `round`.
pub fn round_away(x: f64) -> f64
    ensures { result ≡ round_away x }
{
    if x != x {
        return x;
    }
    let b = f64::to_bits(x);
    let e = b % 9223372036854775808 / 4503599627370496;
    if 1075 <= e {
        return x;
    }
    let n = nearest(e, b % 4503599627370496);
    let r = n as f64;
    if b < 9223372036854775808 {
        return r;
    }
    -r
}

// The gain of p over q as a share of q.
fn gain(side: Side, p: f64, q: f64) -> f64
    ensures { result ≡ Double·gain side p q }
{
    match side {
        Side::Long => p / q - 1.0,
        Side::Short => 1.0 - p / q,
    }
}

// The yield of a hold at the price `own` when the next bar's price is `next`.
pub fn hold_yield(own: f64, next: f64) -> Yield
    ensures { result ≡ hold_yield own next }
{
    if own > 0.0 {
        Yield::Bp(gain(Side::Long, next, own) * 10000.0)
    } else {
        Yield::Absent
    }
}

// The yield of a pair, in hundredths of a basis point rounded.
pub fn pair_yield(side: Side, opening: f64, closing: f64) -> Yield
    ensures { result ≡ pair_yield side opening closing }
{
    if opening == 0.0 {
        Yield::Absent
    } else {
        Yield::Bp(round_away(gain(side, closing, opening) * 10000.0 * 100.0) / 100.0)
    }
}

// Whether the price has passed the stop, which is given in basis points: equality does not pass.
pub fn stop_hit(side: Side, stop: f64, reference: f64, price: f64) -> bool
    ensures { result ≡ stop_hit side stop reference price }
{
    gain(side, price, reference) < -stop / 10000.0
}

// Whole seconds as days.
pub fn days(seconds: i64) -> f64
    requires { mag seconds < 2 ^ 53 }
    ensures { result ≡ days_of seconds }
{
    seconds as f64 / 86400.0
}
