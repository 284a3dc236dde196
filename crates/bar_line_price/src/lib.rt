// The price of a line of the exchange's comma file, read: digits, perhaps a point and more digits.
#![tactic(auto)]

ghost use Rattle.std.specs.Prelude.{◌≡◌, true, ◌+◌, ◌*◌, ◌^◌, ◌≤◌, ◌++◌, length};
ghost use Rattle.text.specs.Conditions.{every};
ghost use Rattle.double.specs.Double.{whole, ◌÷◌};
ghost use Rattle.bar_line.specs.Line.{price_of};
ghost use Rattle.bar_line_price.specs.Read.{price_read_of, is_digit, are_digits, Continued, priced};

use text::find;

// Why a text is no price: too many digits, or another form.
#[derive(Clone, Copy)]
pub enum PriceError {
    Long,
    Bad,
}

// The most digits of a price, and of those the most behind its point.
const DIGITS_LIMIT: usize = 15;

const BEHIND_LIMIT: usize = 6;

// Whether s is one or more digits, however many.
fn are_digits(s: &[u8]) -> bool
    ensures { result ≡ are_digits s.now }
{
    !s.is_empty() && s.iter().all(|b| b.is_ascii_digit())
}

// The value v with the digits of s behind it.
fn digits_behind(s: &[u8], v: u64) -> u64
    requires digits { every is_digit s.now ≡ true }
    requires few { (v + 1) * 10 ^ length s.now ≤ 10 ^ 15 }
    ensures { Continued s.now v result }
{
    let mut w = v;
    for b in s {
        w = w * 10 + u64::from(*b - b'0');
    }
    w
}

// A power of ten, up to a million.
fn power(k: usize) -> u64
    requires { k ≤ 6 }
    ensures { result ≡ 10 ^ k }
{
    10u64.pow(k as u32)
}

// The double of a number whose last k digits stand behind the point.
fn scaled(v: u64, k: usize) -> f64
    requires { (v ≤ 10 ^ 15) × (k ≤ 6) }
    ensures { result ≡ whole v ÷ whole (10 ^ k) }
{
    v as f64 / power(k) as f64
}

// The price of the digits `whole` before the point and of those behind it.
fn price(whole: &[u8], behind: &[u8]) -> Result<f64, PriceError>
    requires whole_digits { every is_digit whole.now ≡ true }
    requires behind_digits { every is_digit behind.now ≡ true }
    ensures { price_read_of result ≡ priced (whole.now ++ behind.now) (length behind.now) }
{
    if DIGITS_LIMIT < whole.len() + behind.len() || BEHIND_LIMIT < behind.len() {
        return Err(PriceError::Long);
    }
    let v = digits_behind(behind, digits_behind(whole, 0));
    Ok(scaled(v, behind.len()))
}

// The price that s writes.
pub fn read_price(s: &[u8]) -> Result<f64, PriceError>
    ensures { price_read_of result ≡ price_of s.now }
{
    let n = s.len();
    let point = find(s, 0, n, b'.');
    let whole = &s[..point];
    if !are_digits(whole) {
        return Err(PriceError::Bad);
    }
    if point == n {
        return price(whole, &[]);
    }
    let behind = &s[point + 1..];
    if !are_digits(behind) {
        return Err(PriceError::Bad);
    }
    price(whole, behind)
}
