// Blocks of ASCII and of common characters, looked at as a whole. Common are the characters of three bytes that start with e1..ec, ee or ef, where the
// others are any tails: nearly all of Chinese.
#![tactic(auto)]

ghost use Rattle.std.specs.Prelude.{◌≡◌, true, ◌+◌, ◌<◌, ◌≤◌, length, drop};
ghost use Rattle.utf8.specs.Utf8.{utf8};
ghost use Rattle.utf8.specs.Read.{Passed};
ghost use Rattle.utf8_common.specs.Common.{Tail, Start, Behind, ZeroFor};

// The bytes of a block of ASCII and common characters.
pub const BLOCK: usize = 66;

// 0 where b is a tail, else 1.
fn not_tail(b: u8) -> u8
    ensures { ZeroFor (Tail b) result }
{
    u8::from(!matches!(b, 0x80..=0xbf))
}

// 0 where b is ASCII or starts a common character, else 1.
fn not_start(b: u8) -> u8
    ensures { ZeroFor (Start b) result }
{
    u8::from(!matches!(b, 0x00..=0x7f | 0xe1..=0xec | 0xee..=0xef))
}

// Whether a common character starts at i.
pub fn is_common(s: &[u8], i: usize) -> bool
    requires { i < length s.now }
    ensures { result ≡ true → Passed s.now (i + 1) (utf8 (drop i s.now)) (i + 3) }
{
    3 <= s.len() - i
        && 0xe0 < s[i]
        && not_start(s[i]) + not_tail(s[i + 1]) + not_tail(s[i + 2]) == 0
}

// 0 where b can stand behind q and p in a text of ASCII and common characters, else 1.
fn odd(q: u8, p: u8, b: u8) -> u8
    ensures { ZeroFor (Behind q p b) result }
{
    if 0xe0 < p.max(q) {
        not_tail(b)
    } else {
        not_start(b)
    }
}

// Goes on from i past the whole characters of a block of ASCII and common ones, or stays at i where it has others: odd bytes are counted with no way out
// before the end, so that the compiler looks at many at once.
fn common_block(s: &[u8], i: usize) -> usize
    requires { i + 66 ≤ length s.now }
    ensures { Passed s.now i (utf8 (drop i s.now)) result }
{
    let end = i + BLOCK;
    let mut odds = odd(0, 0, s[i]) + odd(0, s[i], s[i + 1]);
    for k in i + 2..end {
        odds += odd(s[k - 2], s[k - 1], s[k]);
    }
    if 0 < odds {
        i
    } else if 0xe0 < s[end - 1] {
        end - 1
    } else if 0xe0 < s[end - 2] {
        end - 2
    } else {
        end
    }
}

// Goes on from i in blocks of ASCII and common characters.
pub fn skip_common(s: &[u8], i: usize) -> usize
    requires { i ≤ length s.now }
    ensures { Passed s.now i (utf8 (drop i s.now)) result }
{
    let mut j = i;
    while BLOCK <= s.len() - j {
        let r = common_block(s, j);
        if r == j {
            return j;
        }
        j = r;
    }
    j
}
