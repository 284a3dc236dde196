// Code only: stretches of ASCII in a text.
#![tactic(auto)]

ghost use Rattle.std.specs.Prelude.{◌≡◌, true, ◌+◌, ◌≤◌, length, drop};
ghost use Rattle.utf8.specs.Utf8.{utf8};
ghost use Rattle.utf8.specs.Read.{Passed};

// Whether the sixteen bytes from i on are ASCII: they are counted with no way out before the end, so that the compiler looks at them at once.
fn ascii_block(s: &[u8], i: usize) -> bool
    requires { i + 16 ≤ length s.now }
    ensures { result ≡ true → Passed s.now i (utf8 (drop i s.now)) (i + 16) }
{
    let mut low: u32 = 0;
    for k in 0..16 {
        low += (255 - u32::from(s[i + k])) / 128;
    }
    low == 16
}

// Goes on from i in blocks of ASCII.
pub fn skip_blocks(s: &[u8], i: usize) -> usize
    requires { i ≤ length s.now }
    ensures { Passed s.now i (utf8 (drop i s.now)) result }
{
    let mut j = i;
    while 16 <= s.len() - j && ascii_block(s, j) {
        j += 16;
    }
    j
}

// Goes on from i to the first byte that is not ASCII.
pub fn skip_ascii(s: &[u8], i: usize) -> usize
    requires { i ≤ length s.now }
    ensures { Passed s.now i (utf8 (drop i s.now)) result }
{
    for j in i..s.len() {
        if 0x7f < s[j] {
            return j;
        }
    }
    s.len()
}
