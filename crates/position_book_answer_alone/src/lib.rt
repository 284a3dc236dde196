// What a text or a code alone answers to the host: a signal, an operate, an operate's name, as the structs that cross. Zeros where they are refused.
#![tactic(auto)]

ghost use Rattle.std.specs.Prelude.{◌≡◌, ◌≤◌, length};
ghost use Rattle.text.specs.Answer.{Refused, Got};
ghost use Rattle.utf8_text.specs.Read.{alone_refusal};
ghost use Rattle.operate.specs.Operate.{operate_alone};
ghost use Rattle.operate.specs.Read.{operate_refusal};
ghost use Rattle.signal.specs.Read.{SignalOk, signal_in, signal_alone_refusal};
ghost use Rattle.position_book_answer_alone.specs.Calls.{signal_do, signal_answer, SignalIs, operate_answer, name_do, NameIs};

use operate::OperateError;
use signal::{SignalAloneError, SignalAt, SignalError};
use text::put_part;
use utf8_text::AloneError;

// The length of a name.
#[repr(C)]
#[derive(Clone, Copy)]
pub struct NameAnswer {
    pub number: u32,
    pub length: usize,
}

// What a signal alone says: its score, and the lengths of its key and its three values.
#[repr(C)]
#[derive(Clone, Copy, Default)]
pub struct SignalAnswer {
    pub number: u32,
    pub score: u64,
    pub key: usize,
    pub v1: usize,
    pub v2: usize,
    pub v3: usize,
}

// The code of an operate alone.
#[repr(C)]
#[derive(Clone, Copy)]
pub struct OperateAnswer {
    pub number: u32,
    pub code: u32,
}

// The number of why a text that stands alone is refused.
fn alone_number(e: AloneError) -> u32
    ensures { result ≡ alone_refusal e }
{
    match e {
        AloneError::TooLong => 7,
        AloneError::NotUtf8 => 1,
        AloneError::Marked => 2,
    }
}

// The number of why a text alone is no signal.
fn signal_number(e: SignalAloneError) -> u32
    ensures { result ≡ signal_alone_refusal e }
{
    match e {
        SignalAloneError::Text(e) => alone_number(e),
        SignalAloneError::Signal(SignalError::NotSeven) => 5,
        SignalAloneError::Signal(SignalError::BadScore) => 6,
    }
}

// The number of why a text alone is no operate.
fn operate_number(e: OperateError) -> u32
    ensures { result ≡ operate_refusal e }
{
    match e {
        OperateError::Text(e) => alone_number(e),
        OperateError::Unnamed => 4,
    }
}

// A refusal with a number.
fn refused(number: u32) -> SignalAnswer
    ensures { result ≡ signal_answer (Refused number) }
{
    SignalAnswer {
        number,
        ..SignalAnswer::default()
    }
}

// Writes what a signal in `text` says to the start of `out`.
fn put_signal(text: &[u8], out: &mut [u8], a: SignalAt) -> SignalAnswer
    requires signal_ok { SignalOk text.now a }
    requires text_in_bounds { length text.now ≤ length out.old }
    ensures { SignalIs (Got (signal_in text.now a)) out.old out.new result }
{
    let key = signal::put_key(out, 0, text, a);
    let p = put_part(out, key, text, a.k3 + 1, a.v1);
    let q = put_part(out, p, text, a.v1 + 1, a.v2);
    let r = put_part(out, q, text, a.v2 + 1, a.v3);
    SignalAnswer {
        number: 0,
        score: a.score,
        key,
        v1: p - key,
        v2: q - p,
        v3: r - q,
    }
}

// Reads a signal alone. Its key and values go one after another to the start of `out`, which must not be shorter than the text.
pub fn signal_answer(text: &[u8], out: &mut [u8]) -> SignalAnswer
    ensures { SignalIs (signal_do text.now out.old) out.old out.new result }
{
    match signal::signal_alone(text) {
        Err(e) => refused(signal_number(e)),
        Ok(a) => {
            if out.len() < text.len() {
                return refused(8);
            }
            put_signal(text, out, a)
        }
    }
}

// Reads an operate alone, in either spelling.
pub fn operate_answer(text: &[u8]) -> OperateAnswer
    ensures { result ≡ operate_answer (operate_alone text.now) }
{
    match operate::operate_alone(text) {
        Ok(o) => OperateAnswer {
            number: 0,
            code: o.code(),
        },
        Err(e) => OperateAnswer {
            number: operate_number(e),
            code: 0,
        },
    }
}

// Writes the Chinese name of an operate's code to the start of `out`.
pub fn operate_name(code: u32, out: &mut [u8]) -> NameAnswer
    ensures { NameIs (name_do code out.old) out.old out.new result }
{
    if 6 < code {
        return NameAnswer {
            number: 4,
            length: 0,
        };
    }
    let name = operate::to_chinese(code);
    if out.len() < 6 {
        return NameAnswer {
            number: 8,
            length: 0,
        };
    }
    let n = put_part(out, 0, &name, 0, 6);
    NameAnswer {
        number: 0,
        length: n,
    }
}
