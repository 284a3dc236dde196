// Operates: the codes 0 to 6, their two spellings, and an operate that stands alone.
#![tactic(auto)]

ghost use Rattle.std.specs.Prelude.{◌≡◌, ◌||◌, [], ◌<◌, eqb, get_or};
ghost use Rattle.text.specs.Text.{same};
ghost use Rattle.operate.specs.Operate.{LO as Operate-as-LO, SO as Operate-as-SO, latin as Operate·latin, chinese as Operate·chinese, known, operate_of, operate_alone};
ghost use Rattle.operate.specs.declared.OperateError.TheVariants as OperateError;
ghost use Rattle.operate.specs.Read.{code_of, read_of, alone_of, Name};

use utf8_text::AloneError;

// The operates in the order of their codes, from 0 on.
#[derive(Clone, Copy)]
pub enum Operate {
    HL,
    HS,
    HO,
    LO,
    LE,
    SO,
    SE,
}

// The codes of the operates that the machine names.
pub const HO: u8 = Operate::HO as u8;

pub const LO: u8 = Operate::LO as u8;

pub const LE: u8 = Operate::LE as u8;

pub const SO: u8 = Operate::SO as u8;

pub const SE: u8 = Operate::SE as u8;

// Why a text that stands alone is no operate.
#[derive(Clone, Copy)]
pub enum OperateError {
    Text(AloneError),
    Unnamed,
}

impl From<AloneError> for OperateError {
    ghost from_gives = { λ e r. r ≡ OperateError.Text e };

    fn from(e: AloneError) -> OperateError {
        OperateError::Text(e)
    }
}

// Whether a code is LO or SO.
pub fn is_opening(code: u8) -> bool
    ensures { result ≡ (eqb code Operate-as-LO || eqb code Operate-as-SO) }
{
    code == LO || code == SO
}

// The Chinese name of a code: 持多, 持空, 持币, 开多, 平多, 开空, 平空.
pub fn to_chinese(code: u32) -> [u8; 6]
    requires { code < 7 }
    ensures { Name (get_or Operate·chinese code []) 6 result }
{
    match code {
        0 => *b"\xe6\x8c\x81\xe5\xa4\x9a",
        1 => *b"\xe6\x8c\x81\xe7\xa9\xba",
        2 => *b"\xe6\x8c\x81\xe5\xb8\x81",
        3 => *b"\xe5\xbc\x80\xe5\xa4\x9a",
        4 => *b"\xe5\xb9\xb3\xe5\xa4\x9a",
        5 => *b"\xe5\xbc\x80\xe7\xa9\xba",
        6 => *b"\xe5\xb9\xb3\xe7\xa9\xba",
        _ => unreachable!(),
    }
}

// The operate of a code.
pub fn of_code(code: u32) -> Option<Operate>
    ensures { read_of result ≡ known code }
{
    match code {
        0 => Some(Operate::HL),
        1 => Some(Operate::HS),
        2 => Some(Operate::HO),
        3 => Some(Operate::LO),
        4 => Some(Operate::LE),
        5 => Some(Operate::SO),
        6 => Some(Operate::SE),
        _ => None,
    }
}

impl Operate {
    // Each operate, in the order of the codes.
    const ALL: [Operate; 7] = [
        Operate::HL,
        Operate::HS,
        Operate::HO,
        Operate::LO,
        Operate::LE,
        Operate::SO,
        Operate::SE,
    ];

    // The code.
    pub fn code(self) -> u32
        ensures { result ≡ code_of self }
    {
        self as u32
    }

    // The two letters.
    fn latin(self) -> [u8; 2]
        ensures { Name (get_or Operate·latin (code_of self) []) 2 result }
    {
        match self {
            Operate::HL => *b"HL",
            Operate::HS => *b"HS",
            Operate::HO => *b"HO",
            Operate::LO => *b"LO",
            Operate::LE => *b"LE",
            Operate::SO => *b"SO",
            Operate::SE => *b"SE",
        }
    }

    // Whether s is one of the two spellings: two letters, or two characters of three bytes.
    fn is_spelled(self, s: &[u8]) -> bool
        ensures { result ≡ same s.now (get_or Operate·latin (code_of self) []) || same s.now (get_or Operate·chinese (code_of self) []) }
    {
        if s.len() != 6 {
            return s == self.latin().as_slice();
        }
        let name = to_chinese(self.code());
        &s[..3] == &name[..3] && &s[3..] == &name[3..]
    }
}

// The operate that s spells.
pub fn parse_operate(s: &[u8]) -> Option<Operate>
    ensures { read_of result ≡ operate_of s.now }
{
    for operate in &Operate::ALL {
        if operate.is_spelled(s) {
            return Some(*operate);
        }
    }
    None
}

// The operate that s alone spells, or the first reason to refuse it.
pub fn operate_alone(s: &[u8]) -> Result<Operate, OperateError>
    ensures { alone_of result ≡ operate_alone s.now }
{
    utf8_text::check_alone(s)?;
    parse_operate(s).ok_or(OperateError::Unnamed)
}
