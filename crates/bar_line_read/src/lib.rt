// A line of the exchange's comma file, read: `id,YYYY-MM-DD HH:MM:SS+HH:MM,price`.
#![tactic(auto)]

ghost use Rattle.std.specs.Prelude.{◌≡◌};
ghost use Rattle.bar_line.specs.Line.{line_of};
ghost use Rattle.bar_line_price.specs.Read.{price_refusal};
ghost use Rattle.bar_line_read.specs.Read.{line_refusal, line_read_of};

use bar::BarNumbers;
use bar_line_price::{PriceError, read_price};
use bar_line_stamp::read_stamp;
use text::{count_parts, find};
use text_number::decimal;

const COMMA: u8 = b',';

// Why a line says no bar.
#[derive(Clone, Copy)]
pub enum LineError {
    Malformed,
    LongPrice,
}

impl From<PriceError> for LineError {
    ghost from_gives = { λ e r. line_refusal r ≡ price_refusal e };

    fn from(e: PriceError) -> LineError {
        match e {
            PriceError::Long => LineError::LongPrice,
            PriceError::Bad => LineError::Malformed,
        }
    }
}

// What a line says: the four numbers of a bar.
pub fn read_line(line: &[u8]) -> Result<BarNumbers, LineError>
    ensures { line_read_of result ≡ line_of line.now }
{
    let n = line.len();
    if count_parts(line, 0, n, COMMA) != 3 {
        return Err(LineError::Malformed);
    }
    let a = find(line, 0, n, COMMA);
    let b = find(line, a + 1, n, COMMA);
    let id = decimal(line, 0, a, 10).ok_or(LineError::Malformed)?;
    let at = read_stamp(&line[a + 1..b]).ok_or(LineError::Malformed)?;
    let price = read_price(&line[b + 1..])?;
    Ok(BarNumbers {
        id: id as i64,
        instant: at.instant,
        offset: at.offset,
        price,
    })
}
