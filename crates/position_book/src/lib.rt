// The calls that position_book_c exports. Each takes numbers and byte slices of any kind, and answers a number of document 01 with its values.
#![tactic(auto)]

ghost use Rattle.std.specs.Prelude.{◌≡◌, ℕ, List};
ghost use Rattle.text.specs.Answer.{number};
ghost use Rattle.operate.specs.Operate.{operate_alone};
ghost use Rattle.table.specs.Compile.{compile_do};
ghost use Rattle.book.specs.Calls.{fresh_do, feed_do, feed_line_do, save_do, restore_do};
ghost use Rattle.book_store.specs.Stored.{stored_of};
ghost use Rattle.row.specs.Calls.{pair_do, hold_do, event_name_do};
ghost use Rattle.row_blocks.specs.Blocks.{hold_block_do, pair_block_do, counts_do};
ghost use Rattle.position_book_answer_alone.specs.Calls.{signal_do, SignalIs, operate_answer, name_do, NameIs};
ghost use Rattle.position_book_answer.specs.Rows.{hold_answer, counts_answer};
ghost use Rattle.position_book.specs.Results.{CompileIs, StoreIs, FeedIs, PairIs, BlockIs, EventNameIs};

use book::OpenError;
use book_feed::feed_bar;
use book_feed_line::feed_line;
use book_store::{fresh, restore, save};
use position_book_answer::{
    BlockAnswer, CountsAnswer, FeedAnswer, HoldAnswer, PairAnswer, block_answer, counts_answer,
    feed_answer, hold_answer, name_answer, pair_answer,
};
use position_book_answer_alone::{
    NameAnswer, OperateAnswer, SignalAnswer, operate_answer, operate_name, signal_answer,
};
use row_blocks_holds::hold_rows;
use row_blocks_pairs::pair_rows;
use row_counts::row_counts;
use row_holds::hold_row;
use row_names::event_name;
use row_pairs::pair_row;
use table_compile::compile;

// Reads a signal alone. Its key and values go one after another to the start of `out`, which must not be shorter than the text.
pub fn position_book_signal(text: &[u8], out: &mut [u8]) -> SignalAnswer
    ensures { SignalIs (signal_do text.now out.old) out.old out.new result }
{
    signal_answer(text, out)
}

// Reads an operate alone, in either spelling.
pub fn position_book_operate(text: &[u8]) -> OperateAnswer
    ensures { result ≡ operate_answer (operate_alone text.now) }
{
    operate_answer(text)
}

// Writes the Chinese name of an operate's code to the start of `out`.
pub fn position_book_operate_name(code: u32, out: &mut [u8]) -> NameAnswer
    ensures { NameIs (name_do code out.old) out.old out.new result }
{
    operate_name(code, out)
}

// Compiles the sheet of a text into the table.
pub fn position_book_compile(text: &[u8], table: &mut [u8]) -> u32
    ensures { CompileIs (compile_do text.now table.old) table.old table.new result }
{
    match compile(text, table) {
        Ok(()) => 0,
        Err(e) => e.number(),
    }
}

// The number of what fresh, save and restore answer.
fn stored_number(r: Result<(), OpenError>) -> u32
    ensures { (after : List ℕ) → result ≡ number (stored_of after r) }
{
    match r {
        Ok(()) => 0,
        Err(e) => e.number(),
    }
}

// Makes the book one with no bars.
pub fn position_book_fresh(book: &mut [u8]) -> u32
    ensures { StoreIs (fresh_do book.old) book.old book.new result }
{
    stored_number(fresh(book))
}

// Feeds a bar and its signals into the book, by the table.
pub fn position_book_feed(
    table: &[u8],
    book: &mut [u8],
    id: i64,
    instant: i64,
    offset: i64,
    price: f64,
    signals: &[u8],
) -> FeedAnswer
    ensures { FeedIs (feed_do table.now book.old (record { id = id; instant = instant; offset = offset; price = price; signals = signals.now })) book.old book.new result }
{
    feed_answer(feed_bar(table, book, id, instant, offset, price, signals))
}

// Feeds a bar by a line of the exchange's comma file, `id,YYYY-MM-DD HH:MM:SS+HH:MM,price` without its LF, and its signals into the book.
pub fn position_book_feed_line(
    table: &[u8],
    book: &mut [u8],
    line: &[u8],
    signals: &[u8],
) -> FeedAnswer
    ensures { FeedIs (feed_line_do table.now book.old line.now signals.now) book.old book.new result }
{
    feed_answer(feed_line(table, book, line, signals))
}

// Copies the book to the image.
pub fn position_book_save(table: &[u8], book: &[u8], image: &mut [u8]) -> u32
    ensures { StoreIs (save_do table.now book.now image.old) image.old image.new result }
{
    stored_number(save(table, book, image))
}

// Copies the image back to the book.
pub fn position_book_restore(table: &[u8], book: &mut [u8], image: &[u8]) -> u32
    ensures { StoreIs (restore_do table.now book.old image.now) book.old book.new result }
{
    stored_number(restore(table, book, image))
}

// A pair row of the book by its index; its symbol, mark and sequence go one after another to the start of the buffer.
pub fn position_book_pair_row(
    table: &[u8],
    book: &[u8],
    index: i64,
    buffer: &mut [u8],
) -> PairAnswer
    ensures { PairIs (pair_do table.now book.now index buffer.old) buffer.old buffer.new result }
{
    pair_answer(pair_row(table, book, index, buffer))
}

// A hold row of the book by its index.
pub fn position_book_hold_row(table: &[u8], book: &[u8], index: i64) -> HoldAnswer
    ensures { result ≡ hold_answer (hold_do table.now book.now index) }
{
    hold_answer(hold_row(table, book, index))
}

// How many hold rows and pair rows the book has.
pub fn position_book_counts(table: &[u8], book: &[u8]) -> CountsAnswer
    ensures { result ≡ counts_answer (counts_do table.now book.now) }
{
    counts_answer(row_counts(table, book))
}

// The pair rows of the book from number `first` on, one after another to the start of `rows`: as many as fit.
pub fn position_book_pair_rows(
    table: &[u8],
    book: &[u8],
    first: i64,
    rows: &mut [u8],
) -> BlockAnswer
    ensures { BlockIs (pair_block_do table.now book.now first rows.old) rows.old rows.new result }
{
    block_answer(pair_rows(table, book, first, rows))
}

// The hold rows of the book from number `first` on, one after another to the start of `rows`: as many as fit.
pub fn position_book_hold_rows(
    table: &[u8],
    book: &[u8],
    first: i64,
    rows: &mut [u8],
) -> BlockAnswer
    ensures { BlockIs (hold_block_do table.now book.now first rows.old) rows.old rows.new result }
{
    block_answer(hold_rows(table, book, first, rows))
}

// The name of an event of the table by its index, to the start of the buffer.
pub fn position_book_event_name(table: &[u8], index: i64, buffer: &mut [u8]) -> NameAnswer
    ensures { EventNameIs (event_name_do table.now index buffer.old) buffer.old buffer.new result }
{
    name_answer(event_name(table, index, buffer))
}
