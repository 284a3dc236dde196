// Fresh, save and restore.
#![tactic(auto)]

ghost use Rattle.std.specs.Prelude.{◌≡◌, length};
ghost use Rattle.book_header.specs.Size.{SizeOk};
ghost use Rattle.book.specs.Calls.{fresh_do, save_do, restore_do};
ghost use Rattle.book_store.specs.Stored.{StoredAs};
ghost use Rattle.book_store.specs.Copied.{copy_do};

use book::OpenError;
use book_check::check_book;
use book_header::{capacity, fresh_head, size_of};
use book_header_write::put_head;
use text::{clear, put_part};

// Makes b a book with no bars, where its length is a book's.
pub fn fresh(b: &mut [u8]) -> Result<(), OpenError>
    ensures { StoredAs (fresh_do b.old) b.old b.new result }
{
    let c = capacity(b).ok_or(OpenError::WrongLength)?;
    clear(b);
    put_head(b, c, 0, 0, fresh_head());
    Ok(())
}

// Copies `from`, a book of c bars, to `to`, where it passes the full check.
fn copy_book(table: &[u8], from: &[u8], to: &mut [u8], c: u32) -> Result<(), OpenError>
    requires size_ok { SizeOk from.now c }
    requires to_len { length to.old ≡ length from.now }
    ensures { StoredAs (copy_do table.now c from.now) to.old to.new result }
{
    check_book(table, from, c)?;
    put_part(to, 0, from, 0, 96 + 64 * (c as usize));
    Ok(())
}

// Copies the book b to the image, where it passes the full check.
pub fn save(table: &[u8], b: &[u8], image: &mut [u8]) -> Result<(), OpenError>
    ensures { StoredAs (save_do table.now b.now image.old) image.old image.new result }
{
    let c = size_of(table, b).ok_or(OpenError::WrongLength)?;
    if image.len() != b.len() {
        return Err(OpenError::WrongLength);
    }
    copy_book(table, b, image, c)
}

// Copies the image to the book b, where it passes the full check.
pub fn restore(table: &[u8], b: &mut [u8], image: &[u8]) -> Result<(), OpenError>
    ensures { StoredAs (restore_do table.now b.old image.now) b.old b.new result }
{
    let c = size_of(table, b).ok_or(OpenError::WrongLength)?;
    if image.len() != b.len() {
        return Err(OpenError::WrongLength);
    }
    copy_book(table, image, b, c)
}
