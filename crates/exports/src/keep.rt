// A stand kept in a file: storing and loading (document 02, 2.2).
ghost use Rattle.std.specs.Prelude.{◌≡◌};
ghost use Rattle.stand.specs.Storage.{storage_of};
ghost use Rattle.form.specs.Calls.{load_call, store_call, stored_header, stored_length};
ghost use Rattle.exports.specs.Edit.{open_reply, replied_header, wrote_of};
ghost use Rattle.exports.specs.Keep.{store_reply, store_reply_of};
ghost use Rattle.exports.specs.Reply.{replied};

use crate::edit::Opened;
use crate::reply::Number;
use form::load::{load, stored_header};
use form::store::{store, stored_length};
use stand::volume::Volume;
use stand::volume::storage::Storage;

// The length of the stand's form, which is written at the output's start; refused by 3, 4 and 15. Rules out a byte written by a refused call, and one written after the form.
pub fn stand_store(volume: Volume, cells: &[u16], out: &mut [u8]) -> Number
    ensures { store_reply_of result out.new ≡ store_reply (store_call volume cells.now out.old) }
{
    Number::from(store(volume, cells, out))
}

// The length of the stand's form; refused by 3 and 4. Rules out a length from the header's count of occupied cells, and cells beyond the size counted.
pub fn stand_stored_length(volume: Volume, cells: &[u16]) -> Number
    ensures { result ≡ replied (stored_length volume cells.now) }
{
    Number::from(stored_length(volume, cells))
}

// The header of the stand that a form holds, opened in the five lists; refused by 1, 2, 4 and 14. Rules out a list written by a refused call, and lists that keep anything but the form's cells and their hashes.
// Kept: lists one by one, since C lends them so; their struct is built in place for the reason told at `stand_open`.
pub fn stand_load(
    form: &[u8],
    cells: &mut [u16],
    hashes: &mut [u64],
    versions: &mut [u32],
    log: &mut [u32],
    last: &mut [u64],
) -> Opened
    ensures { wrote_of result (storage_of cells.new hashes.new versions.new log.new last.new) ≡ open_reply (load_call (storage_of cells.old hashes.old versions.old log.old last.old) form.now) }
{
    let mut storage = Storage {
        cells,
        hashes,
        versions,
        log,
        last,
    };
    Opened::from(load(form, &mut storage))
}

// The header that loading a form would give; refused by 1, 2 and 14. Rules out a code for storage, which is not looked at, and a header of a form that loading refuses.
pub fn stand_stored_header(form: &[u8]) -> Opened
    ensures { result ≡ replied_header (stored_header form.now) }
{
    Opened::from(stored_header(form))
}
