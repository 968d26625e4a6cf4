// A stand kept in a file: storing and loading.
ghost use Rattle.std.specs.Prelude.{◌≡◌};
ghost use Rattle.stand.specs.Storage.{storage_of};
ghost use Rattle.form.specs.Calls.{load_call, store_call, stored_header, stored_length};
ghost use Rattle.exports.specs.Edit.{open_reply, replied_header, wrote_of};
ghost use Rattle.exports.specs.Keep.{store_reply, store_reply_of};
ghost use Rattle.exports.specs.Reply.{replied};

use exports::edit::Opened;
use exports::reply::Number;
use stand::volume::Volume;

#[unsafe(no_mangle)]
pub extern "C" fn stand_store(volume: Volume, cells: &[u16], out: &mut [u8]) -> Number
    ensures { store_reply_of result out.new ≡ store_reply (store_call volume cells.now out.old) }
{
    exports::keep::stand_store(volume, cells, out)
}

#[unsafe(no_mangle)]
pub extern "C" fn stand_stored_length(volume: Volume, cells: &[u16]) -> Number
    ensures { result ≡ replied (stored_length volume cells.now) }
{
    exports::keep::stand_stored_length(volume, cells)
}

#[unsafe(no_mangle)]
pub extern "C" fn stand_load(
    form: &[u8],
    cells: &mut [u16],
    hashes: &mut [u64],
    versions: &mut [u32],
    log: &mut [u32],
    last: &mut [u64],
) -> Opened
    ensures { wrote_of result (storage_of cells.new hashes.new versions.new log.new last.new) ≡ open_reply (load_call (storage_of cells.old hashes.old versions.old log.old last.old) form.now) }
{
    exports::keep::stand_load(form, cells, hashes, versions, log, last)
}

#[unsafe(no_mangle)]
pub extern "C" fn stand_stored_header(form: &[u8]) -> Opened
    ensures { result ≡ replied_header (stored_header form.now) }
{
    exports::keep::stand_stored_header(form)
}
