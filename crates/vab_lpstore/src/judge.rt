//! Two copies, judged.

ghost use Rattle.std.specs.Prelude.{◌≡◌, ◌≤◌, ◌↔◌, length, take, IfOk, IsTrue};
ghost use Rattle.vab_tables.specs.Text.{text_size_of};
ghost use Rattle.vab_tables.specs.Reading.{table_of};
ghost use Rattle.vab_lpstore.specs.Layout.{Begins};
ghost use Rattle.vab_lpstore.specs.Loading.{first_of, IsLoaded, Gives, AreFaults, IsDiskFault};

use crate::loaded::{LoadFault, Loaded};
use std::alloc::Global;
use vab_bytes::Bytes;
use vab_tables::{TableFault, decode_table, text_size};

// The header and the tables, without what stands behind them.
fn text_of(bytes: Vec<u8>) -> Bytes
    requires { 128 ≤ length bytes.items }
    ensures { result ≡ take (text_size_of bytes.items) bytes.items }
{
    let mut text = bytes;
    let size = text_size(&text);
    text.truncate(size);
    Bytes::from_vec(text)
}

fn begins(bytes: &[u8], text: &Bytes) -> bool
    ensures { IsTrue result ↔ Begins bytes.now text.now }
{
    bytes.starts_with(text.as_slice())
}

// The primary's table, or else the backup's.
pub fn choose(
    alloc: Global,
    primary: Vec<u8>,
    backup: Vec<u8>,
    max: u32,
) -> Result<Loaded, LoadFault>
    ensures table { Gives result
        (first_of (table_of max primary.items) (table_of max backup.items)) }
    ensures loaded { IfOk result (λ l. IsLoaded max primary.items backup.items l) }
    ensures faults { AreFaults result }
    ensures disk { IsDiskFault result → ⊥ }
{
    let first = match decode_table(alloc, &primary, max) {
        Ok(table) => {
            let text = text_of(primary);
            let backup = begins(&backup, &text);
            return Ok(Loaded {
                table,
                text,
                primary: true,
                backup,
            });
        }
        Err(TableFault::NoMemory) => return Err(LoadFault::NoMemory),
        Err(fault) => fault,
    };
    match decode_table(alloc, &backup, max) {
        Ok(table) => Ok(Loaded {
            table,
            text: text_of(backup),
            primary: false,
            backup: true,
        }),
        Err(TableFault::NoMemory) => Err(LoadFault::NoMemory),
        Err(second) => Err(LoadFault::BothBad(first, second)),
    }
}
