//! The copies of a slot's table.

use vab_lpstore::Loaded;
use vab_tables::TableFault;

/// What the two copies of a slot's table say.
#[derive(Drop)]
pub enum SlotTable {
    /// The table of the primary, or where that is none of the backup, and which copies hold its
    /// text.
    Read(Loaded),
    /// Neither is a table's text: the primary's fault and the backup's.
    Bad(TableFault, TableFault),
}
