//! Rows of a feed's tables: their files, columns, fields and ids, and the first bad row with its least reason.
//!
//! What all tables of a feed share (GTFS Schedule reference). Columns are found by their names in the header, spaces at
//! both ends aside, the first of equal names; an absent column, and a field that a row lacks, read as empty, and fields
//! past the header are passed over.
#![tactic(auto)]

mod cells;
mod degrees;
mod fault;
mod folder;
mod ids;
mod places;
mod row_cells;
mod row_ids;
mod slices;
mod text;
mod values;
mod why;

pub use cells::{column_of, ends_early, field_in, header_reason, is_text, lacks_column};
pub use degrees::{latitude_of, longitude_of};
pub use fault::{FeedFault, bad_row, missing_file};
pub use folder::{bytes_of, required_rows};
pub use ids::Ids;
pub use places::small;
pub use row_cells::{column_in, field_of, reason_of_header, row_ends_early};
pub use row_ids::{ids_of_rows, note_new};
pub use slices::Slices;
pub use text::text_of;
pub use values::{bare, colour_of, degrees_of, number_of, row_reader_of, rows_of};
pub use why::{Table, Why};
