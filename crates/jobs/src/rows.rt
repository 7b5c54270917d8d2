// Tables of rows.

use book::{Row, Side};

// What stands in a table where no row was put.
pub(crate) const UNUSED_ROW: Row = Row {
    position: 0,
    side: Side::On,
    looked_at: 0,
    wanted_on: 0,
};
