//! What follows from how rows are written. The function does nothing: its contract is proved.
ghost use Rattle.rowfn_batches.specs.ReadingBack.{RowsReadBack};

/// The line of a row of answers says the row's cells, where null has a text that may stand for it.
pub fn rows_read_back()
    ensures { RowsReadBack }
{}
