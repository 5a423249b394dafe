//! What holds of the tables of units.

ghost use Rattle.record_values.specs.Units.{primary, after_fd, after_fb, EachRowCounts};

/// No code is in two rows of a table, so that each row holds as it stands there.
pub fn each_row_counts()
    ensures primary { EachRowCounts primary }
    ensures after_fd { EachRowCounts after_fd }
    ensures after_fb { EachRowCounts after_fb }
{}
