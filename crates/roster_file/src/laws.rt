//! Laws of rosters and their texts.
ghost use Rattle.roster_file.specs.Enrolled.{ReadAreEnrolled, ReadAreReadAgain, WrittenAreRead};

/// In each roster that is read the addresses differ, there are at most 4,096 meters, and each mode allows what its meter has.
pub fn read_rosters_are_enrolled()
    ensures { ReadAreEnrolled }
{}

/// A roster is read back from its text, so that each roster that can be read is read again from what is written of it.
pub fn written_rosters_are_read_back()
    ensures written { WrittenAreRead }
    ensures again { ReadAreReadAgain }
{}
