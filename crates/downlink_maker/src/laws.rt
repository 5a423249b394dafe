//! What holds of the definitions themselves: each function's contract is a law.
ghost use Rattle.downlink_maker.specs.Laws.{ContentIsReadBack, DownlinksAreLaidOut};

/// A meter that decrypts the content of a downlink has its payload, between two check bytes and fillers.
#[tactic(auto, using(crate::proofs::ReadBack::decrypted_again))]
pub fn content_is_read_back()
    ensures { ContentIsReadBack }
{}

/// The telegram of a downlink is a telegram of bytes, is decoded from its frame, and is laid out with its parts.
pub fn downlinks_are_laid_out()
    ensures { DownlinksAreLaidOut }
{}
