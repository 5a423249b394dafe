//! What holds of the definitions themselves, for every key: each function's contract is a law.

ghost use Rattle.cbc_cmac.specs.Laws.{ChainsAreUndone, BytesOfBlocksAreUndone, CutMakesNoDifference};

/// Decrypting what was encrypted gives back every list of blocks, and encrypting what was decrypted.
pub fn decryption_undoes_encryption()
    ensures { ChainsAreUndone }
{}

/// The same of bytes, as many as whole blocks have.
pub fn decryption_undoes_encryption_of_bytes()
    ensures { BytesOfBlocksAreUndone }
{}

/// Two values of `Cmac` that stand for one message under one key are the same, however the message was cut.
#[tactic(auto, using(crate::proofs::Taking::cut_makes_no_difference))]
pub fn cut_makes_no_difference()
    ensures { CutMakesNoDifference }
{}
