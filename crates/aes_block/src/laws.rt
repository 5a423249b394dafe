//! What holds of the definitions themselves, for every element, block and key: each function's contract is a law.

ghost use Rattle.aes_block.specs.Laws.{ProductIsRemainder, InverseIsTheInverse, SubstitutionIsABijection, ScheduleIsTheStandards};
ghost use Rattle.aes_block.specs.Laws.{EachStepIsUndone, DecryptionUndoesEncryption};

/// A product in the field is what is left of the product of the polynomials (FIPS 197, section 4.2).
pub fn product_is_remainder()
    ensures { ProductIsRemainder }
{}

/// Each element other than 0 has one inverse, and `inverse` is it (FIPS 197, section 4.2).
#[tactic(auto, using(crate::proofs::Elements::inverse_is_the_inverse))]
pub fn inverse_is_the_inverse()
    ensures { InverseIsTheInverse }
{}

/// The substitution is a bijection of the 256 bytes, and the inverse substitution takes it back (FIPS 197, sections
/// 5.1.1 and 5.3.2).
#[tactic(auto, using(crate::proofs::ByteTables::substitution_is_a_bijection))]
pub fn substitution_is_a_bijection()
    ensures { SubstitutionIsABijection }
{}

/// The words of the round keys follow the standard's recurrence (FIPS 197, section 5.2).
#[tactic(auto, using(crate::proofs::Schedule::schedule_is_the_standards))]
pub fn schedule_is_the_standards()
    ensures { ScheduleIsTheStandards }
{}

/// Each step of a round and its inverse undo each other (FIPS 197, section 5.3).
pub fn each_step_is_undone()
    ensures { EachStepIsUndone }
{}

/// For every key, decrypting an encrypted block gives it back, and encrypting a decrypted one.
pub fn decryption_undoes_encryption()
    ensures { DecryptionUndoesEncryption }
{}
