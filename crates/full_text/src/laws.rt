//! What holds of decimal texts. This function does nothing: its contract is a law.
ghost use Rattle.full_text.specs.DecimalLaw.{DecimalsAreExact};

/// The decimal text of a number times a power of ten is that number.
pub fn decimals_are_exact()
    ensures { DecimalsAreExact }
{}
