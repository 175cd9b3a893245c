//! Laws of what the clauses of the calls speak of.
ghost use Rattle.gms_expressions.specs.Valuations.{IsValuation, number_meant};

/// For each text that means a number, as a decimal without a sign, the function `number_meant`
/// gives that number.
pub fn valuation_laws()
    ensures { IsValuation number_meant }
{}
