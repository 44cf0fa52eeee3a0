//! Laws of the meaning of patterns. The function is empty; its contract is the law, proved.
ghost use Rattle.vortex_like.specs.Words.{TestDecidesMatch};

/// The test by which LIKE's value is defined is true exactly where the tokens match, for all tokens
/// and texts.
#[tactic(auto, using(crate::proofs::Testing::test_decides_match))]
pub fn test_decides_match()
    ensures { TestDecidesMatch }
{}
