//! Laws of the meaning of lines. The function is empty; its contract is the law, proved.
ghost use Rattle.rowfn_lines.specs.Lines.{AreWordsSaid};

/// The words of a line are between its spaces: each is bytes without a space that do not begin with
/// a quote, or, in quotes, bytes without a quote.
#[tactic(auto, using(crate::proofs::WordsSaid::are_words_said))]
pub fn words_are_said()
    ensures { AreWordsSaid }
{}
