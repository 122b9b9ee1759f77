//! The laws of the text of scripts. Each function does nothing: its contract is the law.
ghost use Rattle.segscript.specs.Laws.{BadLinesHaveAFault, ExplainedIsReported, LinesFit};
ghost use Rattle.segscript.specs.Laws.{LineSpellsOneTurn};

/// Every line that spells a turn has at most `LINE_BYTES` bytes.
pub fn lines_fit()
    ensures { LinesFit }
{}

/// A line spells at most one turn of one pass.
pub fn one_turn()
    ensures { LineSpellsOneTurn }
{}

/// A line has a fault exactly if it is bad.
pub fn bad_lines_have_a_fault()
    ensures { BadLinesHaveAFault }
{}

/// The bad line that is explained is the one that a run reports.
pub fn explained_is_reported()
    ensures { ExplainedIsReported }
{}
