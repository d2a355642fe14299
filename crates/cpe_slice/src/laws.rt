//! The data sheet's table, as a law of the array step.
ghost use Rattle.cpe_slice.specs.Table.{TableOfResults, TableOfTestWords, TableOfMar, TableOfTargets, TableOfLinks, TableOfOutputs};

/// The array step says what the table of Intel's data sheet says, row by row: the result of each function in each
/// group, the registers that take it, MAR, the word that the OR chain tests, the links and FI. So this table is what
/// `Slice::step` is proved to do. It does nothing.
pub fn step_follows_the_table()
    ensures results { TableOfResults }
    ensures test_words { TableOfTestWords }
    ensures mar { TableOfMar }
    ensures targets { TableOfTargets }
    ensures links { TableOfLinks }
    ensures outputs { TableOfOutputs }
{}
