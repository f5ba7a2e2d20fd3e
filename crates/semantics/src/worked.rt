//! Worked rows: what the definitions say of small examples, with values from outside.

ghost use Rattle.semantics.specs.Rows.Outputs.{OutputRows};
ghost use Rattle.semantics.specs.Rows.Numbers.{NumberRows};
ghost use Rattle.semantics.specs.Rows.Loops.{LoopRows};
ghost use Rattle.semantics.specs.Rows.Reader.{ReaderRows};
ghost use Rattle.semantics.specs.Rows.Texts.{TextRows};

/// Numbers: cuts into chunks, loops, waves, scans, a filled array.
pub fn number_rows()
    ensures { NumberRows }
{}

/// Loops: a conflict, pieces, joins, and the workers' machine.
pub fn loop_rows()
    ensures { LoopRows }
{}

/// The reader: texts, constants, definite assignment, inputs.
pub fn reader_rows()
    ensures { ReaderRows }
{}

/// Whole texts: a text with its tokens and its tree, and directive lines.
pub fn text_rows()
    ensures { TextRows }
{}

/// What is written: outputs, listings, an erased text.
pub fn output_rows()
    ensures { OutputRows }
{}
