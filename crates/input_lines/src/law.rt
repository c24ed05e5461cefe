//! What is said of every input whose lines are taken one by one. It does nothing; its contract is the law.

ghost use Rattle.input_lines.specs.Wholes.{TakesLines};

/// Lines that are taken from the front of an input are its first lines, and what is left behind them is cut as it would be alone.
pub fn lines_are_taken()
    ensures { TakesLines }
{}
