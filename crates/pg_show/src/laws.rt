//! Laws about the definitions. Each is the contract of a function that does nothing.

ghost use Rattle.pg_show.specs.Hex.{WordsReadAgain};
ghost use Rattle.pg_show.specs.Worked.{WorkedRows};

use pg_dyn::laws::fault_examples;

/// Small messages and their lines, and hexadecimal arguments and their bytes.
pub fn worked_rows()
    ensures { WorkedRows }
{
    fault_examples();
}

/// The digits of bytes are read again as these bytes.
pub fn words_read_again()
    ensures { WordsReadAgain }
{}
