//! What follows from what JSON says.

ghost use Rattle.gob_go_lines.specs.Laws.{FilledValuesAreSaid, LinesSayOneValue, TokensTellTheBytes};
ghost use Rattle.gob_go_lines.specs.Laws.{ToldValuesAreSaid, UnfilledValuesAreSaid};

/// The JSON that `show` prints of a value, whose interfaces are all nil, says the bytes that spell the value. So
/// [`read_go_line`](crate::read_go_line) reads each such line back as these bytes.
pub fn unfilled_values_are_said()
    ensures { UnfilledValuesAreSaid }
{}

/// The JSON that `show --go` prints of a value that defines nothing says the bytes that spell the value, with those of
/// what its interfaces hold. So [`read_go_line`](crate::read_go_line) reads each such line back as these bytes.
pub fn filled_values_are_said()
    ensures { FilledValuesAreSaid }
{}

/// Where the tokens of a line are those of JSON that a value shows, in which texts of digits may stand for numbers,
/// they say the bytes that spell the value.
pub fn told_values_are_said()
    ensures { ToldValuesAreSaid }
{}

/// The tokens of JSON that says bytes tell these, and where they end, whatever stands behind them: no two values of a
/// type have one line, whichever numbers are texts in it.
pub fn tokens_tell_the_bytes()
    ensures { TokensTellTheBytes }
{}

/// The tokens of a line say one value of one type, by the types before it.
pub fn lines_say_one_value()
    ensures { LinesSayOneValue }
{}
