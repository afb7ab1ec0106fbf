//! Laws of texts in place of numbers. Each function does nothing: its contract is a law that is proved here, once.

ghost use Rattle.json_number_texts.specs.Laws.{LinesBecomeTexts, PiecesAreOne};

/// Of the compact text of JSON values, each with a line feed behind it, comes the compact text of the values with a
/// string of its digits in the place of each number, and all else as it is. The values have no floats.
pub fn lines_become_texts()
    ensures { LinesBecomeTexts }
{}

/// However a text is cut into pieces, what comes of them one behind another is what comes of the text.
pub fn pieces_are_one()
    ensures { PiecesAreOne }
{}
