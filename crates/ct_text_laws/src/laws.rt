ghost use Rattle.ct_text_laws.specs.Laws.{ParsedAreOfCodePoints};

/// The text literals of what is read from a text of code points are of code points.
pub fn parsed_are_of_code_points()
    ensures { ParsedAreOfCodePoints }
{}
