ghost use Rattle.ct_parser.specs.Law.{AnswersOnce, ReadsExactly};

/// The readers of the rules answer what the grammar says: of any lexemes the one tree that they spell, or the first
/// lexeme at which no sentence goes on, or that sentences go on at it only with more levels than are allowed.
pub fn reads_exactly()
    ensures { ReadsExactly }
{}

/// What `parse` answers is the only answer that its clause allows: two answers to the tokens of a text, neither of them
/// want of memory, are the same.
pub fn answers_once()
    ensures { AnswersOnce }
{}
