ghost use Rattle.ct_lexer_laws.specs.Laws.{TextsAreReadBack, TextsWereWritten, BytesAreReadBack, BytesWereWritten, NumbersAreReadBack, NumbersWereWritten, DigitsCountByPlace, TooLargeOverflows};

/// A text that is written between quotes, with each quote of its own twice, perhaps behind `N` or `n`, is one token, and what
/// that token stands for is the text again. Each token of a text is the one that it stands for, written so.
pub fn texts_are_read_back()
    ensures back { TextsAreReadBack }
    ensures written { TextsWereWritten }
{}

/// Bytes that are written as `0x` or `0X` and two hexadecimal digits for each, of either case, are one token, and what that
/// token stands for is the bytes again. Each token of bytes is those that it stands for, written so.
pub fn bytes_are_read_back()
    ensures back { BytesAreReadBack }
    ensures written { BytesWereWritten }
{}

/// A number from 0 to 9,223,372,036,854,775,807 that is written in decimal, perhaps behind zeros, is one token, and means the
/// number again; each token of a number in that range was written so. Of digits, however many, each counts by its place, and
/// where they spell a larger number they are refused with `Overflow`.
pub fn numbers_are_read_back()
    ensures back { NumbersAreReadBack }
    ensures written { NumbersWereWritten }
    ensures places { DigitsCountByPlace }
    ensures large { TooLargeOverflows }
{}
