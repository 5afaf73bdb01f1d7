ghost use Rattle.std.specs.Prelude.{◌≡◌, ◌≤◌, length};
ghost use Rattle.std.specs.List.{prefix_len};
ghost use Rattle.ct_lexer.specs.Bytes.{belongs, starts};

/// The classes of bytes that the forms of tokens tell apart.
#[derive(Clone, Copy)]
pub enum ByteClass {
    /// What separates tokens.
    Blank,
    /// What a comment holds: any byte but a line feed.
    Comment,
    /// What a bare name begins with.
    Letter,
    /// What a bare name holds.
    Name,
    Digit,
    HexDigit,
    /// What may stand in brackets.
    Bracketed,
    CloseBracket,
    Quote,
    /// The letter before a text's first quote.
    TextMark,
    /// The letter behind the `0` of bytes.
    BytesMark,
    /// The signs of one byte.
    Sign,
}

impl ByteClass {
    /// Whether a byte is of this class.
    pub fn has(self, byte: u8) -> bool
        ensures { result ≡ belongs self byte }
    {
        match self {
            ByteClass::Blank => byte == b' ' || byte == b'\t' || byte == b'\r' || byte == b'\n',
            ByteClass::Comment => byte != b'\n',
            ByteClass::Letter => byte.is_ascii_alphabetic() || byte == b'_',
            ByteClass::Name => byte.is_ascii_alphanumeric() || byte == b'_',
            ByteClass::Digit => byte.is_ascii_digit(),
            ByteClass::HexDigit => byte.is_ascii_hexdigit(),
            ByteClass::Bracketed => b' ' <= byte && byte <= b'~' && byte != b']',
            ByteClass::CloseBracket => byte == b']',
            ByteClass::Quote => byte == b'\'',
            ByteClass::TextMark => byte == b'N' || byte == b'n',
            ByteClass::BytesMark => byte == b'x' || byte == b'X',
            ByteClass::Sign => b"(),.;=<>+-*".contains(&byte),
        }
    }

    /// Whether the bytes begin with one of this class.
    pub fn starts(self, bytes: &[u8]) -> bool
        ensures { result ≡ starts self bytes.now }
    {
        match bytes.first() {
            Some(byte) => self.has(*byte),
            None => false,
        }
    }

    /// How many bytes from the front on are of this class.
    pub fn run(self, bytes: &[u8]) -> usize
        ensures run { result ≡ prefix_len (belongs self) bytes.now }
        ensures within { result ≤ length bytes.now }
    {
        bytes.iter().take_while(|byte| self.has(**byte)).count()
    }
}
