ghost use Rattle.std.specs.Prelude.{◌≡◌, ◌==◌, ◌<◌, ◌∷◌, length, position};
ghost use Rattle.std.specs.Str.Lines.{lines, strip_carriage_return};

/// A line without the CR at its end, if it has one.
fn without_return(line: &[u8]) -> &[u8]
    ensures { result.now ≡ strip_carriage_return line.now }
{
    match line {
        [front @ .., b'\r'] => front,
        _ => line,
    }
}

/// The place of the first LF.
fn line_end(bytes: &[u8]) -> Option<usize>
    ensures { result ≡ position (λ byte. byte == 10) bytes.now }
{
    bytes.iter().position(|byte| *byte == b'\n')
}

/// The first line of bytes, without its end, and the bytes after it.
pub(crate) fn first_line(bytes: &[u8]) -> (&[u8], &[u8])
    requires { 0 < length bytes.now }
    ensures first { lines bytes.now ≡ result.0.now ∷ lines result.1.now }
    ensures shorter { length result.1.now < length bytes.now }
{
    match line_end(bytes) {
        None => (bytes, &bytes[bytes.len()..]),
        Some(end) => (without_return(&bytes[..end]), &bytes[end + 1..]),
    }
}
