ghost use Rattle.std.specs.Prelude.{◌≡◌};
ghost use Rattle.input_lines.specs.Contents.{content, is_blank, is_comment, is_skipped};

fn is_comment(line: &[u8]) -> bool
    ensures { result ≡ is_comment line.now }
{
    matches!(line, [b'#', ..])
}

fn is_blank(line: &[u8]) -> bool
    ensures { result ≡ is_blank line.now }
{
    line.iter().all(|byte| *byte == b' ')
}

/// Whether a line says nothing: a comment, which begins with `#`, or nothing but blanks.
pub fn is_skipped(line: &[u8]) -> bool
    ensures { result ≡ is_skipped line.now }
{
    is_comment(line) || is_blank(line)
}

/// What a line says: a carriage return before the newline that ended it is none of it.
pub fn content(line: &[u8], ended: bool) -> &[u8]
    ensures { result.now ≡ content (record { bytes = line.now; ended = ended }) }
{
    if !ended {
        return line;
    }
    let length = line.len();
    if length == 0 {
        return line;
    }
    if line[length - 1] != b'\r' {
        return line;
    }
    let (front, _) = line.split_at(length - 1);
    front
}
