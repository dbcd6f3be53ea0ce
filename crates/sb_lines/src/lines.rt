//! Lines of the input.

ghost use Rattle.std.specs.Prelude.{◌≡◌};
ghost use Rattle.sb_tokens.specs.Tokens.{is_blank};
ghost use Rattle.sb_lines.specs.Lines.{asks, without_return, is_passed_over};

/// So many bytes a line has at most, without its carriage return.
const MOST_BYTES: usize = 4096;

/// So many bytes of a line are kept: those of the longest one, a carriage return, and one more, by which a longer line is
/// known.
pub const MOST_HELD: usize = 4098;

/// The line without one carriage return at its end.
pub fn content(line: &[u8]) -> &[u8]
    ensures { result.now ≡ without_return line.now }
{
    let Some((last, front)) = line.split_last() else {
        return line;
    };
    if *last == b'\r' { front } else { line }
}

/// Whether the line asks for a reply: it is too long, or neither blank nor a comment. It is given without the carriage
/// return that it may end in.
pub fn asks(line: &[u8]) -> bool
    ensures { result ≡ asks line.now }
{
    line.len() > MOST_BYTES || !is_quiet(line)
}

/// Whether the line is blank or a comment.
fn is_quiet(line: &[u8]) -> bool
    ensures { result ≡ is_passed_over line.now }
{
    for byte in line {
        if !is_blank_byte(*byte) {
            return *byte == b'#';
        }
    }
    true
}

fn is_blank_byte(byte: u8) -> bool
    ensures { result ≡ is_blank byte }
{
    byte == b' ' || byte == b'\t'
}
