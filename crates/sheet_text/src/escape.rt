ghost use Rattle.std.specs.Prelude.{◌≡◌, ◌<◌, Some};
ghost use Rattle.std.specs.Char.{digit_char};
ghost use Rattle.std.specs.Fmt.{WritesOnOk};
ghost use Rattle.sheet_text.specs.Escaping.{hex_escape, escape_byte, escape};

use arrayvec::ArrayString;
use std::fmt;

// The hexadecimal digit of a number below 16.
fn hex_digit(digit: u8) -> char
    requires { digit < 16 }
    ensures value { result ≡ digit_char digit }
    ensures ascii { result < 128 }
{
    char::from_digit(u32::from(digit), 16).unwrap()
}

// The escape of a byte. Here and below `fmt::Write::write_char` takes less time than the formatter's own.
fn write_hex<W: fmt::Write>(f: &mut fmt::Formatter<W>, byte: u8) -> fmt::Result
    ensures { WritesOnOk W.write_str_gives f.old result (hex_escape byte) f.new }
{
    f.write_str("\\x")?;
    fmt::Write::write_char(f, hex_digit(byte / 16))?;
    fmt::Write::write_char(f, hex_digit(byte % 16))
}

// A byte that is shown as printable text.
#[derive(Clone, Copy)]
struct EscapedByte(u8);

impl fmt::Display for EscapedByte {
    ghost output = { λ b. Some (escape_byte b.0) };

    fn fmt<W: fmt::Write>(&self, f: &mut fmt::Formatter<W>) -> fmt::Result {
        let byte = self.0;
        match byte {
            b'\\' => f.write_str("\\\\"),
            32..=126 => fmt::Write::write_char(f, char::from(byte)),
            _ => write_hex(f, byte),
        }
    }
}

// Bytes that are shown as printable text.
#[derive(Clone, Copy)]
pub(crate) struct Escaped<'a>(pub(crate) &'a [u8]);

impl fmt::Display for Escaped<'_> {
    ghost output = { λ e. Some (escape e.0.now) };

    // The text goes out in parts, each in one write.
    fn fmt<W: fmt::Write>(&self, f: &mut fmt::Formatter<W>) -> fmt::Result {
        let mut part = ArrayString::<64>::new();
        for byte in self.0 {
            if part.remaining_capacity() < 4 {
                f.write_str(part.as_str())?;
                part.clear();
            }
            fmt::Write::write(&mut part, EscapedByte(*byte))?;
        }
        f.write_str(part.as_str())
    }
}

#[cfg(test)]
mod tests {
    use super::*;
    use std::test::Fail;

    #[test]
    fn escapes_what_is_not_printable(rt: HostRuntime) -> Result<(), Fail> {
        let mut out = String::from_str(rt.alloc(), "bytes: ")?;
        let escaped = Escaped(&[0, 31, 32, b'a', b'\\', 126, 127, 255]);
        write!(out, "{escaped}")?;
        assert_eq!(rt; out.as_str(), "bytes: \\x00\\x1f a\\\\~\\x7f\\xff");
        Ok(())
    }
}
