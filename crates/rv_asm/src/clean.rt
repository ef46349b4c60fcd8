//! Texts whose lines are printable.
ghost use Rattle.std.specs.Prelude.{◌≡◌};
ghost use Rattle.rv_asm.specs.Clean.{is_text_byte, is_clean};

use text_parts::is_printable;

fn is_text_byte(byte: u8) -> bool
    ensures { result ≡ is_text_byte byte }
{
    is_printable(byte) || byte == b'\n'
}

/// Is each byte of a text printable or the end of a line? So is each byte of its lines then.
pub fn is_clean(text: &[u8]) -> bool
    ensures { result ≡ is_clean text.now }
{
    // No early exit, so that many bytes are tested at once.
    let mut all = true;
    for byte in text {
        all &= is_text_byte(*byte);
    }
    all
}
