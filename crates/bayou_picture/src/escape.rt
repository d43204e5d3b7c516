//! Text from outside, so that no character of it is taken for a mark of the language.
ghost use Rattle.std.specs.Prelude.{◌≡◌, ◌++◌, ℕ, All, List, OnOk};
ghost use Rattle.bayou_picture.specs.Escape.{IsNoMark, escaped, escaped_byte};

use std::alloc::AllocError;

// Adds a byte, or what stands for it.
fn push_byte(text: &mut Vec<u8>, byte: u8) -> Result<(), AllocError>
    ensures { OnOk result (text.new.items ≡ text.old.items ++ escaped_byte byte) }
{
    match byte {
        b'<' => text.extend_from_slice(b"&lt;"),
        b'>' => text.extend_from_slice(b"&gt;"),
        b'&' => text.extend_from_slice(b"&amp;"),
        b'"' => text.extend_from_slice(b"&quot;"),
        b'\'' => text.extend_from_slice(b"&#39;"),
        _ => Ok(text.push(byte)?),
    }
}

/// Adds a text from outside.
pub(crate) fn push_escaped(text: &mut Vec<u8>, bytes: &[u8]) -> Result<(), AllocError>
    ensures { OnOk result (text.new.items ≡ text.old.items ++ escaped bytes.now) }
{
    for byte in bytes {
        push_byte(text, *byte)?;
    }
    Ok(())
}

/// A law: no byte of an escaped text is `<`, `>`, a double or a single quotation mark. Each of these is spelled out, and so is `&`.
pub fn escaped_text_has_no_marks()
    ensures { (bytes : List ℕ) → All IsNoMark (escaped bytes) }
{}
