//! The words of a canonical text, and lines of a word and a name.
ghost use Rattle.std.specs.Prelude.{◌≡◌, ◌++◌, ◌∷◌, [], ◌<◌, OnOk};
ghost use Rattle.std.specs.List.{flat_map};
ghost use Rattle.std.specs.Char.{digit_char};
ghost use Rattle.std.specs.Fmt.{decimal};
ghost use Rattle.vq_model.specs.Forms.{mode_word};
ghost use Rattle.vq_model.specs.Canonical.{hex_digits, fill_word, fill_size_word, line_text};

use crate::room::put_number;
use std::alloc::AllocError;
use vq_model::hexadecimal::hex_digit;
use vq_model::script::{FillSize, Mode};

/// The most digits of a number of 64 bits.
const NUMERAL_ROOM: usize = 20;

/// The word of a mode.
pub(crate) fn mode_word(mode: Mode) -> &'static [u8]
    ensures { result.now ≡ mode_word mode }
{
    match mode {
        Mode::Immediate => b"immediate",
        Mode::Deferred => b"deferred",
        Mode::Threaded => b"threaded",
    }
}

/// Adds the two digits of a byte.
fn push_hex_byte(out: &mut Vec<u8>, byte: u8) -> Result<(), AllocError>
    ensures { OnOk result (out.new.items ≡ out.old.items ++ hex_digits 2 byte) }
{
    out.push(hex_digit(byte / 16))?;
    out.push(hex_digit(byte % 16))?;
    Ok(())
}

/// Adds two digits for each byte.
pub(crate) fn push_hex_bytes(out: &mut Vec<u8>, bytes: &[u8]) -> Result<(), AllocError>
    ensures { OnOk result (out.new.items ≡ out.old.items ++ flat_map (hex_digits 2) bytes.now) }
{
    for byte in bytes {
        push_hex_byte(out, *byte)?;
    }
    Ok(())
}

/// Adds a space and a word. The error is want of memory.
pub fn push_word(out: &mut Vec<u8>, word: &[u8]) -> Result<(), AllocError>
    ensures { OnOk result (out.new.items ≡ out.old.items ++ 32 ∷ word.now) }
{
    out.push(b' ')?;
    out.extend_from_slice(word)
}

/// Adds a decimal numeral. The error is want of memory.
pub fn push_numeral(out: &mut Vec<u8>, number: u64) -> Result<(), AllocError>
    ensures { OnOk result (out.new.items ≡ out.old.items ++ decimal number) }
{
    out.reserve(NUMERAL_ROOM)?;
    put_number(out, number);
    Ok(())
}

/// Adds a space and a decimal numeral. The error is want of memory.
pub fn push_number(out: &mut Vec<u8>, number: u64) -> Result<(), AllocError>
    ensures { OnOk result (out.new.items ≡ out.old.items ++ 32 ∷ decimal number) }
{
    out.push(b' ')?;
    push_numeral(out, number)
}

/// Adds a space and the word of a fill.
pub(crate) fn push_fill_word(out: &mut Vec<u8>, word: u32) -> Result<(), AllocError>
    ensures { OnOk result (out.new.items ≡ out.old.items ++ 32 ∷ fill_word word) }
{
    push_word(out, b"0x")?;
    push_hex_bytes(out, &word.to_be_bytes())
}

/// Adds a space and the size of a fill.
pub(crate) fn push_fill_size(out: &mut Vec<u8>, size: FillSize) -> Result<(), AllocError>
    ensures { OnOk result (out.new.items ≡ out.old.items ++ 32 ∷ fill_size_word size) }
{
    match size {
        FillSize::Whole => push_word(out, b"whole"),
        FillSize::Count(count) => push_number(out, u64::from(count)),
    }
}

/// Adds the name of a buffer and a place in it, each after a space.
pub(crate) fn push_place(out: &mut Vec<u8>, name: &[u8], offset: u32) -> Result<(), AllocError>
    ensures { OnOk result
        (out.new.items ≡ out.old.items ++ (32 ∷ name.now ++ 32 ∷ decimal offset)) }
{
    push_word(out, name)?;
    push_number(out, u64::from(offset))
}

/// Adds a line of a word and a name.
pub(crate) fn push_name_line(out: &mut Vec<u8>, word: &[u8], name: &[u8]) -> Result<(), AllocError>
    ensures { OnOk result
        (out.new.items ≡ out.old.items ++ line_text (word.now ∷ name.now ∷ [])) }
{
    out.extend_from_slice(word)?;
    push_word(out, name)?;
    out.push(b'\n')?;
    Ok(())
}

/// Adds a line of a word, a name and a decimal numeral.
pub(crate) fn push_number_line(
    out: &mut Vec<u8>,
    word: &[u8],
    name: &[u8],
    number: u64,
) -> Result<(), AllocError>
    ensures { OnOk result (out.new.items ≡ out.old.items
        ++ line_text (word.now ∷ name.now ∷ decimal number ∷ [])) }
{
    out.extend_from_slice(word)?;
    push_word(out, name)?;
    push_number(out, number)?;
    out.push(b'\n')?;
    Ok(())
}
