//! The lines of a canonical text that are commands.
ghost use Rattle.std.specs.Prelude.{◌≡◌, ◌++◌, ◌∷◌, [], codes, OnOk};
ghost use Rattle.std.specs.List.{flat_map};
ghost use Rattle.std.specs.Fmt.{decimal};
ghost use Rattle.vq_model.specs.Canonical.{hex_digits, fill_word, fill_size_word, command_words};
ghost use Rattle.vq_model.specs.Naming.{buffer_name};
ghost use Rattle.vq_model.specs.Canonical.{line_text};

use crate::words::{push_fill_size, push_fill_word, push_hex_bytes, push_number, push_place};
use std::alloc::AllocError;
use vq_model::script::{Command, CommandLine, FillSize, Script};

/// The name of a buffer, empty for a buffer that isn't declared.
fn buffer_name(script: &Script, buffer: u32) -> &[u8]
    ensures { result.now ≡ buffer_name script.now buffer }
{
    match script.buffers.as_slice().get(buffer as usize) {
        Some(declared) => declared.name.as_slice(),
        None => &[],
    }
}

/// Adds the line of a fill.
fn push_fill(
    out: &mut Vec<u8>,
    name: &[u8],
    offset: u32,
    size: FillSize,
    word: u32,
) -> Result<(), AllocError>
    ensures { OnOk result (out.new.items ≡ out.old.items
        ++ line_text (codes "fill" ∷ name.now ∷ decimal offset ∷ fill_size_word size
        ∷ fill_word word ∷ [])) }
{
    out.extend_from_slice(b"fill")?;
    push_place(out, name, offset)?;
    push_fill_size(out, size)?;
    push_fill_word(out, word)?;
    out.push(b'\n')?;
    Ok(())
}

/// Adds the line of an update.
fn push_update(out: &mut Vec<u8>, name: &[u8], offset: u32, bytes: &[u8]) -> Result<(), AllocError>
    ensures { OnOk result (out.new.items ≡ out.old.items
        ++ line_text (codes "update" ∷ name.now ∷ decimal offset
        ∷ flat_map (hex_digits 2) bytes.now ∷ [])) }
{
    out.extend_from_slice(b"update")?;
    push_place(out, name, offset)?;
    out.push(b' ')?;
    push_hex_bytes(out, bytes)?;
    out.push(b'\n')?;
    Ok(())
}

/// Adds the line of a copy.
fn push_copy(
    out: &mut Vec<u8>,
    source: (&[u8], u32),
    target: (&[u8], u32),
    size: u32,
) -> Result<(), AllocError>
    ensures { OnOk result (out.new.items ≡ out.old.items
        ++ line_text (codes "copy" ∷ source.entry.0.now ∷ decimal source.entry.1
        ∷ target.entry.0.now ∷ decimal target.entry.1 ∷ decimal size ∷ [])) }
{
    out.extend_from_slice(b"copy")?;
    push_place(out, source.0, source.1)?;
    push_place(out, target.0, target.1)?;
    push_number(out, u64::from(size))?;
    out.push(b'\n')?;
    Ok(())
}

/// Adds the line of a command.
fn push_command(out: &mut Vec<u8>, script: &Script, command: &Command) -> Result<(), AllocError>
    ensures { OnOk result
        (out.new.items ≡ out.old.items ++ line_text (command_words script.now command.now)) }
{
    match command {
        Command::Fill {
            buffer,
            offset,
            size,
            word,
        } => {
            let name = buffer_name(script, *buffer);
            push_fill(out, name, *offset, *size, *word)
        }
        Command::Update {
            buffer,
            offset,
            bytes,
        } => {
            let name = buffer_name(script, *buffer);
            push_update(out, name, *offset, bytes.as_slice())
        }
        Command::Copy {
            source,
            source_offset,
            target,
            target_offset,
            size,
        } => {
            let source = (buffer_name(script, *source), *source_offset);
            let target = (buffer_name(script, *target), *target_offset);
            push_copy(out, source, target, *size)
        }
    }
}

/// Adds the lines of commands.
pub(crate) fn push_commands(
    out: &mut Vec<u8>,
    script: &Script,
    commands: &[CommandLine],
) -> Result<(), AllocError>
    ensures { OnOk result (out.new.items ≡ out.old.items
        ++ flat_map (λ c. line_text (command_words script.now c.command)) commands.now) }
{
    for line in commands {
        push_command(out, script, &line.command)?;
    }
    Ok(())
}
