//! What a fill, an update and a copy leave in small buffers.
use std::alloc::{AllocError, Global};
use vq_model::list::Bytes;
use vq_model::script::{Command, FillSize};
use vq_transfer::Buffers;

/// Whether a command fits, and leaves these bytes in two buffers.
fn leaves(buffers: &mut Buffers, command: &Command, first: &[u8], second: &[u8]) -> bool {
    if !buffers.fits(command) {
        return false;
    }
    buffers.apply(command);
    buffers.count() == 2 && buffers.bytes(0) == first && buffers.bytes(1) == second
}

/// Commands one after another, and what each leaves in buffers of 8 and 7 bytes.
fn are_written(buffers: &mut Buffers, update: &Command) -> bool {
    let fill = Command::Fill {
        buffer: 1,
        offset: 0,
        size: FillSize::Whole,
        word: 0x1122_3344,
    };
    let copy = Command::Copy {
        source: 0,
        source_offset: 5,
        target: 1,
        target_offset: 1,
        size: 3,
    };
    let filled = b"\x44\x33\x22\x11\0\0\0";
    leaves(buffers, &fill, &[0; 8], filled)
        && leaves(buffers, update, &[0, 0, 0, 0, 1, 2, 3, 4], filled)
        && leaves(
            buffers,
            &copy,
            &[0, 0, 0, 0, 1, 2, 3, 4],
            b"\x44\x02\x03\x04\0\0\0",
        )
}

/// The update of the last four bytes of the first buffer.
fn update(alloc: Global) -> Result<Command, AllocError> {
    Ok(Command::Update {
        buffer: 0,
        offset: 4,
        bytes: Bytes::of([1, 2, 3, 4].to_vec(alloc)?),
    })
}

/// Whether they leave these bytes in new buffers.
fn writes(alloc: Global, update: &Command) -> bool {
    match Buffers::new(alloc, &[8, 7]) {
        Ok(mut buffers) => are_written(&mut buffers, update),
        Err(_) => false,
    }
}

#[test]
fn commands_leave_bytes(rt: HostRuntime) -> Result<(), AllocError> {
    let update = update(rt.alloc())?;
    assert!(rt; writes(rt.alloc(), &update));
    Ok(())
}
