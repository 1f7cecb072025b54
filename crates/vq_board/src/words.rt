//! Which word of the board is whose.
ghost use Rattle.std.specs.Prelude.{◌≡◌, ◌<◌, ◌^◌};
ghost use Rattle.vq_board_laws.specs.Words.{job_word, op_word, point_word, place_word};

/// The word of the turn over the buffers.
pub(crate) const TURN_WORD: usize = 0;

/// The word of the count of points.
pub(crate) const COUNT_WORD: usize = 1;

/// The word of a job.
pub(crate) fn job_word(job: u32) -> usize
    ensures { result ≡ job_word job }
{
    4 * job as usize + 2
}

/// The word of an operation.
pub(crate) fn op_word(op: u32) -> usize
    ensures { result ≡ op_word op }
{
    4 * op as usize + 3
}

/// The word of a point.
pub(crate) fn point_word(point: u32) -> usize
    ensures { result ≡ point_word point }
{
    4 * point as usize + 4
}

/// The word of a place of the log.
pub(crate) fn place_word(place: u64) -> usize
    requires { place < 2 ^ 32 }
    ensures { result ≡ place_word place }
{
    4 * place as usize + 5
}
