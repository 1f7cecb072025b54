//! Generated texts of one round and of the most, where there is memory.
ghost use Rattle.std.specs.Prelude.{◌≤◌};

use std::alloc::Global;
use vq_generator::generate;

const ONE_ROUND: &[u8] = b"buffer B00 64
buffer B01 64
buffer B10 64
buffer B11 64
buffer B20 64
buffer B21 64
buffer B30 64
buffer B31 64
timeline T0 0
timeline T1 0
timeline T2 0
timeline T3 0
queue Q0 threaded
queue Q1 threaded
queue Q2 threaded
queue Q3 threaded
submit Q0
wait T1 0
wait T2 0
wait T3 0
copy B10 0 B01 0 64
fill B01 4 4 0x00000004
signal T0 1
end
submit Q1
wait T0 0
wait T2 0
wait T3 0
copy B20 0 B11 0 64
fill B11 4 4 0x00000005
signal T1 1
end
submit Q2
wait T0 0
wait T1 0
wait T3 0
copy B30 0 B21 0 64
fill B21 4 4 0x00000006
signal T2 1
end
submit Q3
wait T0 0
wait T1 0
wait T2 0
copy B00 0 B31 0 64
fill B31 4 4 0x00000007
signal T3 1
end
";

/// Whether the generated text of so many rounds is this one.
fn is_text(alloc: Global, rounds: u32, text: &[u8]) -> bool
    requires first { 1 ≤ rounds }
    requires last { rounds ≤ 500 }
{
    match generate(alloc, rounds) {
        Ok(made) => made.as_slice() == text,
        Err(_) => false,
    }
}

/// How long the generated text of so many rounds is; none where there is no memory.
fn text_len(alloc: Global, rounds: u32) -> Option<usize>
    requires first { 1 ≤ rounds }
    requires last { rounds ≤ 500 }
{
    match generate(alloc, rounds) {
        Ok(made) => Some(made.len()),
        Err(_) => None,
    }
}

#[test]
fn one_round_and_the_most(rt: HostRuntime) {
    assert!(rt; is_text(rt.alloc(), 1, ONE_ROUND));
    assert_eq!(rt; text_len(rt.alloc(), 500), Some(216_108));
}
