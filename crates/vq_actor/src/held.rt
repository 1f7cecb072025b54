//! References that are held for needs.
ghost use Rattle.vq_actor.specs.Positions.{FindsFirst};

/// A reference that is held to a point, while the point carries this operation.
#[derive(Clone, Copy)]
pub(crate) struct Held {
    pub(crate) point: u32,
    pub(crate) op: u32,
}

/// The first reference that is held, with the index of its need.
pub(crate) fn first_held(held: &[Option<Held>]) -> Option<(usize, Held)>
    ensures { FindsFirst held.now result }
{
    for k in 0..held.len() {
        match held[k] {
            Some(reference) => return Some((k, reference)),
            None => {}
        }
    }
    None
}
