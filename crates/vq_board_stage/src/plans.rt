//! Plans of texts.
use std::alloc::Global;
use vq_order::{Ordered, check};
use vq_script::{Form, is_short, parse};
use vq_spec::Plan;

/// The plan of a text that has a lawful one.
pub fn checked(alloc: Global, text: &[u8]) -> Option<Ordered> {
    if !is_short(text) {
        return None;
    }
    let script = parse(alloc, text, Form::Plain).ok()?;
    check(alloc, Plan::lower(alloc, script).ok()?).ok()
}
