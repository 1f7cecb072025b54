//! The opening of what handles hold.
//!
//! Source: this project's own.
ghost use Rattle.std.specs.Prelude.{◌≡◌, [], IfErr, IfOk, length};
ghost use Rattle.vq_c.specs.Opened.{AreActorsOf, HoldsPlanOf, HoldsRunOf, IsRunOf};
ghost use Rattle.vq_face.specs.Endings.{IsEnding};
ghost use Rattle.vq_core_run.specs.Casts.{first_places, places};

use crate::object::Object;
use core::ptr::null_mut;
use std::alloc::{AllocError, Global};
use vq_core_run::Drive;
use vq_face::{Ending, lawful_plan};
use vq_order::Ordered;
use vq_shared_run::{number_of, share};

/// A lawful plan of a text, or what else comes of the text. Want of memory may come in the place of the plan.
pub(crate) fn planned(alloc: Global, text: &[u8]) -> Result<Box<Object>, Ending>
    ensures lawful { IfOk result (λ object. HoldsPlanOf text.now object.value) }
    ensures refused { IfErr result (IsEnding text.now) }
{
    let ordered = lawful_plan(alloc, text)?;
    match Box::new(alloc, Object::Plan(ordered)) {
        Ok(boxed) => Ok(boxed),
        Err(_) => Err(Ending::NoMemory),
    }
}

/// A run of the lawful plan of a text before its first turn.
fn drive_of(alloc: Global, text: &[u8]) -> Result<Drive, Ending>
    ensures lawful { IfOk result (λ drive. IsRunOf text.now drive) }
    ensures refused { IfErr result (IsEnding text.now) }
{
    let ordered = lawful_plan(alloc, text)?;
    match Drive::new(alloc, ordered) {
        Ok(drive) => Ok(drive),
        Err(_) => Err(Ending::NoMemory),
    }
}

/// The same in a box of its own, or what else comes of the text. Want of memory may come in the place of the run.
pub(crate) fn opened(alloc: Global, text: &[u8]) -> Result<Box<Object>, Ending>
    ensures lawful { IfOk result (λ object. HoldsRunOf text.now object.value) }
    ensures refused { IfErr result (IsEnding text.now) }
{
    let drive = drive_of(alloc, text)?;
    match Box::new(alloc, Object::Run(drive)) {
        Ok(boxed) => Ok(boxed),
        Err(_) => Err(Ending::NoMemory),
    }
}

/// An actor as a handle holds it, and its number.
#[derive(Drop)]
pub(crate) struct Numbered {
    number: u64,
    object: Box<Object>,
}

/// The actors of a run of a plan over a board, before their first turns. The error is want of memory.
pub(crate) fn shared(alloc: Global, ordered: Ordered) -> Result<Vec<Numbered>, AllocError>
    ensures { IfOk result (λ actors. AreActorsOf ordered actors.items) }
{
    let players = share(alloc, ordered)?;
    let mut actors = Vec::new(alloc);
    for player in players {
        let number = number_of(player.actor());
        let object = Box::new(alloc, Object::Actor(Box::into_inner(player)))?;
        actors.push(Numbered { number, object })?;
    }
    Ok(actors)
}

/// Writes the pointer of each actor at its number, and null in all other places.
pub(crate) fn hand_out(actors: Vec<Numbered>, room: &mut [*mut u8])
    ensures { length room.new ≡ length room.old }
{
    for place in 0..room.len() {
        room[place] = null_mut();
    }
    for actor in actors {
        let Numbered { number, object } = actor;
        let number = number as usize;
        if number < room.len() {
            room[number] = Box::into_raw(object) as *mut u8;
        }
    }
}
