//! The opening of a room, and its end.
//!
//! Source: this project's own.
ghost use Rattle.std.specs.Prelude.{◌≡◌, [], IfOk, length};
ghost use Rattle.vq_board_run.specs.Rooming.{AreFirst, IsFirstOf, IsFirstSeating, IsIdle};
ghost use Rattle.vq_board_run.specs.Unused.{IsUnused};
ghost use Rattle.vq_actor.specs.Companies.{IsCompanyOf};
ghost use Rattle.vq_board.specs.Named.{view};
ghost use Rattle.vq_model.specs.ValidScripts.{IsActor};
ghost use Rattle.vq_model.specs.declared.script.ActorName.TheVariants.{Host};

use crate::content::RoomContent;
use crate::room::AccessRoom;
use std::alloc::{AllocError, Global};
use vq_access::{Refused, Seats};
use vq_actor::{Actor, Company, Tracker};
use vq_board::Pass;
use vq_model::script::ActorName;
use vq_order::Ordered;

/// The first place of an actor.
fn own_seat(
    alloc: Global,
    ordered: &Ordered,
    company: &Company,
    owner: ActorName,
) -> Result<Tracker, AllocError>
    requires company { IsCompanyOf ordered.now company.now }
    requires actor { IsActor ordered.now.script owner }
    ensures { IfOk result (IsFirstOf ordered.now owner) }
{
    let _ = ordered;
    match owner {
        ActorName::Host => company.host().tracker(alloc),
        ActorName::Submit(queue) => company.submits()[queue as usize].tracker(alloc),
        ActorName::Ring(queue) => company.rings()[queue as usize].tracker(alloc),
    }
}

/// The first place of each of these actors.
fn seats_of(alloc: Global, actors: &[Actor]) -> Result<Vec<Tracker>, AllocError>
    ensures { IfOk result (λ seats. AreFirst actors.now (length actors.now) seats.items) }
{
    let mut seats = Vec::new(alloc);
    for actor in actors {
        seats.push(actor.tracker(alloc)?)?;
    }
    Ok(seats)
}

/// The first places of the submit actors, which the host serves where their queues are deferred; nothing for
/// other actors.
fn served_seats(
    alloc: Global,
    company: &Company,
    owner: ActorName,
) -> Result<Vec<Tracker>, AllocError>
    ensures { IfOk result (λ seats. owner ≡ Host →
        AreFirst company.now.submits (length company.now.submits) seats.items) }
{
    match owner {
        ActorName::Host => seats_of(alloc, company.submits()),
        ActorName::Submit(_) | ActorName::Ring(_) => Ok(Vec::new(alloc)),
    }
}

/// The places before the first turns.
fn first_seats(
    alloc: Global,
    ordered: &Ordered,
    company: &Company,
    owner: ActorName,
) -> Result<Seats, AllocError>
    requires company { IsCompanyOf ordered.now company.now }
    requires actor { IsActor ordered.now.script owner }
    ensures { IfOk result (IsFirstSeating ordered.now owner) }
{
    let own = own_seat(alloc, ordered, company, owner)?;
    let submits = served_seats(alloc, company, owner)?;
    Ok(Seats { own, submits })
}

impl RoomContent {
    /// What the room of an actor of a plan keeps before its first turn.
    fn new(
        alloc: Global,
        ordered: &Ordered,
        company: &Company,
        owner: ActorName,
        pass: Pass,
    ) -> Result<RoomContent, AllocError>
        requires company { IsCompanyOf ordered.now company.now }
        requires actor { IsActor ordered.now.script owner }
        requires idle { IsIdle ordered.now owner (view pass) }
        ensures pass { IfOk result (λ r. r.pass ≡ pass) }
        ensures owner { IfOk result (λ r. r.owner ≡ owner) }
        ensures unused { IfOk result (IsUnused ordered.now) }
    {
        let _lawful = ordered.plan();
        let seats = first_seats(alloc, ordered, company, owner)?;
        Ok(RoomContent {
            owner,
            pass,
            seats,
            refused: Refused::none(),
        })
    }

    /// Whose room it is.
    pub(crate) fn owner(&self) -> ActorName
        ensures { result ≡ self.now.owner }
    {
        self.owner
    }
}

impl AccessRoom {
    /// The room of an actor of a plan before its first turn, with the actor's pass, which has done nothing; the
    /// host's has done nothing but to be cut. It takes all memory that the turns need; the error is that there is
    /// none.
    pub fn new(
        alloc: Global,
        ordered: &Ordered,
        company: &Company,
        owner: ActorName,
        pass: Pass,
    ) -> Result<AccessRoom, AllocError>
        requires company { IsCompanyOf ordered.now company.now }
        requires actor { IsActor ordered.now.script owner }
        requires idle { IsIdle ordered.now owner (view pass) }
        ensures pass { IfOk result (λ r. r.pass ≡ pass) }
        ensures owner { IfOk result (λ r. r.owner ≡ owner) }
        ensures unused { IfOk result (IsUnused ordered.now) }
    {
        let content = RoomContent::new(alloc, ordered, company, owner, pass)?;
        Ok(AccessRoom {
            content: Box::new(alloc, content)?,
        })
    }

    /// Whose room it is.
    pub fn owner(&self) -> ActorName
        ensures { result ≡ self.now.owner }
    {
        self.content.owner()
    }
}
