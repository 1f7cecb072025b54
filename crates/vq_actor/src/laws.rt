//! Laws over turns. The functions do nothing: their contracts are the laws.
ghost use Rattle.std.specs.Prelude.{◌≡◌, []};
ghost use Rattle.vq_model.specs.Plan.{Plan};
ghost use Rattle.vq_model.specs.declared.script.ActorName.{ActorName};
ghost use Rattle.vq_point_laws.specs.Points.{PointState};
ghost use Rattle.vq_turns.specs.Programs.{deferred_queues};
ghost use Rattle.vq_turns.specs.Turns.{HostPlace, host_turn, turn_of};

/// Where no queue is deferred the host serves no submit actor: its turn is that of its own program.
pub fn host_turns_are_its_own()
    ensures outcome { (p : Plan) → (w : PointState) → (x : HostPlace) → deferred_queues p ≡ [] →
        (host_turn p w x).outcome ≡ (turn_of p w ActorName.Host x.own).outcome }
    ensures place { (p : Plan) → (w : PointState) → (x : HostPlace) → deferred_queues p ≡ [] →
        (host_turn p w x).place ≡ record x { own = (turn_of p w ActorName.Host x.own).place } }
{}
