//! What each event leaves.
ghost use Rattle.std.specs.Prelude.{◌≡◌, ◌++◌, ◌∷◌, [], true, false};
ghost use Rattle.vq_model.specs.Machine.{CanAnswer, CanApply};
ghost use Rattle.vq_point_laws.specs.Points.{CanCome, CanSubmit, CanTake, CanRelease, CanBind, CanRefer, CanLook};
ghost use Rattle.vq_point_laws.specs.Points.{CanUnrefer, CanComplete, CanFree, CanStartNow, CanSignalNow};
ghost use Rattle.vq_point_laws.specs.Points.{CanFinishNow};
ghost use Rattle.vq_core.specs.CoreState.{world};

use crate::state::Core;
use vq_model::script::ActorName;
use vq_spec::{Answer, Event, Op};
use vq_tables::{AnswerState, JobRecord, Note, PointSlot};

impl Core {
    fn submit(&mut self, job: u32)
        requires { CanSubmit self.old.plan (world self.old) job }
        ensures { self.new ≡ record self.old { history = self.old.history ++ Event.Submit job ∷ [] } }
    {
        self.submitted += 1;
        self.history.push_reserved(Event::Submit { job });
    }

    fn take_new(&mut self, op: u32, point: u32)
        requires { CanTake self.old.plan (world self.old) op point true }
        ensures { self.new ≡ record self.old { history = self.old.history ++ Event.Take op point true ∷ [] } }
    {
        let Op { chain, index, .. } = self.op(op);
        let fresh = self.points;
        let timeline = &mut self.timelines[chain as usize];
        timeline.take(index, fresh);
        self.points += 1;
        let slot = self.slots.at(point, PointSlot::empty());
        self.slots.put(
            point,
            PointSlot {
                carried: Some(op),
                ..slot
            },
        );
        self.history.push_reserved(Event::Take {
            op,
            point,
            fresh: true,
        });
    }

    fn take_again(&mut self, op: u32, point: u32)
        requires { CanTake self.old.plan (world self.old) op point false }
        ensures { self.new ≡ record self.old { history = self.old.history ++ Event.Take op point false ∷ [] } }
    {
        let Op { chain, index, .. } = self.op(op);
        let fresh = self.points;
        let timeline = &mut self.timelines[chain as usize];
        timeline.take(index, fresh);
        let slot = self.slots.at(point, PointSlot::empty());
        self.slots.put(
            point,
            PointSlot {
                carried: Some(op),
                ..slot
            },
        );
        self.history.push_reserved(Event::Take {
            op,
            point,
            fresh: false,
        });
    }

    fn release(&mut self, job: u32)
        requires { CanRelease self.old.plan (world self.old) job }
        ensures { self.new ≡ record self.old { history = self.old.history ++ Event.Release job ∷ [] } }
    {
        let lane = self.plan().job(job).lane.number();
        let state = self.jobs.at(job, JobRecord::idle());
        self.jobs.put(
            job,
            JobRecord {
                released: true,
                ..state
            },
        );
        self.lanes.release(lane);
        self.history.push_reserved(Event::Release { job });
    }

    fn start(&mut self, job: u32)
        requires { CanStartNow self.old.plan (world self.old) job }
        ensures { self.new ≡ record self.old { history = self.old.history ++ Event.Start job ∷ [] } }
    {
        let reached = self.is_asked_reached(job);
        let payload = self.payload_read(job);
        let asking = self.answers.at(job, AnswerState::not_asked());
        self.answers.put(
            job,
            AnswerState {
                reached,
                payload,
                ..asking
            },
        );
        let state = self.jobs.at(job, JobRecord::idle());
        self.jobs.put(
            job,
            JobRecord {
                started: true,
                ..state
            },
        );
        self.history.push_reserved(Event::Start { job });
    }

    fn bind(&mut self, op: u32, point: u32)
        requires { CanBind self.old.plan (world self.old) op point }
        ensures { self.new ≡ record self.old { history = self.old.history ++ Event.Bind op point ∷ [] } }
    {
        let Op { chain, index, .. } = self.op(op);
        let timeline = &mut self.timelines[chain as usize];
        timeline.bind(index, point).unwrap();
        self.history.push_reserved(Event::Bind { op, point });
    }

    fn complete(&mut self, op: u32)
        requires { CanComplete self.old.plan (world self.old) op }
        ensures { self.new ≡ record self.old { history = self.old.history ++ Event.Complete op ∷ [] } }
    {
        let Op { chain, .. } = self.op(op);
        let point = self.point_of(op).unwrap();
        let timeline = &mut self.timelines[chain as usize];
        timeline.complete_first();
        let slot = self.slots.at(point, PointSlot::empty());
        self.slots.put(
            point,
            PointSlot {
                waits: true,
                ..slot
            },
        );
        self.history.push_reserved(Event::Complete { op });
    }

    fn free(&mut self, point: u32)
        requires { CanFree (world self.old) point }
        ensures { self.new ≡ record self.old { history = self.old.history ++ Event.Free point ∷ [] } }
    {
        let op = self.carried(point).unwrap();
        let Op { chain, .. } = self.op(op);
        let timeline = &mut self.timelines[chain as usize];
        timeline.free(point);
        let slot = self.slots.at(point, PointSlot::empty());
        self.slots.put(
            point,
            PointSlot {
                carried: None,
                waits: false,
                ..slot
            },
        );
        self.history.push_reserved(Event::Free { point });
    }

    fn refer(&mut self, actor: ActorName, point: u32, op: u32)
        requires { CanRefer self.old.plan (world self.old) actor point op }
        ensures { self.new ≡ record self.old { history = self.old.history ++ Event.Refer actor point op ∷ [] } }
    {
        let job = self.next_job(actor).unwrap();
        let place = self.place_of_need(job, op);
        let lane = self.plan().job(job).lane.number();
        let note = self.notes.at(job, place);
        self.notes.put(
            job,
            place,
            Note {
                referred: note.referred + 1,
                held: note.held + 1,
                ..note
            },
        );
        self.lanes.refer(lane);
        let slot = self.slots.at(point, PointSlot::empty());
        self.slots.put(
            point,
            PointSlot {
                references: slot.references + 1,
                ..slot
            },
        );
        self.history
            .push_reserved(Event::Refer { actor, point, op });
    }

    fn look(&mut self, actor: ActorName, point: u32, op: u32)
        requires { CanLook self.old.plan (world self.old) actor point op }
        ensures { self.new ≡ record self.old { history = self.old.history ++ Event.Look actor point op ∷ [] } }
    {
        let job = self.next_job(actor).unwrap();
        let place = self.place_of_need(job, op);
        let note = self.notes.at(job, place);
        self.notes.put(
            job,
            place,
            Note {
                looked: note.looked + 1,
                ..note
            },
        );
        self.history.push_reserved(Event::Look { actor, point, op });
    }

    fn unrefer(&mut self, actor: ActorName, point: u32, op: u32)
        requires { CanUnrefer (world self.old) actor point op }
        ensures { self.new ≡ record self.old { history = self.old.history ++ Event.Unref actor point op ∷ [] } }
    {
        let job = self.next_job(actor).unwrap();
        let place = self.place_of_need(job, op);
        let lane = self.plan().job(job).lane.number();
        let note = self.notes.at(job, place);
        self.notes.put(
            job,
            place,
            Note {
                held: note.held - 1,
                ..note
            },
        );
        self.lanes.unrefer(lane);
        let slot = self.slots.at(point, PointSlot::empty());
        self.slots.put(
            point,
            PointSlot {
                references: slot.references - 1,
                ..slot
            },
        );
        self.history
            .push_reserved(Event::Unref { actor, point, op });
    }

    fn apply_command(&mut self, job: u32, command: u32)
        requires { CanApply self.old.plan (world self.old).machine.progress job command }
        ensures { self.new ≡ record self.old { history = self.old.history ++ Event.Apply job command ∷ [] } }
    {
        let line = self.ordered.plan().command(command);
        self.buffers.apply(&line.command);
        let state = self.jobs.at(job, JobRecord::idle());
        self.jobs.put(
            job,
            JobRecord {
                commands: state.commands + 1,
                ..state
            },
        );
        self.history.push_reserved(Event::Apply { job, command });
    }

    fn signal(&mut self, op: u32)
        requires { CanSignalNow self.old.plan (world self.old) op }
        ensures { self.new ≡ record self.old { history = self.old.history ++ Event.Signal op ∷ [] } }
    {
        let Op {
            chain,
            job,
            value,
            ..
        } = self.op(op);
        self.payloads[chain as usize] = value;
        self.made.put(op, true);
        let state = self.jobs.at(job, JobRecord::idle());
        self.jobs.put(
            job,
            JobRecord {
                signals: state.signals + 1,
                ..state
            },
        );
        self.history.push_reserved(Event::Signal { op });
    }

    fn finish(&mut self, job: u32)
        requires { CanFinishNow self.old.plan (world self.old) job }
        ensures { self.new ≡ record self.old { history = self.old.history ++ Event.Finish job ∷ [] } }
    {
        let lane = self.plan().job(job).lane.number();
        let state = self.jobs.at(job, JobRecord::idle());
        self.jobs.put(
            job,
            JobRecord {
                finished: true,
                ..state
            },
        );
        self.lanes.finish(lane);
        self.left -= 1;
        self.history.push_reserved(Event::Finish { job });
    }

    fn answer(&mut self, job: u32, answer: Answer)
        requires { CanAnswer self.old.plan (world self.old).machine job answer }
        ensures { self.new ≡ record self.old { history = self.old.history ++ Event.Answer job answer ∷ [] } }
    {
        let asking = self.answers.at(job, AnswerState::not_asked());
        self.answers.put(
            job,
            AnswerState {
                answered: true,
                ..asking
            },
        );
        self.history.push_reserved(Event::Answer { job, answer });
    }

    /// What an event leaves, which may come: the history has it as its last. It takes no memory.
    pub fn apply(&mut self, event: Event)
        requires { CanCome self.old.plan (world self.old) event }
        ensures { self.new ≡ record self.old { history = self.old.history ++ event ∷ [] } }
    {
        match event {
            Event::Submit { job } => self.submit(job),
            Event::Take {
                op,
                point,
                fresh: true,
            } => self.take_new(op, point),
            Event::Take {
                op,
                point,
                fresh: false,
            } => self.take_again(op, point),
            Event::Release { job } => self.release(job),
            Event::Bind { op, point } => self.bind(op, point),
            Event::Refer { actor, point, op } => self.refer(actor, point, op),
            Event::Look { actor, point, op } => self.look(actor, point, op),
            Event::Unref { actor, point, op } => self.unrefer(actor, point, op),
            Event::Complete { op } => self.complete(op),
            Event::Free { point } => self.free(point),
            Event::Start { job } => self.start(job),
            Event::Apply { job, command } => self.apply_command(job, command),
            Event::Signal { op } => self.signal(op),
            Event::Finish { job } => self.finish(job),
            Event::Answer { job, answer } => self.answer(job, answer),
        }
    }
}
