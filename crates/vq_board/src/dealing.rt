//! The passes of a new board are cut off the host's.
ghost use Rattle.std.specs.Prelude.{◌≡◌, ◌+◌, ◌<◌, ◌^◌, length, map, IfOk, OnOk};
ghost use Rattle.std.specs.List.{range_with_len};
ghost use Rattle.vq_board_laws.specs.declared.view.Role.TheVariants.{Submit, Ring, Shelf};
ghost use Rattle.vq_board_laws.specs.Roles.{role_number, role_count, threaded_queues};
ghost use Rattle.vq_board.specs.Named.{plan_of, view, role_of, IsFresh, AreFresh, IsCut};

use crate::parts::{Board, Pass};
use crate::plays::Deal;
use std::alloc::{AllocError, Global};
use vq_board_laws::view::Role;
use vq_model::script::Script;

impl Board {
    /// Cuts the pass of the next role off the host's. The error is want of memory.
    fn cut(&self, alloc: Global, host: &mut Pass, role: Role) -> Result<Pass, AllocError>
        requires host { IsCut self.now host.old (view host.old).given }
        requires next { role_number (plan_of self.now) role ≡ (view host.old).given + 1 }
        requires within { role_number (plan_of self.now) role < role_count (plan_of self.now) }
        ensures host { OnOk result (IsCut self.now host.new ((view host.old).given + 1)) }
        ensures fresh { IfOk result (λ x. IsFresh self.now x) }
        ensures role { IfOk result (λ x. role_of x ≡ role) }
    {
        let first_made = vec![in alloc; 0u32; host.first_made.len()]?;
        let seat = self.table.shared.split_seat::<Deal>(&mut host.seat);
        Ok(Pass {
            seat,
            role,
            runs: None,
            first_made,
        })
    }

    /// The passes of the threaded queues.
    pub(crate) fn deal_submits(
        &self,
        alloc: Global,
        script: &Script,
        host: &mut Pass,
    ) -> Result<Vec<Pass>, AllocError>
        requires script { script.now ≡ (plan_of self.now).script }
        requires few { length script.now.queues < 2 ^ 32 }
        requires host { IsCut self.now host.old 0 }
        ensures host { OnOk result
            (IsCut self.now host.new (length (threaded_queues (plan_of self.now)))) }
        ensures passes { IfOk result (λ v.
            AreFresh self.now v.items (map Submit (threaded_queues (plan_of self.now)))) }
    {
        let queues = script.queues.len() as u32;
        let mut passes = Vec::with_capacity(alloc, queues as usize)?;
        for queue in 0..queues {
            if script.is_threaded(queue) {
                passes.push(self.cut(alloc, host, Role::Submit(queue))?)?;
            }
        }
        Ok(passes)
    }

    /// The passes of the queues.
    pub(crate) fn deal_rings(
        &self,
        alloc: Global,
        queues: u32,
        host: &mut Pass,
    ) -> Result<Vec<Pass>, AllocError>
        requires queues { queues ≡ length (plan_of self.now).script.queues }
        requires host { IsCut self.now host.old (length (threaded_queues (plan_of self.now))) }
        ensures host { OnOk result
            (IsCut self.now host.new (length (threaded_queues (plan_of self.now)) + queues)) }
        ensures passes { IfOk result (λ v.
            AreFresh self.now v.items (map Ring (range_with_len 0 queues))) }
    {
        let mut passes = Vec::with_capacity(alloc, queues as usize)?;
        for queue in 0..queues {
            passes.push(self.cut(alloc, host, Role::Ring(queue))?)?;
        }
        Ok(passes)
    }

    /// The passes of the chains.
    pub(crate) fn deal_shelves(
        &self,
        alloc: Global,
        chains: u32,
        host: &mut Pass,
    ) -> Result<Vec<Pass>, AllocError>
        requires chains { chains ≡ length (plan_of self.now).chains }
        requires host { IsCut self.now host.old
            (length (threaded_queues (plan_of self.now)) + length (plan_of self.now).script.queues) }
        ensures host { OnOk result (IsCut self.now host.new
            (length (threaded_queues (plan_of self.now)) + length (plan_of self.now).script.queues
            + chains)) }
        ensures passes { IfOk result (λ v.
            AreFresh self.now v.items (map Shelf (range_with_len 0 chains))) }
    {
        let mut passes = Vec::with_capacity(alloc, chains as usize)?;
        for chain in 0..chains {
            passes.push(self.cut(alloc, host, Role::Shelf(chain))?)?;
        }
        Ok(passes)
    }
}
