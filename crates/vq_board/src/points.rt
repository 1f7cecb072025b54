//! The steps on the word of a point.
//!
//! Source: this project's own, where an item names no other.
ghost use Rattle.std.specs.Prelude.{◌≡◌, ◌≢◌, ℕ, ◌+◌, ◌<◌, ◌^◌, ◌⊎◌};
ghost use Rattle.std.specs.Prelude.{length, true, false, IfOk, IfErr};
ghost use Rattle.vq_point.specs.Word.{bits_of};
ghost use Rattle.vq_ground.specs.Lists.{has};
ghost use Rattle.vq_point_laws.specs.PointWord.{parts};
ghost use Rattle.vq_board_laws.specs.MayPoints.{MayMake, MayAssign, MayRetire, MayRefer};
ghost use Rattle.vq_board_laws.specs.Points.{reference, Lists, IsWord};
ghost use Rattle.vq_board_laws.specs.Knowledge.{KnowsMade};
ghost use Rattle.vq_board_laws.specs.PointSteps.{carrying_word, sees, makes, assigns, retires, refers, unrefers};
ghost use Rattle.vq_board_laws.specs.Words.{Carries, count_word, point_word};
ghost use Rattle.vq_board.specs.Firsts.{counted_word};
ghost use Rattle.vq_board.specs.Named.{plan_of, view, counts_of, IsOf, Turns, TurnsWith};
ghost use Rattle.vq_board.specs.Named.{Finds, Leaves, Changes, EndsAt};
ghost use Rattle.vq_board.specs.Answers.{IsInUse, IsReferred, IsLost};

use crate::parts::{Board, InUse, Lost, Pass, Referred};
use crate::plays::{Assign, LookAtPoint, Make, Refer, Retire, Unrefer};
use crate::words::{COUNT_WORD, point_word};
use vq_point::{CARRYING, PointWord, REFERENCE, carries, decoded, references};

impl Board {
    /// The word of a point as a number.
    fn load_point(&self, pass: &mut Pass, point: u32) -> u64
        requires board { IsOf self.now pass.old }
        requires exists { point < length (plan_of self.now).ops }
        ensures pass { Turns pass.old pass.new (sees (view pass.old) point result) }
        ensures word { IsWord result }
        ensures referred { (e : ℕ) → Lists (view pass.old).refs (reference point e) →
            Carries result e }
        ensures carried { (e : ℕ) → Lists (view pass.old).carrying (reference point e) →
            Carries result e }
        ensures unmade { (e : ℕ) → Carries result e → (parts result).signaled ≡ false →
            ¬ KnowsMade (plan_of self.now) (view pass.new).known e }
        ensures step { Finds self.now pass.old pass.new (point_word point) result }
    {
        self.table
            .shared
            .load::<LookAtPoint>(&mut pass.seat, point_word(point))
    }

    /// Makes a point for the shelf of the pass. Its number is below the plan's number of operations,
    /// and no other call gives it.
    pub fn make(&self, pass: &mut Pass) -> u32
        requires board { IsOf self.now pass.old }
        requires may { MayMake (plan_of self.now) (view pass.old) }
        ensures pass { Turns pass.old pass.new (makes (view pass.old) result) }
        ensures exists { result < length (plan_of self.now).ops }
        ensures fresh { has (view pass.old).owned result ≡ false }
        ensures step { Changes self.now pass.old pass.new count_word result }
    {
        self.table
            .shared
            .fetch_add::<Make>(&mut pass.seat, COUNT_WORD, 1) as u32
    }

    /// Gives a point of the shelf to an operation of its chain.
    pub fn assign(&self, pass: &mut Pass, point: u32, op: u32)
        requires board { IsOf self.now pass.old }
        requires exists { point < length (plan_of self.now).ops }
        requires may { MayAssign (plan_of self.now) (view pass.old) point op }
        ensures pass { Turns pass.old pass.new (assigns (view pass.old) point op) }
        ensures step { Leaves self.now pass.old pass.new (point_word point) (carrying_word op) }
    {
        self.table
            .shared
            .store::<Assign>(&mut pass.seat, point_word(point), op as u64 + CARRYING);
    }

    /// What the word of a point says. A point that isn't made says nothing. What the pass learns by it
    /// is in its view; with a reference to the point it learns how far that operation is.
    pub fn look(&self, pass: &mut Pass, point: u32) -> PointWord
        requires board { IsOf self.now pass.old }
        requires exists { point < length (plan_of self.now).ops }
        ensures pass { TurnsWith pass.old pass.new (sees (view pass.old) point (bits_of result))
            (counted_word (plan_of self.now).ops result (counts_of pass.old)) }
        ensures referred { (e : ℕ) → Lists (view pass.old).refs (reference point e) →
            (result.held ≡ true) × (result.op ≡ e) }
        ensures carried { (e : ℕ) → Lists (view pass.old).carrying (reference point e) →
            (result.held ≡ true) × (result.op ≡ e) }
        ensures unmade { result.held ≡ true → result.signaled ≡ false →
            ¬ KnowsMade (plan_of self.now) (view pass.new).known result.op }
        ensures parts { parts (bits_of result) ≡ record {
          op = result.op;
          refs = result.refs;
          signaled = result.signaled;
          held = result.held;
        } }
        ensures step { Finds self.now pass.old pass.new (point_word point) (bits_of result) }
    {
        let parts = decoded(self.load_point(pass, point));
        self.note_word(pass, parts);
        parts
    }

    /// Takes a reference to a point that carries the operation. It says so where the point carries
    /// another, and where its word was changed between two steps of this call; then nothing is
    /// changed.
    pub fn refer(&self, pass: &mut Pass, point: u32, op: u32) -> Referred
        requires board { IsOf self.now pass.old }
        requires exists { point < length (plan_of self.now).ops }
        requires may { MayRefer (plan_of self.now) (view pass.old) }
        ensures pass { IsReferred pass.old pass.new point op result }
        ensures step { EndsAt self.now pass.new (point_word point) }
    {
        let loaded = self.load_point(pass, point);
        if !carries(loaded, op) {
            return Referred::MovedOn { found: loaded };
        }
        let found = self.table.shared.compare_exchange::<Refer>(
            &mut pass.seat,
            point_word(point),
            loaded,
            loaded + REFERENCE,
        );
        if found == loaded {
            Referred::Held
        } else if carries(found, op) {
            Referred::Lost { found }
        } else {
            Referred::MovedOn { found }
        }
    }

    /// Gives a reference back. The error comes only where the word was changed between the two steps
    /// of this call; then nothing is changed.
    pub fn unrefer(&self, pass: &mut Pass, point: u32, op: u32) -> Result<(), Lost>
        requires board { IsOf self.now pass.old }
        requires exists { point < length (plan_of self.now).ops }
        requires holds { Lists (view pass.old).refs (reference point op) }
        ensures given { IfOk result (λ _. (n : ℕ)
            × Turns pass.old pass.new (unrefers (sees (view pass.old) point n) point op n)) }
        ensures lost { IfErr result (λ x. IsLost pass.old pass.new point x.found) }
        ensures step { EndsAt self.now pass.new (point_word point) }
    {
        let loaded = self.load_point(pass, point);
        let found = self.table.shared.compare_exchange::<Unrefer>(
            &mut pass.seat,
            point_word(point),
            loaded,
            loaded - REFERENCE,
        );
        if found == loaded {
            Ok(())
        } else {
            Err(Lost { found })
        }
    }

    /// Frees a point of the shelf, whose operation is past. The error comes only where the word had a
    /// reference, or was changed between the two steps of this call; then nothing is changed.
    pub fn retire(&self, pass: &mut Pass, point: u32) -> Result<(), InUse>
        requires board { IsOf self.now pass.old }
        requires exists { point < length (plan_of self.now).ops }
        requires may { (e : ℕ) × MayRetire (plan_of self.now) (view pass.old) point e }
        ensures freed { IfOk result (λ _. (n : ℕ) × ((parts n).refs ≡ 0)
            × Turns pass.old pass.new (retires (sees (view pass.old) point n) point n)) }
        ensures in_use { IfErr result (λ x. IsInUse pass.old pass.new point x.found) }
        ensures step { EndsAt self.now pass.new (point_word point) }
    {
        let loaded = self.load_point(pass, point);
        if references(loaded) != 0 {
            return Err(InUse { found: loaded });
        }
        let found = self
            .table
            .shared
            .compare_exchange::<Retire>(&mut pass.seat, point_word(point), loaded, 0);
        if found == loaded {
            Ok(())
        } else {
            Err(InUse { found })
        }
    }
}
