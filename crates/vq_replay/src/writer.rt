//! A text that is written line by line: the last lines stand in a room of a fixed size until it is nearly full.
//!
//! Source: this project's own.
ghost use Rattle.std.specs.Prelude.{◌≡◌, ◌≤◌, ◌++◌, [], IfOk, OnOk, length, take};
ghost use Rattle.std.specs.List.{flat_map};
ghost use Rattle.vq_replay.specs.SpelledWords.{AreSpelled, Spells};
ghost use Rattle.vq_replay.specs.Traces.{turn_line};

use crate::lines::put_turn;
use crate::played::Played;
use crate::spelled::Spelled;
use crate::trace::push_turn;
use std::alloc::{AllocError, Global};
use std::marker::Model;
use vq_spec::Plan;

/// How many bytes of the last lines stand apart.
const ROOM: usize = 8192;

/// Where so many bytes stand there, another line may find no room.
const FULL: usize = ROOM - 160;

/// A text, and the last lines of it in a room of their own.
#[derive(Drop)]
pub(crate) struct Writer {
    text: Vec<u8>,
    room: Vec<u8>,
    at: usize,
}

impl Model for Writer {
    ghost use Rattle.std.specs.Prelude.{◌≡◌, ◌≤◌, ◌++◌, List, length, take, ℕ};

    ghost Value = { List ℕ };

    ghost view = { λ a. a.text.items ++ take a.at a.room.items };

    ghost invariant = { λ a. (length a.room.items ≡ 8192) × (a.at ≤ 8192) };
}

impl Writer {
    /// An empty text that may have so many bytes without more memory. The error is want of memory.
    pub(crate) fn new(alloc: Global, capacity: usize) -> Result<Writer, AllocError>
        ensures { IfOk result (λ writer. writer ≡ []) }
    {
        let text = Vec::with_capacity(alloc, capacity)?;
        let room = vec![in alloc; 0; ROOM]?;
        Ok(Writer { text, room, at: 0 })
    }

    /// Adds the line of a turn that may hold a long name.
    fn add_long(&mut self, plan: &Plan, played: &Played) -> Result<(), AllocError>
        ensures { OnOk result (self.new ≡ self.old ++ turn_line plan.now played.now) }
    {
        add_bytes(&mut self.text, self.room.as_slice(), self.at)?;
        self.at = 0;
        push_turn(&mut self.text, plan, played)
    }

    /// Adds the line of a turn to the room, when those that stand there have gone behind the text.
    fn add_first(&mut self, plan: &Plan, words: &Spelled, played: &Played) -> Result<(), AllocError>
        requires { AreSpelled plan.now words.now }
        ensures { OnOk result (self.new ≡ self.old ++ turn_line plan.now played.now) }
    {
        add_bytes(&mut self.text, self.room.as_slice(), self.at)?;
        self.at = put_turn(self.room.as_mut_slice(), 0, plan, words, played);
        Ok(())
    }

    /// Adds the line of a turn.
    #[inline(always)]
    pub(crate) fn add_turn(
        &mut self,
        plan: &Plan,
        words: &Spelled,
        played: &Played,
    ) -> Result<(), AllocError>
        requires { Spells plan.now words.now }
        ensures { OnOk result (self.new ≡ self.old ++ turn_line plan.now played.now) }
    {
        if !words.whole {
            return self.add_long(plan, played);
        }
        if self.at > FULL {
            return self.add_first(plan, words, played);
        }
        self.at = put_turn(self.room.as_mut_slice(), self.at, plan, words, played);
        Ok(())
    }

    /// Adds a line for each turn.
    pub(crate) fn add(
        &mut self,
        plan: &Plan,
        words: &Spelled,
        played: &[Played],
    ) -> Result<(), AllocError>
        requires { Spells plan.now words.now }
        ensures { OnOk result (self.new ≡ self.old ++ flat_map (turn_line plan.now) played.now) }
    {
        for turn in played {
            self.add_turn(plan, words, turn)?;
        }
        Ok(())
    }

    /// The text with all its lines. The error is want of memory.
    pub(crate) fn finish(self) -> Result<Vec<u8>, AllocError>
        ensures { IfOk result (λ text. text.items ≡ self) }
    {
        let Writer { text, room, at } = self;
        let mut text = text;
        add_bytes(&mut text, room.as_slice(), at)?;
        Ok(text)
    }
}

/// Adds the first bytes of a room to a text.
fn add_bytes(text: &mut Vec<u8>, room: &[u8], count: usize) -> Result<(), AllocError>
    requires { count ≤ length room.now }
    ensures { OnOk result (text.new.items ≡ text.old.items ++ take count room.now) }
{
    text.extend_from_slice(&room[..count])
}
