//! Notes on the references of each job.
ghost use Rattle.std.specs.Prelude.{◌≡◌, ◌<◌, length, []};
ghost use Rattle.std.specs.List.{slice_index_or};
ghost use Rattle.std.proofs.Math.ListN.{set};
ghost use Rattle.vq_tables.specs.Notes.{no_note};

use std::marker::Model;

/// How many references to the point of one operation were made for a job, how many looks, and how
/// many of the references are held.
#[derive(Clone, Copy)]
pub struct Note {
    pub referred: usize,
    pub looked: usize,
    pub held: usize,
}

impl Note {
    /// No reference and no look.
    pub fn empty() -> Note
        ensures { result ≡ no_note }
    {
        Note {
            referred: 0,
            looked: 0,
            held: 0,
        }
    }
}

/// The notes of one job: one for each need, of which that of the first need that an operation
/// resolves is used.
#[derive(Drop)]
pub struct NoteRow {
    notes: Vec<Note>,
}

impl Model for NoteRow {
    ghost use Rattle.std.specs.Prelude.{List};
    ghost use Rattle.vq_tables.specs.declared.notes.Note.{Note};

    ghost Value = { List Note };

    ghost view = { λ a. a.notes.items };
}

impl NoteRow {
    /// These notes.
    pub fn of(notes: Vec<Note>) -> NoteRow
        ensures { result ≡ notes.items }
    {
        NoteRow { notes }
    }

    /// A note, or an empty one.
    fn at(&self, place: usize) -> Note
        ensures { result ≡ slice_index_or self.now place no_note }
    {
        match self.notes.get(place) {
            Some(note) => *note,
            None => Note::empty(),
        }
    }

    /// Puts a note in another's place.
    fn put(&mut self, place: usize, note: Note)
        requires { place < length self.old }
        ensures { self.new ≡ set self.old place note }
    {
        self.notes[place] = note;
    }
}

/// The notes of all jobs.
#[derive(Drop)]
pub struct NoteTable {
    rows: Vec<NoteRow>,
}

impl Model for NoteTable {
    ghost use Rattle.std.specs.Prelude.{List};
    ghost use Rattle.vq_tables.specs.declared.notes.Note.{Note};

    ghost Value = { List (List Note) };

    ghost view = { λ a. a.rows.items };
}

impl NoteTable {
    /// These rows.
    pub fn of(rows: Vec<NoteRow>) -> NoteTable
        ensures { result ≡ rows.items }
    {
        NoteTable { rows }
    }

    /// A note of a job, or an empty one.
    pub fn at(&self, job: u32, place: usize) -> Note
        ensures { result ≡ slice_index_or (slice_index_or self.now job []) place no_note }
    {
        match self.rows.get(job as usize) {
            Some(row) => row.at(place),
            None => Note::empty(),
        }
    }

    /// Puts a note of a job in another's place.
    pub fn put(&mut self, job: u32, place: usize, note: Note)
        requires job { job < length self.old }
        requires place { place < length (slice_index_or self.old job []) }
        ensures { self.new ≡ set self.old job (set (slice_index_or self.old job []) place note) }
    {
        let row = &mut self.rows[job as usize];
        row.put(place, note);
    }
}
