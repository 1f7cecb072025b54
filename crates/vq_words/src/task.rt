//! What the words of the command line ask for.
//!
//! Source: this project's own, where an item names no other.

/// What a run is asked for.
#[derive(Clone, Copy, Debug, PartialEq, Eq)]
pub enum Task {
    /// Without words: the script is run, and its answers and buffers are written.
    Run,
    /// `--check`: it is written whether the script is lawful, and nothing is started.
    Check,
    /// `--replay`: the schedule of the script is played, and the trace of its turns is written.
    Replay,
    /// `--generate N` or `--generate=N`: a script of so many rounds is written, from 1 to 500.
    Generate(u32),
    /// `--rounds`: a fair schedule is played over the script to its end, and the trace of its turns is written.
    Rounds,
    /// `--upgrade`: the script is written as one of the second version, and nothing is started.
    Upgrade,
    /// `--audit`: the trace that follows the script is judged, and nothing is started.
    Audit,
    /// `--hosts`: the script, in which threads stand in blocks, is run, and its answers and buffers are written.
    Hosts,
}

/// Why words are not read.
#[derive(Clone, Copy, Debug, PartialEq, Eq)]
pub enum WordsFault {
    /// The words are outside the grammar.
    Bad,
    /// Memory for reading them is wanting.
    Memory,
}
