use sc_journal::Journal;
use sc_terms::Step;
use sc_value::Text;

/// How a program's run ended.
#[derive(Drop)]
pub enum Status {
    /// The input was read to its end and all was written.
    Done,
    /// The words have another form.
    Usage,
    /// The configuration is refused, at this key.
    Config { kind: u8, key: Text },
    /// The routing table is refused, at this line.
    Dar { line: u64, kind: u8 },
    /// A step was due that the journal had no room for.
    JournalFull,
    /// The edge could not listen.
    Edge,
    /// Want of memory.
    NoMemory,
    /// The script is refused, at this byte.
    Script { at: usize, kind: u8 },
    /// A file could not be read.
    Read,
    /// The output could not be written.
    Write,
}

/// What a run left: its status, and the journal of its last epoch with the epoch's number and first
/// moment, in milliseconds. The journal is there exactly where the settings were accepted.
#[derive(Drop)]
pub struct Ran {
    pub status: Status,
    pub epoch: u32,
    pub began: u64,
    pub journal: Option<Journal<Step>>,
}
