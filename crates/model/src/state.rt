// What a unit knows beside its device: the pack that is up, the date, and the open files.
ghost use Rattle.std.specs.Prelude.{◌≡◌};
ghost use Rattle.model.specs.Models.{empty_state, free_table};

use directory::Pack;
use entry::Date;

// How many files can be open at once. Their numbers are 1 to this.
pub const OPEN_FILES: usize = 2;

// Whether a name is looked for as a whole name or as a stem.
#[derive(Clone, Copy, PartialEq, Eq, Debug)]
pub enum NameKind {
    Whole,
    Stem,
}

// What an open file may be asked: to be read, to be written from empty, or both.
#[derive(Clone, Copy, PartialEq, Eq, Debug)]
pub enum Mode {
    Read,
    Write,
    Update,
}

// An open file: its entry, its mode, and the byte that is next.
#[derive(Clone, Copy, PartialEq, Eq, Debug)]
pub struct OpenFile {
    pub entry: u32,
    pub mode: Mode,
    pub position: u32,
}

// The open files by their numbers.
#[derive(Clone, Copy, PartialEq, Eq, Debug, Default)]
pub struct OpenTable {
    pub records: [Option<OpenFile>; OPEN_FILES],
}

impl OpenTable {
    // All numbers are free.
    pub fn free() -> OpenTable
        ensures { result.records ≡ free_table }
    {
        OpenTable::default()
    }
}

// The pack that is up, the date that is set, and the open files.
#[derive(Clone, Copy, PartialEq, Eq, Debug, Default)]
pub struct State {
    pub pack: Option<Pack>,
    pub date: Option<Date>,
    pub table: OpenTable,
}

impl State {
    // No pack is up, no date is set, and all numbers are free.
    pub fn new() -> State
        ensures { result ≡ empty_state }
    {
        State::default()
    }
}
