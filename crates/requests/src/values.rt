// A call with all that it is handed, and what comes back of it.
use model::NameKind;
use refusal::Refusal;

// A call. Numbers that a refusal judges are wide enough to be wrong; the work block and the buffer are the call's own.
#[derive(Drop)]
pub enum Request {
    SetDate {
        year: u32,
        month: u32,
        day: u32,
    },
    Initialise {
        name: Vec<u8>,
        directory: u32,
        blocks: u32,
        work: Vec<u8>,
    },
    TakeUp {
        work: Vec<u8>,
    },
    Find {
        kind: NameKind,
        name: Vec<u8>,
        buffer: Vec<u8>,
        work: Vec<u8>,
    },
    Show {
        entry: u32,
        buffer: Vec<u8>,
        work: Vec<u8>,
    },
}

// The number that is replied, if there is one, or the refusal; and the buffer that the call was handed, as it is then.
// It is empty where a call has none.
#[derive(Drop)]
pub struct Reply {
    pub answer: Result<Option<u32>, Refusal>,
    pub buffer: Vec<u8>,
}
