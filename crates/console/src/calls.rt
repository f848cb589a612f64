// Lines as calls: each with the buffers that it is handed.
ghost use Rattle.std.specs.Prelude.{◌≡◌, length, replicate, IfOk};
ghost use Rattle.console.specs.Calls.{ExpectsBy, meaning, read_line, requested};
ghost use Rattle.console.specs.Fields.{at, fields as fields_of};
ghost use Rattle.console.specs.Forms.{stands_for};
ghost use Rattle.console.specs.Titles.{name_bytes};
ghost use Rattle.model.specs.Requests.{find as find_call, initialise as initialise_call, show as show_call, take_up as take_up_call};
ghost use Rattle.requests.specs.Values.{meant};

use crate::forms::{Asked, Expected, read_fields};
use crate::titles::{Name, name_bytes};
use model::NameKind;
use requests::Request;
use std::alloc::{AllocError, Global};

// What a line says. A line that says nothing is no error here: the console tells what was expected and reads on, and `?`
// passes on nothing but a lack of memory.
#[derive(Drop)]
pub enum Line {
    // the work blocks of the calls that follow have this length
    Work { len: u32 },
    Call(Request),
    // the line says nothing, and this was expected
    Unreadable(Expected),
}

// So many zeros.
fn zeros(heap: Global, len: u32) -> Result<Vec<u8>, AllocError>
    ensures items { IfOk result (λ v. v.items ≡ replicate len 0) }
    ensures len { IfOk result (λ v. length v.items ≡ len) }
{
    vec![in heap; 0; len as usize]
}

fn initialise(
    heap: Global,
    name: Name<'_>,
    directory: u32,
    blocks: u32,
    work: u32,
) -> Result<Request, AllocError>
    ensures { IfOk result (λ call. meant call ≡ initialise_call work (name_bytes name.entry) directory blocks) }
{
    let name = name_bytes(heap, name)?;
    let work = zeros(heap, work)?;
    Ok(Request::Initialise {
        name,
        directory,
        blocks,
        work,
    })
}

fn take_up(heap: Global, work: u32) -> Result<Request, AllocError>
    ensures { IfOk result (λ call. meant call ≡ take_up_call work) }
{
    let work = zeros(heap, work)?;
    Ok(Request::TakeUp { work })
}

fn find(
    heap: Global,
    kind: NameKind,
    name: Name<'_>,
    len: u32,
    work: u32,
) -> Result<Request, AllocError>
    ensures { IfOk result (λ call. meant call ≡ find_call work kind (name_bytes name.entry) (replicate len 0)) }
{
    let name = name_bytes(heap, name)?;
    let buffer = zeros(heap, len)?;
    let work = zeros(heap, work)?;
    Ok(Request::Find {
        kind,
        name,
        buffer,
        work,
    })
}

fn show(heap: Global, entry: u32, len: u32, work: u32) -> Result<Request, AllocError>
    ensures { IfOk result (λ call. meant call ≡ show_call work entry (replicate len 0)) }
{
    let buffer = zeros(heap, len)?;
    let work = zeros(heap, work)?;
    Ok(Request::Show {
        entry,
        buffer,
        work,
    })
}

// What is asked for, with its buffers, which are all zeros.
fn line_of(heap: Global, what: Asked<'_>, work: u32) -> Result<Line, AllocError>
    ensures { IfOk result (λ l. meaning l ≡ requested work (stands_for what.entry)) }
{
    match what {
        Asked::Date { year, month, day } => Ok(Line::Call(Request::SetDate { year, month, day })),
        Asked::Init {
            name,
            directory,
            blocks,
        } => initialise(heap, name, directory, blocks, work).map(Line::Call),
        Asked::TakeUp => take_up(heap, work).map(Line::Call),
        Asked::Find { kind, name, len } => find(heap, kind, name, len, work).map(Line::Call),
        Asked::Show { entry, len } => show(heap, entry, len, work).map(Line::Call),
        Asked::Work { len } => Ok(Line::Work { len }),
    }
}

// What a line says. The work blocks of its call have the length `work`.
pub fn read_line(heap: Global, line: &[u8], work: u32) -> Result<Line, AllocError>
    ensures value { IfOk result (λ l. meaning l ≡ read_line work line.now) }
    ensures form { IfOk result (λ l. ExpectsBy (at 0 (fields_of line.now)) (meaning l)) }
{
    match read_fields(line) {
        Ok(what) => line_of(heap, what, work),
        Err(form) => Ok(Line::Unreadable(form)),
    }
}
