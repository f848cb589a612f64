// The program `pack`: moves bytes between the arguments, the files and the screen. What they ask for and what is printed
// is computed by the libraries `arguments` and `listing`.
#![tactic(auto)]

use anyhow::anyhow;
use arguments::{Command, Medium, USAGE, complaint, read_arguments};
use blocks::{BlockDevice, Image};
use listing::{Failure, catalogue, find};
use sectors::SectorDisk;
use std::alloc::Global;
use std::process::ExitCode;
use std::{env, fs};

// What was made; or, where nothing was, what `say` says of why on standard error, and an error that ends the program
// without success. A match and not `or_else`, whose closure would have to say again when `say` may be called.
fn made<T, E: Drop, S: FnOnce(E) -> anyhow::Result<()>>(
    tried: Result<T, E>,
    say: S,
) -> anyhow::Result<T>
    requires { S.IsAlwaysCallable say }
{
    match tried {
        Ok(value) => Ok(value),
        Err(e) => {
            say(e)?;
            Err(anyhow!("nothing was made"))
        }
    }
}

// What is done with a pack. A value and not a closure: a closure takes one type of device, and there are two.
#[derive(Clone, Copy)]
enum Task<'a> {
    Catalogue,
    Find(&'a str),
}

// What a task prints of the pack on a device.
fn text_of<D: BlockDevice>(heap: Global, device: &D, task: Task<'_>) -> Result<String, Failure> {
    match task {
        Task::Catalogue => catalogue(heap, device),
        Task::Find(name) => find(heap, device, name.as_bytes()),
    }
}

// What a task prints of the pack in a file of that kind.
fn text_in(
    heap: Global,
    medium: Medium,
    bytes: Vec<u8>,
    task: Task<'_>,
) -> Result<String, Failure> {
    match medium {
        Medium::Image => text_of(heap, &Image::new(bytes, false)?, task),
        Medium::Disk => text_of(heap, &SectorDisk::new(bytes, false)?, task),
    }
}

// Reads a file, does a task on the pack in it, and prints what that made.
fn run_on(rt: &HostRuntime, medium: Medium, path: &str, task: Task<'_>) -> anyhow::Result<()> {
    let heap = rt.alloc();
    let read = fs::read(rt, path);
    // Printed as it is put together: no memory is asked for this line, since the file may be unreadable for want of it.
    let bytes = made(
        read,
        |e| Ok(eprintln!(rt; "pack: {path}: the file cannot be read: {e}")?),
    )?;
    let text = text_in(heap, medium, bytes, task);
    let text = made(
        text,
        |failure| Ok(rt.eprintln(complaint(heap, path, failure)?)?),
    )?;
    Ok(rt.print(text)?)
}

fn run(rt: &HostRuntime, command: Command<'_>) -> anyhow::Result<()> {
    match command {
        Command::Help => Ok(rt.print(USAGE)?),
        Command::Catalogue { medium, path } => run_on(rt, medium, path, Task::Catalogue),
        Command::Find { medium, path, name } => run_on(rt, medium, path, Task::Find(name)),
    }
}

// Does what the arguments ask for, or says why not.
fn perform(rt: &HostRuntime) -> anyhow::Result<()> {
    let args: Vec<String> = env::args(rt)?.skip(1).collect(rt.alloc())?;
    let command = read_arguments(args.as_slice());
    let command = made(command, |misuse| Ok(eprintln!(rt; "pack: {misuse}")?))?;
    run(rt, command)
}

// The exit status alone: an error returned from `main` would be printed, and what there is to say was said.
fn main(rt: HostRuntime) -> ExitCode {
    match perform(&rt) {
        Ok(()) => ExitCode::SUCCESS,
        Err(_) => ExitCode::FAILURE,
    }
}
