// The arguments of the program, and what it says when it cannot do what they ask.
ghost use Rattle.std.specs.Prelude.{◌≡◌, map, IfOk, Some, string_bytes};
ghost use Rattle.arguments.specs.Commands.{asked, catalogue_asked, complaint_text, find_asked, listed, medium_asked, misuse_text, places_asked};

use listing::Failure;
use std::alloc::{AllocError, Global};
use std::fmt;

// What kind of file holds a pack: blocks one after the other, or the sectors of a disk.
#[derive(Clone, Copy, PartialEq, Eq, Debug)]
pub enum Medium {
    Image,
    Disk,
}

// What the arguments ask for.
#[derive(Clone, Copy, PartialEq, Eq, Debug)]
pub enum Command<'a> {
    Help,
    Catalogue {
        medium: Medium,
        path: &'a str,
    },
    Find {
        medium: Medium,
        path: &'a str,
        name: &'a str,
    },
}

// Why arguments are no command.
#[derive(Clone, Copy, PartialEq, Eq, Debug)]
pub enum Misuse {
    UnknownCommand,
    CatalogueForm,
    FindForm,
}

impl Misuse {
    // What to write instead.
    pub fn words(self) -> &'static str
        ensures { result.now ≡ misuse_text self }
    {
        match self {
            Misuse::UnknownCommand => {
                "there is no such command; the commands are catalogue and find, and pack --help explains them"
            }
            Misuse::CatalogueForm => "a catalogue is of one file: pack catalogue [--disk] FILE",
            Misuse::FindForm => "a find takes a file and a name: pack find [--disk] FILE NAME",
        }
    }
}

impl fmt::Display for Misuse {
    ghost output = { λ misuse. Some (misuse_text misuse) };

    fn fmt<W: fmt::Write>(&self, f: &mut fmt::Formatter<W>) -> fmt::Result {
        f.write_str(self.words())
    }
}

// The kind of file that is asked for, and the arguments behind that.
fn take_medium<'a>(rest: &'a [String]) -> (Medium, &'a [String])
    ensures medium { result.0 ≡ medium_asked (map string_bytes rest.now) }
    ensures places { map string_bytes result.1.now ≡ places_asked (map string_bytes rest.now) }
{
    match rest {
        [word, more @ ..] if word.as_str() == "--disk" => (Medium::Disk, more),
        _ => (Medium::Image, rest),
    }
}

fn catalogue_asked<'a>(medium: Medium, places: &'a [String]) -> Result<Command<'a>, Misuse>
    ensures { listed result ≡ catalogue_asked medium (map string_bytes places.now) }
{
    let [path] = places else {
        return Err(Misuse::CatalogueForm);
    };
    Ok(Command::Catalogue {
        medium,
        path: path.as_str(),
    })
}

fn find_asked<'a>(medium: Medium, places: &'a [String]) -> Result<Command<'a>, Misuse>
    ensures { listed result ≡ find_asked medium (map string_bytes places.now) }
{
    let [path, name] = places else {
        return Err(Misuse::FindForm);
    };
    Ok(Command::Find {
        medium,
        path: path.as_str(),
        name: name.as_str(),
    })
}

// The command that the arguments behind the program's own name ask for.
pub fn read_arguments<'a>(args: &'a [String]) -> Result<Command<'a>, Misuse>
    ensures { listed result ≡ asked (map string_bytes args.now) }
{
    let [word, rest @ ..] = args else {
        return Ok(Command::Help);
    };
    let (medium, places) = take_medium(rest);
    match word.as_str() {
        "--help" | "-h" | "help" => Ok(Command::Help),
        "catalogue" => catalogue_asked(medium, places),
        "find" => find_asked(medium, places),
        _ => Err(Misuse::UnknownCommand),
    }
}

// How to use the program.
pub const USAGE: &str = "pack: reads Coleco ADAM data packs and disks kept as files.

  pack catalogue [--disk] FILE     lists the volume and every file in its directory
  pack find [--disk] FILE NAME     finds a live file by its whole name (name and
                                   type letter, as LETTERH) or else by its stem
                                   (LETTER)
  pack --help                      prints this text

FILE is an image: blocks of 1024 bytes, one after the other. With --disk it is a
sector disk: 320 records of 512 bytes and a status byte. Nothing is written to it.
Attributes: L locked, W write protected, R read protected, U user, S system,
D deleted, X execute protected, B the BLOCKS LEFT entry.
";

// The line for a file of which nothing can be printed.
pub fn complaint(heap: Global, path: &str, failure: Failure) -> Result<String, AllocError>
    ensures { IfOk result (λ t. string_bytes t ≡ complaint_text path.now failure) }
{
    format!(in heap; "pack: {path}: {failure}")
}
