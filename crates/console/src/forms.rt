// What a line asks for: its first word says which form its other fields have.
ghost use Rattle.std.specs.Prelude.{◌≡◌, Some};
ghost use Rattle.console.specs.Fields.{fields as fields_of, later};
ghost use Rattle.console.specs.Forms.{asked as asked_by, expected_text, form_of, in_form, kind_of, stands_for, understood};
ghost use Rattle.console.specs.declared.forms.Expected.TheVariants.{Date as DateForm, Init as InitForm, TakeUp as TakeUpForm, Find as FindForm, Show as ShowForm, Work as WorkForm};
ghost use Rattle.std.specs.Option.{option_map};

use crate::fields::{first_field, last_field, next_field};
use crate::numbers::number_of;
use crate::titles::{Name, name_of};
use model::NameKind;
use std::fmt;

// What is expected of a line that says nothing: the form that its first word asks for.
#[derive(Clone, Copy, PartialEq, Eq, Debug)]
pub enum Expected {
    Date,
    Init,
    TakeUp,
    Find,
    Show,
    Work,
    // one of the first words, where no form has the one that stands there. A variant and not a `None`: of every line
    // that says nothing it is told what was expected.
    Command,
}

impl Expected {
    // What to write.
    pub fn words(self) -> &'static str
        ensures { result.now ≡ expected_text self }
    {
        match self {
            Expected::Date => "date Y M D",
            Expected::Init => "init NAME D N",
            Expected::TakeUp => "takeup",
            Expected::Find => "find whole NAME LEN or find stem NAME LEN",
            Expected::Show => "show ENTRY LEN",
            Expected::Work => "work LEN",
            Expected::Command => "date, init, takeup, find, show or work",
        }
    }
}

impl fmt::Display for Expected {
    ghost output = { λ form. Some (expected_text form) };

    fn fmt<W: fmt::Write>(&self, f: &mut fmt::Formatter<W>) -> fmt::Result {
        f.write_str(self.words())
    }
}

// What a line asks for. The numbers are as they stand there, whatever a call may refuse of them.
#[derive(Clone, Copy)]
pub(crate) enum Asked<'a> {
    Date {
        year: u32,
        month: u32,
        day: u32,
    },
    Init {
        name: Name<'a>,
        directory: u32,
        blocks: u32,
    },
    TakeUp,
    Find {
        kind: NameKind,
        name: Name<'a>,
        len: u32,
    },
    Show {
        entry: u32,
        len: u32,
    },
    Work {
        len: u32,
    },
}

// The form that a line has to have, by its first word.
fn form_of(word: &[u8]) -> Expected
    ensures { result ≡ form_of word.now }
{
    match word {
        b"date" => Expected::Date,
        b"init" => Expected::Init,
        b"takeup" => Expected::TakeUp,
        b"find" => Expected::Find,
        b"show" => Expected::Show,
        b"work" => Expected::Work,
        _ => Expected::Command,
    }
}

// By which part of its name a file is to be found.
fn kind_of(word: &[u8]) -> Option<NameKind>
    ensures { result ≡ kind_of word.now }
{
    match word {
        b"whole" => Some(NameKind::Whole),
        b"stem" => Some(NameKind::Stem),
        _ => None,
    }
}

fn date_of(left: &[u8]) -> Option<Asked<'_>>
    ensures { option_map stands_for result ≡ in_form DateForm (later left.now) }
{
    let (year, left) = next_field(left)?;
    let (month, left) = next_field(left)?;
    let day = last_field(left)?;
    let year = number_of(year)?;
    let month = number_of(month)?;
    let day = number_of(day)?;
    Some(Asked::Date { year, month, day })
}

fn init_of(left: &[u8]) -> Option<Asked<'_>>
    ensures { option_map stands_for result ≡ in_form InitForm (later left.now) }
{
    let (name, left) = next_field(left)?;
    let (directory, left) = next_field(left)?;
    let blocks = last_field(left)?;
    let name = name_of(name)?;
    let directory = number_of(directory)?;
    let blocks = number_of(blocks)?;
    Some(Asked::Init {
        name,
        directory,
        blocks,
    })
}

fn take_up_of(left: &[u8]) -> Option<Asked<'_>>
    ensures { option_map stands_for result ≡ in_form TakeUpForm (later left.now) }
{
    left.is_empty().then_some(Asked::TakeUp)
}

fn find_of(left: &[u8]) -> Option<Asked<'_>>
    ensures { option_map stands_for result ≡ in_form FindForm (later left.now) }
{
    let (kind, left) = next_field(left)?;
    let (name, left) = next_field(left)?;
    let len = last_field(left)?;
    let kind = kind_of(kind)?;
    let name = name_of(name)?;
    let len = number_of(len)?;
    Some(Asked::Find { kind, name, len })
}

fn show_of(left: &[u8]) -> Option<Asked<'_>>
    ensures { option_map stands_for result ≡ in_form ShowForm (later left.now) }
{
    let (entry, left) = next_field(left)?;
    let len = last_field(left)?;
    let entry = number_of(entry)?;
    let len = number_of(len)?;
    Some(Asked::Show { entry, len })
}

fn work_of(left: &[u8]) -> Option<Asked<'_>>
    ensures { option_map stands_for result ≡ in_form WorkForm (later left.now) }
{
    let len = last_field(left)?;
    let len = number_of(len)?;
    Some(Asked::Work { len })
}

// What the fields behind the first word ask for, if they have the form. A second match beside that of `form_of`, and not
// one of both: of one match over the words, each with its way to read the fields, no proof was found.
fn in_form(form: Expected, left: &[u8]) -> Option<Asked<'_>>
    ensures { option_map stands_for result ≡ in_form form (later left.now) }
{
    match form {
        Expected::Date => date_of(left),
        Expected::Init => init_of(left),
        Expected::TakeUp => take_up_of(left),
        Expected::Find => find_of(left),
        Expected::Show => show_of(left),
        Expected::Work => work_of(left),
        Expected::Command => None,
    }
}

// What a line asks for, or the form that it should have.
pub(crate) fn read_fields(line: &[u8]) -> Result<Asked<'_>, Expected>
    ensures { understood result ≡ asked_by (fields_of line.now) }
{
    let (word, left) = first_field(line);
    let form = form_of(word);
    in_form(form, left).ok_or(form)
}
