// What arguments ask for.
use arguments::{Command, Medium, Misuse, complaint, read_arguments};
use listing::Failure;
use refusal::Refusal;
use std::alloc::{AllocError, Global};
use std::test::Fail;

fn words(heap: Global, texts: &[&str]) -> Result<Vec<String>, AllocError> {
    texts
        .iter()
        .map(|text| -> Result<String, AllocError> { String::from_str(heap, text) })
        .try_collect(heap)
}

#[test]
fn help(rt: HostRuntime) -> Result<(), Fail> {
    let none = Vec::new(rt.alloc());
    assert_eq!(rt; read_arguments(none.as_slice()), Ok(Command::Help));
    for word in ["--help", "-h", "help"] {
        let args = words(rt.alloc(), &[word])?;
        assert_eq!(rt; read_arguments(args.as_slice()), Ok(Command::Help));
    }
    Ok(())
}

#[test]
fn commands(rt: HostRuntime) -> Result<(), Fail> {
    let args = words(rt.alloc(), &["catalogue", "a.pack"])?;
    assert_eq!(rt;
        read_arguments(args.as_slice()),
        Ok(Command::Catalogue {
            medium: Medium::Image,
            path: "a.pack",
        })
    );
    let args = words(rt.alloc(), &["find", "--disk", "a.disk", "LETTERH"])?;
    assert_eq!(rt;
        read_arguments(args.as_slice()),
        Ok(Command::Find {
            medium: Medium::Disk,
            path: "a.disk",
            name: "LETTERH",
        })
    );
    Ok(())
}

#[test]
fn misuses(rt: HostRuntime) -> Result<(), Fail> {
    for (texts, expected) in [
        (&["catalogue"][..], Misuse::CatalogueForm),
        (&["catalogue", "a", "b"], Misuse::CatalogueForm),
        (&["catalogue", "--disk"], Misuse::CatalogueForm),
        (&["catalogue", "a", "--disk"], Misuse::CatalogueForm),
        (&["find"], Misuse::FindForm),
        (&["find", "a"], Misuse::FindForm),
        (&["find", "a", "b", "c"], Misuse::FindForm),
        (&["Catalogue", "a"], Misuse::UnknownCommand),
        (&[""], Misuse::UnknownCommand),
    ] {
        let args = words(rt.alloc(), texts)?;
        assert_eq!(rt; read_arguments(args.as_slice()).err(), Some(expected));
        assert!(rt; expected.to_string(rt.alloc())?.as_str() == expected.words());
    }
    Ok(())
}

#[test]
fn complaints_are_one_line(rt: HostRuntime) -> Result<(), Fail> {
    let heap = rt.alloc();
    let refused = complaint(heap, "a.pack", Failure::Refused(Refusal::NoSuchFile))?;
    assert!(rt; refused.as_str() == "pack: a.pack: refused 5 0 0: there is no such file");
    let memory = complaint(heap, "a.pack", Failure::Memory)?;
    assert!(rt; memory.as_str() == "pack: a.pack: there is not enough memory");
    Ok(())
}
