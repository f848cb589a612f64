// Names: the edges of every rule.
use names::{Stem, VolumeName, WholeName, characters, same};
use refusal::Refusal;
use std::test::Fail;

// A name as given, and whether it is a whole name, a stem and a volume name.
const RULES: [(&[u8], bool, bool, bool); 27] = [
    (b"", false, false, false),
    (b"A", false, true, true),
    (b"!", false, true, true),
    (b"AB", true, true, true),
    (b"A1", false, true, true),
    (b"1A", true, true, true),
    (b"A@", false, true, true),
    (b"A[", false, true, true),
    (b"A`", false, true, true),
    (b"A{", false, true, true),
    (b"aZ", true, true, true),
    (b"Za", true, true, true),
    (b"az", true, true, true),
    (b"ABCDEFGHIJ", true, true, true),
    (b"ABCDEFGHIJK", true, false, true),
    (b"ABCDEFGHIJKL", false, false, false),
    (b"\x1fA", false, false, false),
    (b" A", true, true, true),
    (b"~A", true, true, true),
    (b"\x7fA", false, false, false),
    (b"\x80A", false, false, false),
    (b"BOOT", false, true, true),
    (b"DIRECTORY", false, true, true),
    (b"BLOCKS LEFT", false, false, true),
    (b"\x03AB", false, false, false),
    (b"LOGA\x03\x00\xff", true, true, true),
    (b"BOOT\x03S", false, true, true),
];

#[test]
fn each_rule_at_its_edges(rt: HostRuntime) {
    for (given, whole, stem, volume) in RULES {
        assert_eq!(rt; WholeName::new(given).is_ok(), whole);
        assert_eq!(rt; Stem::new(given).is_ok(), stem);
        assert_eq!(rt; VolumeName::new(given).is_ok(), volume);
    }
}

#[test]
fn a_broken_name_is_refused_by_14(rt: HostRuntime) {
    assert_eq!(rt; WholeName::new(b"BOOT").err(), Some(Refusal::BadName));
    assert_eq!(rt; Refusal::BadName.number(), 14);
}

// Names as given, and their characters.
const CHARACTERS: [(&[u8], &[u8]); 5] = [
    (b"", b""),
    (b"\x03ABC", b""),
    (b"LOGA", b"LOGA"),
    (b"LOGA\x03z", b"LOGA"),
    (b"ABCDEFGHIJKL", b"ABCDEFGHIJKL"),
];

#[test]
fn characters_end_before_the_first_etx(rt: HostRuntime) {
    for (given, expected) in CHARACTERS {
        assert!(rt; characters(given) == expected);
    }
}

// Two names, and whether they are the same.
const PAIRS: [(&[u8], &[u8], bool); 6] = [
    (b"LOGA", b"LOGA\x03z", true),
    (
        b"LOGA\x03OLDTAIL",
        b"LOGA\x03\x00\x00\x00\x00\x00\x00\x00",
        true,
    ),
    (b"LOGA", b"LOGH", false),
    (b"LOGA", b"LOG", false),
    (b"LOGA", b"loga", false),
    (b"\x03A", b"", true),
];

#[test]
fn names_are_compared_by_their_characters(rt: HostRuntime) {
    for (one, other, expected) in PAIRS {
        assert_eq!(rt; same(one, other), expected);
    }
}

// A key, an entry's name field, and whether it fits as a whole name and as a stem.
const FITS: [(&[u8], &[u8], bool, bool); 9] = [
    (b"LOGA", b"LOGA\x03TAILXYZ", true, false),
    (b"LOGA", b"LOGAB\x03\x00\x00\x00\x00\x00\x00", false, true),
    (b"LOGA", b"LOGA1\x03\x00\x00\x00\x00\x00\x00", false, true),
    (
        b"LOGA",
        b"LOG\x03\x00\x00\x00\x00\x00\x00\x00\x00",
        false,
        false,
    ),
    (b"LOG", b"LOGA\x03\x00\x00\x00\x00\x00\x00\x00", false, true),
    (b"LOG", b"LOGH\x03\x00\x00\x00\x00\x00\x00\x00", false, true),
    (
        b"LOGA",
        b"\x03\x00\x00\x00\x00\x00\x00\x00\x00\x00\x00\x00",
        false,
        false,
    ),
    (
        b"AB",
        b"A\x03\x00\x00\x00\x00\x00\x00\x00\x00\x00\x00",
        false,
        false,
    ),
    (b"ABCDEFGHIJ", b"ABCDEFGHIJKL", false, false),
];

#[test]
fn entries_fit_whole_names_and_stems(rt: HostRuntime) -> Result<(), Fail> {
    for (key, field, whole, stem) in FITS {
        if let Ok(name) = WholeName::new(key) {
            assert_eq!(rt; name.fits(field), whole);
        }
        let key = Stem::new(key)?;
        assert_eq!(rt; key.fits(field), stem);
    }
    Ok(())
}

#[test]
fn a_name_field_has_an_etx_and_zeros_behind_the_name(rt: HostRuntime) -> Result<(), Fail> {
    let name = WholeName::new(b"LOGA\x03rubbish")?;
    assert!(rt; name.field() == *b"LOGA\x03\x00\x00\x00\x00\x00\x00\x00");
    let volume = VolumeName::new(b"SAMPLE PACK")?;
    assert!(rt; volume.field() == *b"SAMPLE PACK\x03");
    Ok(())
}
