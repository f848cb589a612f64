// The 26 bytes of an entry: lengths, fields and kinds.
use entry::{
    Attribute, Attributes, BLOCK, CHECK_BYTES, Date, ENTRY, Entry, Kind, Stamp, kind_of, length_of,
    split,
};
use std::test::Fail;

// A length, and the used blocks and the bytes in the last of them.
const LENGTHS: [(u32, u16, u16); 9] = [
    (0, 0, 0),
    (1, 1, 1),
    (1023, 1, 1023),
    (1024, 1, 1024),
    (1025, 2, 1),
    (1500, 2, 476),
    (2048, 2, 1024),
    (12345, 13, 57),
    (67107840, 65535, 1024),
];

#[test]
fn lengths_and_pairs(rt: HostRuntime) {
    for (length, used, last) in LENGTHS {
        assert_eq!(rt; split(length), Some((used, last)));
        assert_eq!(rt; length_of(used, last), Some(length));
    }
    assert_eq!(rt; split(67107841), None);
    assert_eq!(rt; split(4294967295), None);
}

#[test]
fn pairs_that_no_length_has(rt: HostRuntime) {
    for (used, last) in [
        (0, 1),
        (0, 1024),
        (1, 0),
        (3, 0),
        (1, 1025),
        (65535, 65535),
        (0, 65535),
    ] {
        assert_eq!(rt; length_of(used, last), None);
    }
}

// An entry whose byte at each place is the place itself.
fn counting() -> Entry {
    Entry {
        bytes: [
            0, 1, 2, 3, 4, 5, 6, 7, 8, 9, 10, 11, 12, 13, 14, 15, 16, 17, 18, 19, 20, 21, 22, 23,
            24, 25,
        ],
    }
}

#[test]
fn every_field_is_read_from_its_place(rt: HostRuntime) {
    let e = counting();
    assert!(rt; e.name_field() == [0, 1, 2, 3, 4, 5, 6, 7, 8, 9, 10, 11].as_slice());
    assert_eq!(rt; e.attributes().byte, 12);
    assert_eq!(rt; e.first_block(), 0x100f0e0d);
    assert_eq!(rt; e.room(), 0x1211);
    assert_eq!(rt; e.used(), 0x1413);
    assert_eq!(rt; e.last(), 0x1615);
    assert_eq!(rt; e.size(), 0x14131211);
    assert_eq!(rt; e.directory_blocks(), 12);
    assert!(rt; !e.has_check_bytes());
    assert_eq!(rt; e.length(), None);
    let stamp = Stamp {
        year: 1923,
        month: 24,
        day: 25,
    };
    assert_eq!(rt; e.stamp(), Some(stamp));
}

#[test]
fn fields_with_their_high_bytes_set(rt: HostRuntime) {
    let e = Entry {
        bytes: [255; ENTRY],
    };
    assert_eq!(rt; e.first_block(), 0xffffffff);
    assert_eq!(rt; e.size(), 0xffffffff);
    assert_eq!(rt; e.room(), 0xffff);
    assert_eq!(rt; e.used(), 0xffff);
    assert_eq!(rt; e.last(), 0xffff);
    assert_eq!(rt; e.directory_blocks(), 127);
}

#[test]
fn deleted_and_blocks_left_are_a_bit_each(rt: HostRuntime) {
    for (byte, deleted, blocks_left) in [
        (0x00, false, false),
        (0x10, false, false),
        (0x14, true, false),
        (0x01, false, true),
        (0x05, true, true),
        (0xfa, false, false),
    ] {
        let mut e = counting();
        e.set_attributes(Attributes { byte });
        assert_eq!(rt; e.is_deleted(), deleted);
        assert_eq!(rt; e.is_blocks_left(), blocks_left);
    }
}

#[test]
fn writing_the_fields_of_a_file(rt: HostRuntime) {
    let mut e = Entry {
        bytes: [0xee; ENTRY],
    };
    e.set_name_field(b"LOGA\x03\x00\x00\x00\x00\x00\x00\x00");
    e.set_attributes(Attributes { byte: 0x10 });
    e.set_first_block(0x01020304);
    e.set_room(0x0506);
    e.set_used(0x0708);
    e.set_last(0x0300);
    e.set_date(None);
    assert!(rt;
        e.bytes
            == *b"LOGA\x03\x00\x00\x00\x00\x00\x00\x00\x10\x04\x03\x02\x01\x06\x05\x08\x07\x00\x03\x00\x00\x00"
    );
}

#[test]
fn writing_the_fields_of_a_volume(rt: HostRuntime) -> Result<(), Fail> {
    let mut e = Entry { bytes: [0; ENTRY] };
    let date = Date::new(1987, 7, 17)?;
    e.set_check_bytes();
    e.set_size(0x00010203);
    e.set_date(Some(date));
    assert!(rt; e.has_check_bytes());
    assert!(rt; CHECK_BYTES == [0x55, 0xaa, 0x00, 0xff]);
    assert!(rt;
        e.bytes
            == *b"\x00\x00\x00\x00\x00\x00\x00\x00\x00\x00\x00\x00\x00\x55\xaa\x00\xff\x03\x02\x01\x00\x00\x00\x57\x07\x11"
    );
    Ok(())
}

// A byte with one bit set, and the attribute that it is.
const BITS: [(u8, Attribute); 8] = [
    (0x80, Attribute::Locked),
    (0x40, Attribute::WriteProtected),
    (0x20, Attribute::ReadProtected),
    (0x10, Attribute::User),
    (0x08, Attribute::System),
    (0x04, Attribute::Deleted),
    (0x02, Attribute::ExecuteProtected),
    (0x01, Attribute::BlocksLeft),
];

#[test]
fn attribute_bits(rt: HostRuntime) {
    for (byte, attribute) in BITS {
        assert!(rt; Attributes { byte }.has(attribute));
        assert!(rt; !Attributes { byte: 255 - byte }.has(attribute));
        assert!(rt; Attributes { byte: 255 }.has(attribute));
        assert_eq!(rt; Attributes::NONE.with(attribute), Attributes { byte });
        assert_eq!(rt;
            Attributes { byte: 255 }.with(attribute),
            Attributes { byte: 255 }
        );
    }
}

#[test]
fn attributes_put_together(rt: HostRuntime) {
    let boot = Attributes::NONE
        .with(Attribute::Locked)
        .with(Attribute::System);
    assert_eq!(rt; boot.byte, 0x88);
}

// A block that is empty but for the entry in the last place but one: the name `OLD`, and these attributes.
fn block_with(attributes: u8) -> [u8; BLOCK] {
    let at = 26 * 37;
    let mut block = [0; BLOCK];
    block[at..at + 5].copy_from_slice(b"OLD\x03X");
    block[at + 12] = attributes;
    block
}

#[test]
fn kinds_go_by_number_and_bits(rt: HostRuntime) {
    let name = b"OLD".as_slice();
    // entry 37 of the first block, and 76, which is 37 of the second
    for number in [37, 76] {
        for (attributes, kind) in [
            (0x00, Kind::Live(name)),
            (0x10, Kind::Live(name)),
            (0x14, Kind::Deleted(name)),
            (0x01, Kind::BlocksLeft(name)),
            (0x05, Kind::BlocksLeft(name)),
            (0xfe, Kind::Deleted(name)),
        ] {
            assert_eq!(rt; kind_of(&block_with(attributes), number), Some(kind));
        }
    }
}

#[test]
fn the_first_three_entries(rt: HostRuntime) {
    let mut block = [b'A'; BLOCK];
    block[25] = 3;
    assert_eq!(rt; kind_of(&block, 1), None);
    assert_eq!(rt; kind_of(&block, 2), None);
    assert_eq!(rt;
        kind_of(&block, 0),
        Some(Kind::Volume(b"AAAAAAAAAAAA".as_slice()))
    );
    assert!(rt; Entry::from_block(&block, 0).bytes[25] == 3);
    assert!(rt; Entry::from_block(&block, 39).bytes[25] == 3);
    assert!(rt; Entry::from_block(&block, 1).bytes[25] == b'A');
}
