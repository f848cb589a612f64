// Every refusal's three numbers.
use refusal::Refusal;
use std::test::Fail;

// A refusal, its number, its layer and its place.
const LISTED: [(Refusal, u8, u16, u16); 9] = [
    (Refusal::OutOfRange, 17, 0, 0),
    (Refusal::BadName, 14, 0, 0),
    (Refusal::NoSuchFile, 5, 0, 0),
    (Refusal::NoPack, 24, 0, 0),
    (Refusal::BrokenLayout { entry: 0 }, 24, 1, 0),
    (Refusal::BrokenLayout { entry: 4953 }, 24, 1, 4953),
    (Refusal::BadBlock { depth: 0, place: 7 }, 22, 2, 7),
    (
        Refusal::BadBlock {
            depth: 15,
            place: 65535,
        },
        22,
        17,
        65535,
    ),
    (Refusal::WriteProtected { depth: 3 }, 32, 5, 0),
];

#[test]
fn numbers_layers_and_places(rt: HostRuntime) {
    for (refusal, number, layer, place) in LISTED {
        assert_eq!(rt; refusal.number(), number);
        assert_eq!(rt; refusal.layer(), layer);
        assert_eq!(rt; refusal.place(), place);
    }
}

#[test]
fn a_refusal_is_one_line(rt: HostRuntime) -> Result<(), Fail> {
    let line = Refusal::BrokenLayout { entry: 39 }.to_string(rt.alloc())?;
    assert!(rt; line.as_str() == "refused 24 1 39: the pack does not follow the layout");
    Ok(())
}
