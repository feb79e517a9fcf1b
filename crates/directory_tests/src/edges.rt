// A train of two consists, and how long a buffer and a train may be.
use crate::rows::{
    all_are, behind, behind_consists, behind_trains, behind_vehicles, coupled, vehicle,
};
use bench::state::Bench;
use directory::composing::compose;
use fleet::roster::Roster;
use std::test::Fail;
use train::entries::Vehicle;
use train::facing::Facing;
use train::identity::Identity;
use train::refusal::{Part, Reason, Refusal};

// 3026cede-c9e8-11e3-9d46-1a514932ac01
const A: Identity = Identity {
    bytes: [
        0x30, 0x26, 0xce, 0xde, 0xc9, 0xe8, 0x11, 0xe3, 0x9d, 0x46, 0x1a, 0x51, 0x49, 0x32, 0xac,
        0x01,
    ],
};

// 6a4a96fe-c9e8-11e3-9d46-1a514932ac01
const B: Identity = Identity {
    bytes: [
        0x6a, 0x4a, 0x96, 0xfe, 0xc9, 0xe8, 0x11, 0xe3, 0x9d, 0x46, 0x1a, 0x51, 0x49, 0x32, 0xac,
        0x01,
    ],
};

// A and B, each of three direct vehicles.
fn two_consists() -> Result<Roster, Refusal> {
    let mut roster = Roster::new();
    let a = [
        vehicle(b"UIC508089435038", Facing::Direct),
        vehicle(b"UIC508089435020", Facing::Direct),
        vehicle(b"UIC508089435012", Facing::Direct),
    ];
    let b = [
        vehicle(b"UIC508089436036", Facing::Direct),
        vehicle(b"UIC508089436028", Facing::Direct),
        vehicle(b"UIC508089436010", Facing::Direct),
    ];
    roster.announce(A, 7, &a)?;
    roster.announce(B, 9, &b)?;
    Ok(roster)
}

// Composes A inverse, B direct, with vehicle 3 of B claimed in direction 2.
fn compose_led(out: &mut [u8]) -> Result<Result<usize, Refusal>, Refusal> {
    let mut bench = Bench::new();
    bench.inaugurate(
        1,
        &[coupled(A, Facing::Inverse), coupled(B, Facing::Direct)],
    )?;
    bench.claim(B, 3, 2)?;
    Ok(compose(&bench, &two_consists()?, out))
}

// Both counters are those of a second implementation of SC-32.
const HEAD: [u8; 16] = [
    1, 0, 2, 1, 0, 0, 0, 1, 0x4d, 0xf7, 0x75, 0x01, 0x8b, 0x6a, 0xf3, 0x96,
];

#[test]
fn two_consists_in_251_bytes(rt: HostRuntime) -> Result<(), Fail> {
    let mut out = [0xa5; 251];
    assert_eq!(rt; compose_led(&mut out)?, Ok(251));
    let rest = behind(&rt, &out, &HEAD);
    let rest = behind_trains(&rt, rest, &[(A, 7, [1, 2]), (B, 9, [2, 1])]);
    let rest = behind_consists(&rt, rest, &[(B, [1, 2, 2]), (A, [2, 1, 1])]);
    let vehicles = [
        (b"UIC508089436010", [1, 2, 2, 6, 2, 1]),
        (b"UIC508089436028", [2, 1, 0, 5, 2, 1]),
        (b"UIC508089436036", [3, 1, 0, 4, 2, 1]),
        (b"UIC508089435038", [4, 1, 0, 3, 1, 2]),
        (b"UIC508089435020", [5, 1, 0, 2, 1, 2]),
        (b"UIC508089435012", [6, 1, 0, 1, 1, 2]),
    ];
    let rest = behind_vehicles(&rt, rest, &vehicles);
    assert_eq!(rt; rest.len(), 0);
    Ok(())
}

#[test]
fn bytes_behind_are_kept(rt: HostRuntime) -> Result<(), Fail> {
    let mut out = [0xa5; 251];
    let mut long = [0xa5; 300];
    assert_eq!(rt; compose_led(&mut out)?, Ok(251));
    assert_eq!(rt; compose_led(&mut long)?, Ok(251));
    assert!(rt; all_are(behind(&rt, &long, &out), 0xa5));
    Ok(())
}

fn refused(reason: Reason, place: usize) -> Result<usize, Refusal> {
    Err(Refusal::at(Part::Composing, reason, place))
}

#[test]
fn a_byte_short_alters_nothing(rt: HostRuntime) -> Result<(), Fail> {
    let mut out = [0xa5; 250];
    assert_eq!(rt; compose_led(&mut out)?, refused(Reason::BufferShort, 251));
    assert!(rt; all_are(&out, 0xa5));
    Ok(())
}

// Vehicles whose names are a letter and two digits.
fn vehicles(letter: u8) -> [Vehicle; 32] {
    let mut vehicles = [vehicle(b"", Facing::Direct); 32];
    for i in 0..32u8 {
        let text = [letter, b'0' + i / 10, b'0' + i % 10];
        vehicles[usize::from(i)] = vehicle(&text, Facing::Direct);
    }
    vehicles
}

// Composes a train of 32 and of so many vehicles.
fn compose_long(more: usize) -> Result<Result<usize, Refusal>, Refusal> {
    let mut roster = Roster::new();
    roster.announce(A, 1, &vehicles(b'A'))?;
    roster.announce(B, 1, &vehicles(b'B')[0..more.min(32)])?;
    let mut bench = Bench::new();
    bench.inaugurate(
        1,
        &[coupled(A, Facing::Direct), coupled(B, Facing::Inverse)],
    )?;
    let mut out = [0; 2000];
    Ok(compose(&bench, &roster, &mut out))
}

#[test]
fn at_most_63_vehicles(rt: HostRuntime) -> Result<(), Fail> {
    assert_eq!(rt; compose_long(31)?, Ok(1619));
    assert_eq!(rt; compose_long(32)?, refused(Reason::TrainLength, 0));
    Ok(())
}
