// Three consists of unequal length whose vehicles face mixed ways, led from the middle.
use crate::rows::{behind_consists, behind_vehicles, coupled, name, vehicle};
use bench::state::Bench;
use directory::composing::compose;
use fleet::roster::Roster;
use std::process::Abort;
use std::test::Fail;
use train::entries::Coupled;
use train::facing::Facing;
use train::identity::Identity;
use train::name::Name;
use train::refusal::Refusal;
use train::turning::turn_all;

const A: Identity = Identity { bytes: [1; 16] };

const B: Identity = Identity { bytes: [2; 16] };

const C: Identity = Identity { bytes: [3; 16] };

// The identity of an inserted consist.
const NONE: Identity = Identity { bytes: [0; 16] };

// A is A1 and A2, B is B1 to B3, C is C1.
fn three_consists() -> Result<Roster, Refusal> {
    let mut roster = Roster::new();
    let a = [
        vehicle(b"A1", Facing::Direct),
        vehicle(b"A2", Facing::Inverse),
    ];
    let b = [
        vehicle(b"B1", Facing::Inverse),
        vehicle(b"B2", Facing::Direct),
        vehicle(b"B3", Facing::Direct),
    ];
    roster.announce(A, 7, &a)?;
    roster.announce(B, 8, &b)?;
    roster.announce(C, 9, &[vehicle(b"C1", Facing::Inverse)])?;
    Ok(roster)
}

// A, B and C with these facings.
fn formation(facings: [Facing; 3]) -> [Coupled; 3] {
    [
        coupled(A, facings[0]),
        coupled(B, facings[1]),
        coupled(C, facings[2]),
    ]
}

// Vehicle 2 of B is claimed in a direction.
fn led_by(formation: &[Coupled], direction: u8) -> Result<Bench, Refusal> {
    let mut bench = Bench::new();
    bench.inaugurate(5, formation)?;
    bench.claim(B, 2, direction)?;
    Ok(bench)
}

fn led(facings: [Facing; 3], direction: u8) -> Result<Bench, Refusal> {
    led_by(&formation(facings), direction)
}

fn led_turned(facings: [Facing; 3], direction: u8) -> Result<Bench, Refusal> {
    let mut entries = formation(facings);
    turn_all(&mut entries);
    led_by(&entries, direction)
}

// Where the operational sections begin: behind the header and three train consists.
const OPERATIONAL: usize = 16 + 1 + 3 * 24;

// Composes; the first four bytes and the operational sections are these.
fn composes(
    rt: &impl Abort,
    bench: &Bench,
    head: [u8; 4],
    consists: &[(Identity, [u8; 3])],
    vehicles: &[(&[u8; 2], [u8; 6])],
) -> Result<(), Fail> {
    let mut out = [0xa5; 600];
    let length = compose(bench, &three_consists()?, &mut out)?;
    assert!(rt; OPERATIONAL <= length && length <= out.len());
    assert_eq!(rt; &out[0..4], &head[..]);
    let rest = behind_consists(rt, &out[OPERATIONAL..length], consists);
    let rest = behind_vehicles(rt, rest, vehicles);
    assert_eq!(rt; rest.len(), 0);
    Ok(())
}

// B faces inverse, so in direction 1 the last consist is the head.
#[test]
fn inverse_middle_led_in_direction_1(rt: HostRuntime) -> Result<(), Fail> {
    composes(
        &rt,
        &led([Facing::Direct, Facing::Inverse, Facing::Direct], 1)?,
        [1, 0, 2, 1],
        &[(C, [1, 2, 3]), (B, [2, 1, 2]), (A, [3, 2, 1])],
        &[
            (b"C1", [1, 1, 0, 6, 1, 1]),
            (b"B1", [2, 1, 0, 5, 2, 2]),
            (b"B2", [3, 2, 1, 4, 1, 2]),
            (b"B3", [4, 1, 0, 3, 1, 2]),
            (b"A2", [5, 1, 0, 2, 1, 3]),
            (b"A1", [6, 1, 0, 1, 2, 3]),
        ],
    )
}

#[test]
fn inverse_middle_led_in_direction_2(rt: HostRuntime) -> Result<(), Fail> {
    composes(
        &rt,
        &led([Facing::Direct, Facing::Inverse, Facing::Direct], 2)?,
        [1, 0, 1, 1],
        &[(A, [1, 1, 1]), (B, [2, 2, 2]), (C, [3, 1, 3])],
        &[
            (b"A1", [1, 1, 0, 1, 1, 1]),
            (b"A2", [2, 1, 0, 2, 2, 1]),
            (b"B3", [3, 1, 0, 3, 2, 2]),
            (b"B2", [4, 2, 2, 4, 2, 2]),
            (b"B1", [5, 1, 0, 5, 1, 2]),
            (b"C1", [6, 1, 0, 6, 2, 3]),
        ],
    )
}

#[test]
fn direct_middle_led_in_direction_1(rt: HostRuntime) -> Result<(), Fail> {
    composes(
        &rt,
        &led([Facing::Direct, Facing::Direct, Facing::Inverse], 1)?,
        [1, 0, 1, 1],
        &[(A, [1, 1, 1]), (B, [2, 1, 2]), (C, [3, 2, 3])],
        &[
            (b"A1", [1, 1, 0, 1, 1, 1]),
            (b"A2", [2, 1, 0, 2, 2, 1]),
            (b"B1", [3, 1, 0, 3, 2, 2]),
            (b"B2", [4, 2, 1, 4, 1, 2]),
            (b"B3", [5, 1, 0, 5, 1, 2]),
            (b"C1", [6, 1, 0, 6, 1, 3]),
        ],
    )
}

#[test]
fn direct_middle_led_in_direction_2(rt: HostRuntime) -> Result<(), Fail> {
    composes(
        &rt,
        &led([Facing::Direct, Facing::Direct, Facing::Inverse], 2)?,
        [1, 0, 2, 1],
        &[(C, [1, 1, 3]), (B, [2, 2, 2]), (A, [3, 2, 1])],
        &[
            (b"C1", [1, 1, 0, 6, 2, 1]),
            (b"B3", [2, 1, 0, 5, 2, 2]),
            (b"B2", [3, 2, 2, 4, 2, 2]),
            (b"B1", [4, 1, 0, 3, 1, 2]),
            (b"A2", [5, 1, 0, 2, 1, 3]),
            (b"A1", [6, 1, 0, 1, 2, 3]),
        ],
    )
}

// The formation of the first test, turned: orientation and train numbers differ, and nothing else.
#[test]
fn turned_formation_led_alike(rt: HostRuntime) -> Result<(), Fail> {
    composes(
        &rt,
        &led_turned([Facing::Direct, Facing::Inverse, Facing::Direct], 1)?,
        [1, 0, 1, 1],
        &[(C, [1, 2, 1]), (B, [2, 1, 2]), (A, [3, 2, 3])],
        &[
            (b"C1", [1, 1, 0, 1, 1, 1]),
            (b"B1", [2, 1, 0, 2, 2, 2]),
            (b"B2", [3, 2, 1, 3, 1, 2]),
            (b"B3", [4, 1, 0, 4, 1, 2]),
            (b"A2", [5, 1, 0, 5, 1, 3]),
            (b"A1", [6, 1, 0, 6, 2, 3]),
        ],
    )
}

// The order of B inverse led in direction 2, with runs inserted at both ends and between consists.
fn inserted() -> [Name; 11] {
    [
        name(b"V1"),
        name(b"A1"),
        name(b"A2"),
        name(b"W1"),
        name(b"W2"),
        name(b"B3"),
        name(b"B2"),
        name(b"B1"),
        name(b"X1"),
        name(b"C1"),
        name(b"Y1"),
    ]
}

#[test]
fn inserted_runs_are_consists(rt: HostRuntime) -> Result<(), Fail> {
    let consists = [
        (NONE, [1, 0, 0]),
        (A, [2, 1, 1]),
        (NONE, [3, 0, 0]),
        (B, [4, 2, 2]),
        (NONE, [5, 0, 0]),
        (C, [6, 1, 3]),
        (NONE, [7, 0, 0]),
    ];
    let vehicles = [
        (b"V1", [1, 1, 0, 0, 0, 1]),
        (b"A1", [2, 1, 0, 1, 1, 2]),
        (b"A2", [3, 1, 0, 2, 2, 2]),
        (b"W1", [4, 1, 0, 0, 0, 3]),
        (b"W2", [5, 1, 0, 0, 0, 3]),
        (b"B3", [6, 1, 0, 3, 2, 4]),
        (b"B2", [7, 2, 2, 4, 2, 4]),
        (b"B1", [8, 1, 0, 5, 1, 4]),
        (b"X1", [9, 1, 0, 0, 0, 5]),
        (b"C1", [10, 1, 0, 6, 2, 6]),
        (b"Y1", [11, 1, 0, 0, 0, 7]),
    ];
    let mut bench = led([Facing::Direct, Facing::Inverse, Facing::Direct], 2)?;
    bench.confirm(&inserted())?;
    composes(&rt, &bench, [1, 0, 1, 2], &consists, &vehicles)
}
