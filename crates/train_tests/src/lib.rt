// Worked examples of the words, asymmetric on purpose.
#![tactic(auto)]

#[cfg(test)]
mod tests {
    use train::checks::{facings_known, labels_apart, names_well_formed};
    use train::entries::{Coupled, Vehicle};
    use train::facing::Facing;
    use train::identity::Identity;
    use train::name::Name;
    use train::refusal::{Part, Place, Reason, Refusal};
    use train::turning::turn_all;

    // The identity whose last byte is `n` and whose other bytes are zero.
    fn identity(n: u8) -> Identity {
        let mut bytes = [0; 16];
        bytes[15] = n;
        Identity { bytes }
    }

    // The first sixteen bytes of a text, zero bytes behind it.
    fn name(text: &[u8]) -> Name {
        let mut bytes = [0; 16];
        for i in 0..16usize {
            if i < text.len() {
                bytes[i] = text[i];
            }
        }
        Name { bytes }
    }

    fn coupled(n: u8, facing: Facing) -> Coupled {
        Coupled {
            identity: identity(n),
            facing,
        }
    }

    fn vehicle(text: &[u8], facing: Facing) -> Vehicle {
        Vehicle {
            name: name(text),
            facing,
        }
    }

    const ALL: [Facing; 3] = [Facing::NotKnown, Facing::Direct, Facing::Inverse];

    #[test]
    fn facings_compose_by_the_table(rt: HostRuntime) {
        let table = [[0u8, 0, 0], [0, 1, 2], [0, 2, 1]];
        for i in 0..3usize {
            for j in 0..3usize {
                assert_eq!(rt; ALL[i].within(ALL[j]).number(), table[i][j]);
            }
        }
    }

    #[test]
    fn three_consists_turn(rt: HostRuntime) {
        let mut formation = [
            coupled(1, Facing::Direct),
            coupled(2, Facing::Direct),
            coupled(3, Facing::Inverse),
        ];
        turn_all(&mut formation);
        let want = [
            coupled(3, Facing::Direct),
            coupled(2, Facing::Inverse),
            coupled(1, Facing::Inverse),
        ];
        for (got, want) in formation.iter().zip(want.iter()) {
            assert_eq!(rt; got.identity, want.identity);
            assert_eq!(rt; got.facing, want.facing);
        }
    }

    #[test]
    fn vehicles_turn(rt: HostRuntime) {
        let mut consist = [
            vehicle(b"A", Facing::Direct),
            vehicle(b"B\"2", Facing::Inverse),
            vehicle(b"C", Facing::NotKnown),
        ];
        turn_all(&mut consist[0..2]);
        let want = [
            vehicle(b"B\"2", Facing::Direct),
            vehicle(b"A", Facing::Inverse),
            vehicle(b"C", Facing::NotKnown),
        ];
        for (got, want) in consist.iter().zip(want.iter()) {
            assert_eq!(rt; got.name, want.name);
            assert_eq!(rt; got.facing, want.facing);
        }
    }

    #[test]
    fn names_at_the_edges(rt: HostRuntime) {
        assert!(rt; name(b"123456789012345").is_well_formed());
        assert!(rt; !name(b"1234567890123456").is_well_formed());
        assert!(rt; name(b" ").is_well_formed());
        assert!(rt; name(b"~").is_well_formed());
        assert!(rt; !name(b"").is_well_formed());
        assert!(rt; !name(b"\x1f").is_well_formed());
        assert!(rt; !name(b"\x7f").is_well_formed());
        assert!(rt; !name(b"A\0B").is_well_formed());
        assert!(rt; !name(b"\0A").is_well_formed());
    }

    #[test]
    fn identities_by_the_first_byte_that_differs(rt: HostRuntime) {
        let mut high = identity(0);
        high.bytes[0] = 1;
        assert!(rt; identity(255) < high);
        assert!(rt; identity(1) < identity(2));
        assert!(rt; !(identity(2) < identity(2)));
        assert!(rt; !identity(0).is_well_formed());
        assert!(rt; identity(1).is_well_formed());
        assert!(rt; high.is_well_formed());
    }

    fn refused(part: Part, reason: Reason, place: usize) -> Result<(), Refusal> {
        Err(Refusal {
            part,
            reason,
            place: Place::At(place),
        })
    }

    #[test]
    fn the_first_entry_that_breaks_a_rule(rt: HostRuntime) {
        let formation = [
            coupled(7, Facing::Direct),
            coupled(8, Facing::NotKnown),
            coupled(7, Facing::NotKnown),
        ];
        assert_eq!(rt;
            facings_known(Part::Bench, &formation),
            refused(Part::Bench, Reason::UnknownFacing, 2)
        );
        assert_eq!(rt;
            labels_apart(Part::Bench, &formation),
            refused(Part::Bench, Reason::Repeated, 3)
        );
        assert_eq!(rt; labels_apart(Part::Bench, &formation[1..]), Ok(()));
        assert_eq!(rt; facings_known(Part::Bench, &formation[0..1]), Ok(()));
    }

    #[test]
    fn names_of_a_consist(rt: HostRuntime) {
        let consist = [
            vehicle(b"A", Facing::Direct),
            vehicle(b"B", Facing::Inverse),
            vehicle(b"", Facing::Direct),
            vehicle(b"A", Facing::Inverse),
        ];
        assert_eq!(rt;
            names_well_formed(Part::Roster, &consist),
            refused(Part::Roster, Reason::NameForm, 3)
        );
        assert_eq!(rt;
            labels_apart(Part::Roster, &consist),
            refused(Part::Roster, Reason::Repeated, 4)
        );
        assert_eq!(rt; facings_known(Part::Roster, &consist), Ok(()));
        let list = [name(b"X"), name(b"Y"), name(b"Y"), name(b"X")];
        assert_eq!(rt;
            labels_apart(Part::Bench, &list),
            refused(Part::Bench, Reason::Repeated, 3)
        );
    }

    #[test]
    fn reasons_have_their_numbers(rt: HostRuntime) {
        assert_eq!(rt; Reason::LineForm.number(), 1);
        assert_eq!(rt; Reason::Repeated.number(), 11);
        assert_eq!(rt; Reason::NoFormation.number(), 12);
        assert_eq!(rt; Reason::BufferShort.number(), 24);
    }
}
