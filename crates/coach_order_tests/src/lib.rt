// Pages of small fleet lists, asymmetric on purpose, and of lists at the limits.
#![tactic(auto)]

#[cfg(test)]
mod tests {
    use coach_order::order::{coach_order, order_from_head};
    use coach_order::page::{MOST, page};
    use std::alloc::{AllocError, Global};
    use std::fmt::Write;
    use std::process::Abort;
    use std::test::Fail;
    use train::entries::Vehicle;
    use train::facing::Facing;

    // The page of a list is this text.
    fn prints(rt: &impl Abort, heap: Global, list: &str, text: &str) -> Result<(), Fail> {
        let page = page(heap, list.as_bytes())?;
        assert_eq!(rt; page.as_slice(), text.as_bytes());
        Ok(())
    }

    // A list of `count` consists of `each` vehicles; the k-th vehicle of the i-th consist has the name i.k.
    fn list_of(heap: Global, count: usize, each: usize) -> Result<String, AllocError> {
        let mut list = String::new(heap);
        for n in 1..=count {
            write!(list, "{n:032x} 7")?;
            for k in 0..each {
                write!(list, " \"{n}.{k}\"+")?;
            }
            writeln!(list)?;
        }
        Ok(list)
    }

    // How many lines the page of a list has, and whether it begins with this text.
    fn begins(
        rt: &impl Abort,
        heap: Global,
        list: &str,
        text: &str,
        lines: usize,
    ) -> Result<(), Fail> {
        let page = page(heap, list.as_bytes())?;
        let ends = page.iter().filter(|byte| **byte == b'\n').count();
        assert_eq!(rt; ends, lines);
        assert!(rt; page.starts_with(text.as_bytes()));
        Ok(())
    }

    #[test]
    fn consists_in_order(rt: HostRuntime) -> Result<(), Fail> {
        let list =
            "00000000000000000000000000000001 7 \"A\"+ \"B\\\"2\"-\n00000000000000000000000000000002 9 \"C\\\\\"+\n00000000000000000000000000000100 1 \"D 4\"- \"E\"- \"F\"+\n";
        let text = "vehicles 6\n01 + A\n02 - B\"2\n03 + C\\\n04 - D 4\n05 - E\n06 + F\n";
        prints(&rt, rt.alloc(), list, text)
    }

    // The order of a list is a vector, and is laid out at the front of a slice.
    #[test]
    fn order_of_a_list(rt: HostRuntime) -> Result<(), Fail> {
        let list =
            "00000000000000000000000000000001 7 \"A\"+ \"B\"-\n00000000000000000000000000000002 9 \"C\"+\n";
        let mut vehicles = [Vehicle::default(); 63];
        let count = coach_order(list.as_bytes(), &mut vehicles).expect(&rt, "an order");
        assert_eq!(rt; count, 3);
        let order = order_from_head(list.as_bytes()).expect(&rt, "an order");
        assert_eq!(rt; order.len(), 3);
        for (vehicle, laid) in order.iter().zip(vehicles) {
            assert!(rt; vehicle.name == laid.name);
            assert_eq!(rt; vehicle.facing, laid.facing);
        }
        assert_eq!(rt; vehicles[1].facing, Facing::Inverse);
        assert_eq!(rt; vehicles[2].name.bytes[0], b'C');
        Ok(())
    }

    #[test]
    fn no_consist(rt: HostRuntime) -> Result<(), Fail> {
        prints(&rt, rt.alloc(), "", "refused 7 place 0\n")
    }

    #[test]
    fn consists_at_the_limit(rt: HostRuntime) -> Result<(), Fail> {
        let most = list_of(rt.alloc(), 63, 1)?;
        begins(
            &rt,
            rt.alloc(),
            most.as_str(),
            "vehicles 63\n01 + 1.0\n02 + 2.0\n",
            64,
        )?;
        let more = list_of(rt.alloc(), 64, 1)?;
        prints(&rt, rt.alloc(), more.as_str(), "refused 7 place 0\n")
    }

    #[test]
    fn vehicles_at_the_limit(rt: HostRuntime) -> Result<(), Fail> {
        let most = list_of(rt.alloc(), 3, 21)?;
        begins(
            &rt,
            rt.alloc(),
            most.as_str(),
            "vehicles 63\n01 + 1.0\n02 + 1.1\n",
            64,
        )?;
        let more = list_of(rt.alloc(), 2, 32)?;
        prints(&rt, rt.alloc(), more.as_str(), "refused 18 place 0\n")
    }

    #[test]
    fn a_name_in_two_consists(rt: HostRuntime) -> Result<(), Fail> {
        let list =
            "00000000000000000000000000000001 7 \"A\"+ \"B\"+\n00000000000000000000000000000002 9 \"C\"+\n00000000000000000000000000000003 9 \"D\"+ \"B\"-\n";
        prints(&rt, rt.alloc(), list, "refused 19 place 3\n")
    }

    #[test]
    fn a_line_that_breaks(rt: HostRuntime) -> Result<(), Fail> {
        let name =
            "00000000000000000000000000000001 7 \"A\"+\n00000000000000000000000000000002 9 \"B\\n\"+\n";
        prints(&rt, rt.alloc(), name, "refused 1 line 2 byte 39\n")?;
        let end = "00000000000000000000000000000001 7 \"A\"+";
        prints(&rt, rt.alloc(), end, "refused 1 line 1 byte 40\n")
    }

    #[test]
    fn import_comes_first(rt: HostRuntime) -> Result<(), Fail> {
        let order =
            "00000000000000000000000000000002 7 \"A\"+\n00000000000000000000000000000001 9 \"A\"+\n";
        prints(&rt, rt.alloc(), order, "refused 5 place 2\n")?;
        let twice =
            "00000000000000000000000000000001 7 \"A\"+\n00000000000000000000000000000002 9 \"B\"+ \"B\"-\n";
        prints(&rt, rt.alloc(), twice, "refused 11 place 2\n")
    }

    #[test]
    fn too_long(rt: HostRuntime) -> Result<(), Fail> {
        let mut list = vec![in rt.alloc(); b'x'; MOST]?;
        let most = page(rt.alloc(), list.as_slice())?;
        assert_eq!(rt; most.as_slice(), b"refused 1 line 1 byte 1\n".as_slice());
        list.push(b'x')?;
        let more = page(rt.alloc(), list.as_slice())?;
        assert_eq!(rt; more.as_slice(), b"too long\n".as_slice());
        Ok(())
    }
}
