use super::*;

#[test]
fn a_sum_stops_at_the_ceiling(rt: HostRuntime) {
    let joined = Fee::new(600_000_000).join(Fee::new(400_000_001));
    assert_eq!(rt; joined.amount(), 1_000_000_000);
    assert!(rt; !joined.may_bound());
    let below = Fee::new(600_000_000).join(Fee::new(399_999_999));
    assert_eq!(rt; below.amount(), 999_999_999);
    assert!(rt; below.may_bound());
    assert_eq!(rt;
        Delay::new(u32::MAX).join(Delay::new(u32::MAX)).amount(),
        ceiling()
    );
}

#[test]
fn numbers_above_the_ceiling_are_one_weight(rt: HostRuntime) {
    let high = Delay::new(u32::MAX);
    let top = Delay::new(1_000_000_000);
    assert!(rt; high.as_good(top) && top.as_good(high));
    assert!(rt; !high.before(top) && !top.before(high));
    assert_eq!(rt; high.amount(), 1_000_000_000);
}

#[test]
fn colours_five_are_within_seven_and_not_within_three(rt: HostRuntime) {
    let five = Colours { bits: 5 };
    assert!(rt; five.as_good(Colours { bits: 7 }));
    assert!(rt; !five.as_good(Colours { bits: 3 }));
    assert_eq!(rt; five.join(Colours { bits: 2 }).bits, 7);
    assert!(rt; Colours { bits: 3 }.before(five));
    assert!(rt; Colours { bits: u32::MAX }.may_bound());
}

#[test]
fn a_route_is_as_wide_as_its_narrowest_link(rt: HostRuntime) {
    let wide = Width { mbits: 1000 };
    let narrow = Width { mbits: 10 };
    assert_eq!(rt; wide.join(narrow).mbits, 10);
    assert!(rt; wide.as_good(narrow) && wide.before(narrow));
    assert!(rt; !narrow.as_good(wide) && !narrow.before(wide));
    assert_eq!(rt; <Width as Kind>::neutral().mbits, 4_294_967_295);
    assert!(rt; Width { mbits: 0 }.may_bound());
}

#[test]
fn a_pair_goes_part_by_part_and_stands_by_its_first(rt: HostRuntime) {
    let fast = Pair {
        first: Delay::new(3),
        second: Fee::new(4),
    };
    let cheap = Pair {
        first: Delay::new(5),
        second: Fee::new(1),
    };
    assert!(rt; !fast.as_good(cheap) && !cheap.as_good(fast));
    assert!(rt; fast.before(cheap) && !cheap.before(fast));
    let dear = Pair {
        first: Delay::new(3),
        second: Fee::new(5),
    };
    assert!(rt; fast.as_good(dear) && fast.before(dear));
    let both = fast.join(cheap);
    assert_eq!(rt; both.first.amount(), 8);
    assert_eq!(rt; both.second.amount(), 5);
    assert!(rt;
        !Pair {
            first: Delay::new(3),
            second: Fee::new(ceiling()),
        }
        .may_bound()
    );
}

#[test]
fn neutral_may_bound_and_joins_to_nothing(rt: HostRuntime) {
    let none: Pair<Delay, Width> = <Pair<_, _> as Kind>::neutral();
    assert!(rt; none.may_bound());
    let some = Pair {
        first: Delay::new(7),
        second: Width { mbits: 9 },
    };
    let left = none.join(some);
    let right = some.join(none);
    assert_eq!(rt; left.first.amount(), 7);
    assert_eq!(rt; left.second.mbits, 9);
    assert_eq!(rt; right.first.amount(), 7);
    assert_eq!(rt; right.second.mbits, 9);
}
