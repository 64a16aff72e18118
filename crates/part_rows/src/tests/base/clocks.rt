// Deadlines, tick by tick.
use super::cases::are_right;
use limit_clock::Deadline;

// The numbers of the ticks, of the first `count`, that meet a limit.
fn met_at(limit: u32, count: u32) -> u32 {
    let mut deadline = Deadline::after(limit);
    let mut sum = 0u32;
    for number in 1..=count {
        if ticks(&mut deadline) {
            sum = sum.wrapping_mul(100).wrapping_add(number);
        }
    }
    sum
}

fn ticks(deadline: &mut Deadline) -> bool {
    deadline.tick()
}

// A limit, how many ticks are heard, and the ticks that meet it.
static MET: [(u32, u32, u32); 10] = [
    (1, 0, 0),
    (1, 1, 1),
    (1, 5, 1),
    (3, 2, 0),
    (3, 3, 3),
    (3, 9, 3),
    (20, 19, 0),
    (20, 40, 20),
    (0, 9, 0),
    (864_000, 99, 0),
];

fn is_met((limit, count, met): &(u32, u32, u32)) -> bool {
    met_at(*limit, *count) == *met
}

#[test]
fn the_tick_with_the_number_meets_the_limit(rt: HostRuntime) {
    are_right(&rt, &MET, is_met);
}

fn is_over(deadline: &Deadline) -> bool {
    deadline.is_over()
}

#[test]
fn it_is_over_from_that_tick_on(rt: HostRuntime) {
    let mut deadline = Deadline::after(2);
    let heard = [
        is_over(&deadline),
        ticks(&mut deadline),
        is_over(&deadline),
        ticks(&mut deadline),
        is_over(&deadline),
        ticks(&mut deadline),
        is_over(&deadline),
    ];
    assert_eq!(rt; heard, [false, false, false, true, true, false, true]);
}
