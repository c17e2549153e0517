use cta_model::{Candidate, Direction};
use part_answers::first_of;

fn candidate(direction: Direction, key: u32, priority: u32, birth: u32) -> Candidate {
    Candidate {
        direction,
        key,
        tape: 7,
        priority,
        birth,
    }
}

// Each of the four decides in its turn.
#[test]
fn the_first_is_chosen(rt: HostRuntime) {
    let late = candidate(Direction::Archive, 1, 5, 9);
    let early = candidate(Direction::Archive, 2, 5, 3);
    let low = candidate(Direction::Archive, 1, 5, 3);
    let read = candidate(Direction::Retrieve, 0, 5, 1);
    let urgent = candidate(Direction::Retrieve, 9, 6, 99);
    let cases: [(&[Candidate], Option<Candidate>); 5] = [
        (&[], None),
        (&[late, early], Some(early)),
        (&[early, low, late], Some(low)),
        (&[read, late], Some(late)),
        (&[low, read, urgent, early], Some(urgent)),
    ];
    for (list, wanted) in cases {
        assert_eq!(rt; first_of(list), wanted);
    }
}
