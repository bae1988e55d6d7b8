use np_syntax::{Event, Kind};

/// How many of the events are of a kind.
pub(crate) fn count_of(events: &[Event], kind: Kind) -> usize {
    let mut count = 0usize;
    for event in events {
        if event.kind == kind {
            count = count.saturating_add(1);
        }
    }
    count
}

/// How often an agent departs and then arrives, where no other departs before it does; none where one does, or does not arrive.
pub(crate) fn moves_in(events: &[Event]) -> Option<usize> {
    let mut moves = 0usize;
    let mut under_way = false;
    for event in events {
        match event.kind {
            Kind::Depart if under_way => return None,
            Kind::Depart => under_way = true,
            Kind::Arrive => {
                under_way = false;
                moves = moves.saturating_add(1);
            }
            _ => {}
        }
    }
    (!under_way).then_some(moves)
}
