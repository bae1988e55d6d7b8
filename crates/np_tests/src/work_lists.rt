//! In which order work lists serve, which no clause says.

ghost use Rattle.std.specs.Prelude.{◌≡◌};
ghost use Rattle.std.specs.FinMap as map;

use np_syntax::{Memory, Name};
use np_tables::{Errand, Meeting, Ready, WorkLists};

fn name(n: u32) -> Name {
    Name { site: 0, n }
}

const TEN: Meeting = Meeting {
    agent: Name { site: 0, n: 0 },
    chan: Name { site: 0, n: 10 },
};

const TWENTY: Meeting = Meeting {
    agent: Name { site: 0, n: 0 },
    chan: Name { site: 0, n: 20 },
};

fn file_all(work: &mut WorkLists, errands: &[(u32, Errand)]) -> Result<(), Memory> {
    for (mark, errand) in errands {
        work.file(name(*mark), *errand)?;
    }
    Ok(())
}

// Takes what is ready, in order. The last mark of each is filed no more, and the other stays.
fn serve_all(work: &mut WorkLists, alike: &[Ready]) -> bool {
    for expected in alike {
        let Some(ready) = work.next() else {
            return false;
        };
        if ready != *expected {
            return false;
        }
        match ready {
            Ready::Acts(mark) | Ready::Meets(_, mark) => work.remove(mark),
        }
    }
    true
}

fn file_ten(work: &mut WorkLists) -> Result<(), Memory> {
    let errands = [
        (1, Errand::Acts),
        (11, Errand::Gives(TEN)),
        (12, Errand::Gives(TEN)),
        (29, Errand::Takes(TWENTY)),
        (13, Errand::Gives(TEN)),
        (3, Errand::Stuck),
        (19, Errand::Takes(TEN)),
        (21, Errand::Gives(TWENTY)),
        (2, Errand::Acts),
        (22, Errand::Gives(TWENTY)),
    ];
    file_all(work, &errands)
}

fn serve_seven(work: &mut WorkLists) -> bool {
    let alike = [
        Ready::Acts(name(1)),
        Ready::Meets(name(19), name(11)),
        Ready::Meets(name(29), name(21)),
        Ready::Acts(name(2)),
        Ready::Meets(name(19), name(12)),
        Ready::Meets(name(29), name(22)),
        Ready::Meets(name(19), name(13)),
    ];
    serve_all(work, &alike)
}

// What has waited longest is served first. The inputs 19 and 29 stay, as replicated inputs do.
fn file_and_serve(work: &mut WorkLists) -> Result<bool, Memory> {
    file_ten(work)?;
    Ok(serve_seven(work) && work.is_quiet())
}

#[test]
fn the_first_to_come_are_served_first(rt: HostRuntime) {
    let mut work = WorkLists::new(rt.alloc());
    let served = file_and_serve(&mut work);
    drop(work);
    assert_eq!(rt; served, Ok(true));
}

fn file_and_serve_two(work: &mut WorkLists) -> Result<bool, Memory>
    requires { work.old ≡ map.empty }
{
    work.file_two(name(1), Errand::Acts, name(2), Errand::Acts)?;
    let served = serve_all(work, &[Ready::Acts(name(1)), Ready::Acts(name(2))]);
    Ok(served && work.next().is_none())
}

#[test]
fn two_are_filed_in_order(rt: HostRuntime) {
    let mut work = WorkLists::new(rt.alloc());
    let served = file_and_serve_two(&mut work);
    drop(work);
    assert_eq!(rt; served, Ok(true));
}
