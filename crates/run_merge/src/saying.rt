ghost use Rattle.std.specs.Prelude.{◌≡◌, ◌++◌, map, IfOk, OnOk};
ghost use Rattle.std.specs.List.{flat_map};
ghost use Rattle.run_merge.specs.Merged.{values_of, said, past, shown};

use super::rank::{Rank, Ranked};
use super::sorting::sort;
use np_syntax::{Kind, List, Memory, Value};
use stamp_history::History;
use std::alloc::Global;

/// The printed values of the histories with their sites, in the order of their events in the merged history.
pub fn said(alloc: Global, histories: &[History]) -> Result<List<(u32, Value)>, Memory>
    ensures { IfOk result (λ values. values ≡ said (past histories.now)) }
{
    let mut ranked = ranked_values(alloc, histories)?;
    sort(&mut ranked)?;
    copied(alloc, ranked.as_slice())
}

/// The printed values of each history in turn.
fn ranked_values<'a>(
    alloc: Global,
    histories: &'a [History],
) -> Result<Vec<Ranked<&'a Value>>, Memory>
    ensures { IfOk result (λ all. map shown all.items ≡ flat_map values_of (past histories.now)) }
{
    let mut ranked = Vec::new(alloc);
    for history in histories {
        add_values(&mut ranked, history)?;
    }
    Ok(ranked)
}

/// Appends the printed values of a history.
fn add_values<'a>(ranked: &mut Vec<Ranked<&'a Value>>, history: &'a History) -> Result<(), Memory>
    ensures { OnOk result (map shown ranked.new.items ≡ map shown ranked.old.items ++ values_of history.now.history) }
{
    let site = history.site();
    let values = history.said();
    let mut next = 0;
    for stamped in history.events() {
        if stamped.event.kind == Kind::Print {
            let stamp = stamped.stamp;
            ranked.push(Ranked {
                rank: Rank { stamp, site },
                item: &values[next],
            })?;
            next += 1;
        }
    }
    Ok(())
}

/// Copies of the values, with the sites.
fn copied(alloc: Global, ranked: &[Ranked<&Value>]) -> Result<List<(u32, Value)>, Memory>
    ensures { IfOk result (λ values. values ≡ map (λ one. (one.rank.site, one.item.now)) ranked.now) }
{
    let mut values = List::new(alloc);
    for one in ranked {
        let value = one.item.copy(alloc)?;
        values.add((one.rank.site, value))?;
    }
    Ok(values)
}
