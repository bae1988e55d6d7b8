//! The arrows of posts, from who sends to who gets.

ghost use Rattle.std.specs.Prelude.{◌≡◌, ◌++◌, IfOk, IfSome, OnOk};
ghost use Rattle.std.specs.Option.{option_to_list};
ghost use Rattle.std.specs.List.{AllByRecursion};
ghost use Rattle.run_pictures.specs.Posts.{IsPost};

use super::layout::{Birth, Column, Mark, Post};
use super::step::Step;
use np_syntax::{Kind, List, Memory};
use np_tables::Table;
use std::alloc::Global;

/// The column in which each agent stood last, by its number, and how many births were noted.
#[derive(Drop)]
struct Standing {
    columns: Table<u32>,
    births: usize,
}

impl Standing {
    fn new(alloc: Global) -> Standing {
        Standing {
            columns: Table::new(alloc),
            births: 0,
        }
    }

    /// Where the agent stood last to which something goes by a step.
    fn goal_of(&self, step: &Step) -> Option<u32> {
        self.columns.get(step.target?).copied()
    }

    /// Notes where the agent of a birth begins.
    fn bear(&mut self, columns: &[Column], birth: &Birth) -> Result<(), Memory> {
        self.births = self.births.saturating_add(1);
        match columns.get(birth.column as usize) {
            Some(column) => self.columns.insert(column.agent, birth.column),
            None => Ok(()),
        }
    }

    /// Notes where a step of this number and mark takes place.
    fn note(
        &mut self,
        columns: &[Column],
        births: &[Birth],
        event: u32,
        step: &Step,
        mark: Mark,
    ) -> Result<(), Memory> {
        if !matches!(step.event.kind, Kind::Land) {
            self.columns.insert(step.agent, mark.column)?;
        }
        match births.get(self.births) {
            Some(birth) if birth.event == event => self.bear(columns, birth),
            _ => Ok(()),
        }
    }
}

/// The post of this number, where its agent stood last in this column, another than that of its mark.
fn post_to(
    columns: &[Column],
    steps: &[Step],
    event: u32,
    mark: Mark,
    goal: Option<u32>,
) -> Option<Post>
    ensures { IfSome result (IsPost columns.now steps.now) }
{
    let column = goal?;
    let step = steps.get(event as usize)?;
    let target = step.target?;
    let stands = columns.get(column as usize).copied()?;
    let goes = matches!(step.event.kind, Kind::Post) && column != mark.column;
    if goes && stands.agent == target {
        Some(Post { event, column })
    } else {
        None
    }
}

fn add_post(posts: &mut List<Post>, post: Option<Post>) -> Result<(), Memory>
    ensures { OnOk result (posts.new ≡ posts.old ++ option_to_list post) }
{
    match post {
        Some(post) => posts.add(post),
        None => Ok(()),
    }
}

/// The posts of a run, where these are the births.
pub(super) fn posts_of(
    alloc: Global,
    columns: &[Column],
    steps: &[Step],
    marks: &[Mark],
    births: &[Birth],
) -> Result<List<Post>, Memory>
    ensures { IfOk result (λ posts. AllByRecursion (IsPost columns.now steps.now) posts) }
{
    let mut standing = Standing::new(alloc);
    let mut posts = List::new(alloc);
    let mut event = 0u32;
    for (step, mark) in steps.iter().zip(marks.iter()) {
        let goal = standing.goal_of(step);
        add_post(&mut posts, post_to(columns, steps, event, *mark, goal))?;
        standing.note(columns, births, event, step, *mark)?;
        event = event.saturating_add(1);
    }
    Ok(posts)
}
