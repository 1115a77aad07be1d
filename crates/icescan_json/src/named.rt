//! The delete files of a plan that its tasks name.

ghost use Rattle.std.specs.Prelude.{◌≡◌, ◌<◌, All, length, slice_get, Some, IfOk};
ghost use Rattle.ice_state.specs.PlacedFiles.{ArePlaced};
ghost use Rattle.icescan_json.specs.Named.{marks_of, rank, ranks_of, with_lines, with_marks};

use ice_state::PlacedFiles;
use std::alloc::{AllocError, Global};
use std::marker::Model;

/// Which delete files of a plan tasks name, and where each of these stands among them.
#[derive(Debug, Drop)]
pub(crate) struct NamedDeletes {
    /// Of each delete file, whether a task names it.
    marks: Vec<bool>,
    /// Of each delete file, how many before it are named.
    ranks: Vec<u32>,
}

impl Model for NamedDeletes {
    ghost use Rattle.std.specs.Prelude.{◌≡◌, Bool, List};
    ghost use Rattle.icescan_json.specs.Named.{ranks_of};

    ghost Value = { List Bool };

    ghost view = { λ named. named.marks.items };

    ghost invariant = { λ named. named.ranks.items ≡ ranks_of named.marks.items };
}

/// Marks these places.
fn mark(marks: &mut [bool], places: &[u32])
    requires { All (λ n. n < length marks.old) places.now }
    ensures { marks.new ≡ with_marks places.now marks.old }
{
    'places: for i in 0..places.len() {
        marks[places[i] as usize] = true;
    }
}

/// Marks the places of the delete files that the tasks name.
fn mark_named(marks: &mut [bool], plan: &PlacedFiles<'_>)
    requires many { length marks.old ≡ length plan.now.deletes }
    requires placed { ArePlaced plan.now }
    ensures { marks.new ≡ with_lines plan.now.places marks.old }
{
    'files: for i in 0..plan.count_files() {
        mark(marks, plan.positions(i));
        mark(marks, plan.equalities(i));
    }
}

/// Of each delete file, whether a task names it.
fn named(alloc: Global, plan: &PlacedFiles<'_>) -> Result<Vec<bool>, AllocError>
    requires { ArePlaced plan.now }
    ensures { IfOk result (λ marks. marks.items ≡ marks_of plan.now) }
{
    let mut marks = vec![in alloc; false; plan.count_deletes()]?;
    mark_named(&mut marks, plan);
    Ok(marks)
}

/// How many before each place are marked. More than 4 bytes can number count as want of memory.
fn ranks(alloc: Global, marks: &[bool]) -> Result<Vec<u32>, AllocError>
    ensures { IfOk result (λ ranks. ranks.items ≡ ranks_of marks.now) }
{
    let mut ranks = Vec::with_capacity(alloc, marks.len())?;
    let mut rank: u32 = 0;
    'marks: for i in 0..marks.len() {
        ranks.push(rank)?;
        if marks[i] {
            rank = rank.checked_add(1).ok_or(AllocError)?;
        }
    }
    Ok(ranks)
}

impl NamedDeletes {
    /// The delete files of a plan that its tasks name.
    pub(crate) fn of(alloc: Global, plan: &PlacedFiles<'_>) -> Result<NamedDeletes, AllocError>
        requires { ArePlaced plan.now }
        ensures { IfOk result (λ named. named ≡ marks_of plan.now) }
    {
        let marks = named(alloc, plan)?;
        let ranks = ranks(alloc, &marks)?;
        Ok(NamedDeletes { marks, ranks })
    }

    /// Whether a task names the delete file at a place.
    pub(crate) fn has(&self, n: usize) -> bool
        requires { n < length self.now }
        ensures { slice_get self.now n ≡ Some result }
    {
        self.marks[n]
    }

    /// How many delete files before a place tasks name: where the one there stands among those that are named.
    pub(crate) fn place(&self, n: usize) -> u32
        requires { n < length self.now }
        ensures { result ≡ rank self.now n }
    {
        self.ranks[n]
    }
}
