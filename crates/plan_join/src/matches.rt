//! The rows of one side of a join that match each row of the other.
ghost use Rattle.std.specs.Prelude.{◌≡◌, ◌<◌, length, map, replicate, false, IfOk};
ghost use Rattle.std.specs.List.{range_with_len};
ghost use Rattle.plan_join.specs.Given.{is_met, marked};
ghost use Rattle.plan_join.specs.Rows.{matches_of};

use plan_core::Items;
use std::alloc::{AllocError, Global};

/// The rows of one side of a join that match each row of the other.
#[derive(Drop)]
pub struct Matches {
    /// Lists of rows that match, each from the first to the last.
    pub lists: Vec<Items<usize>>,
    /// For each row, from the first on, the place in `lists` of the list of those that match it; None where none does.
    pub numbers: Items<Option<usize>>,
    /// How many rows the side has from which those in `lists` are.
    pub others: usize,
}

impl Matches {
    /// The rows that match a row, from the first to the last.
    pub fn of(&self, row: usize) -> &[usize]
        requires { row < length self.now.numbers }
        ensures { result.now ≡ matches_of self.now row }
    {
        let Some(number) = self.numbers.as_slice()[row] else {
            return &[];
        };
        match self.lists.get(number) {
            Some(list) => list.as_slice(),
            None => &[],
        }
    }

    /// For each row of the other side, from the first on, whether it matches one.
    pub fn met(&self, alloc: Global) -> Result<Vec<bool>, AllocError>
        ensures { IfOk result (λ met. met.items ≡ map (is_met self.now (length self.now.numbers)) (range_with_len 0 self.now.others)) }
    {
        let mut met = no_marks(alloc, self.others)?;
        for row in 0..self.numbers.len() {
            mark(&mut met, self.of(row));
        }
        Ok(met)
    }
}

/// So many marks, none of them set.
fn no_marks(alloc: Global, count: usize) -> Result<Vec<bool>, AllocError>
    ensures { IfOk result (λ met. met.items ≡ replicate count false) }
{
    let mut met = Vec::new(alloc);
    for _ in 0..count {
        met.push(false)?;
    }
    Ok(met)
}

/// Sets the marks at these places.
fn mark(met: &mut Vec<bool>, places: &[usize])
    ensures { met.new.items ≡ marked met.old.items places.now }
{
    for place in places {
        if *place < met.len() {
            met[*place] = true;
        }
    }
}
