//! The pairs of rows that a join gives, from the rows that match.
ghost use Rattle.std.specs.Prelude.{◌≡◌, ◌++◌, ℕ, length, IfOk, OnOk};
ghost use Rattle.plan_join.specs.Given.{as_pair, others_given, pairs_with, row_given};
ghost use Rattle.plan_join.specs.Orders.{own_order, ArePicked};
ghost use Rattle.plan_join.specs.Pairs.{Test};
ghost use Rattle.plan_join.specs.Rows.{goes_right as is_by_right, AreJoined};

use crate::kinds::{gives_alone, gives_pairs, goes_right};
use crate::matches::Matches;
use plan_core::Items;
use plan_options::{JoinType, MaintainOrderJoin};
use std::alloc::{AllocError, Global};

/// A pair of rows, by their places in their sides, from 0 on. A side may be absent.
#[derive(Clone, Copy, PartialEq, Eq, Hash, Debug)]
pub struct RowPair {
    /// The left row; None where the right one stands alone.
    pub left: Option<usize>,
    /// The right row; None where the left one stands alone.
    pub right: Option<usize>,
}

/// A pair, by its row of the side that is gone through, which is the right one or the left, and its row of the other.
fn pair(by_right: bool, row: Option<usize>, other: Option<usize>) -> RowPair
    ensures { result ≡ as_pair by_right row other }
{
    if by_right {
        RowPair {
            left: other,
            right: row,
        }
    } else {
        RowPair {
            left: row,
            right: other,
        }
    }
}

/// Adds the pairs of a row with those that match it, where the join gives pairs.
fn add_pairs(
    pairs: &mut Items<RowPair>,
    by_right: bool,
    row: usize,
    others: &[usize],
) -> Result<(), AllocError>
    ensures { OnOk result (pairs.new ≡ pairs.old ++ pairs_with by_right row others.now) }
{
    for other in others {
        pairs.push(pair(by_right, Some(row), Some(*other)))?;
    }
    Ok(())
}

/// Adds what the join gives of a row of the side that is gone through: its pairs with those that match it, or it alone.
fn add_row(
    pairs: &mut Items<RowPair>,
    by_right: bool,
    how: JoinType,
    row: usize,
    others: &[usize],
) -> Result<(), AllocError>
    ensures { OnOk result (pairs.new ≡ pairs.old ++ row_given by_right how row others.now) }
{
    if gives_pairs(how) {
        add_pairs(pairs, by_right, row, others)?;
    }
    if gives_alone(by_right, how, !others.is_empty()) {
        pairs.push(pair(by_right, Some(row), None))?;
    }
    Ok(())
}

/// Adds the rows of the other side that the join gives alone.
fn add_others(
    alloc: Global,
    pairs: &mut Items<RowPair>,
    by_right: bool,
    how: JoinType,
    matches: &Matches,
) -> Result<(), AllocError>
    ensures { OnOk result (pairs.new ≡ pairs.old ++ others_given by_right how matches.now) }
{
    if !gives_alone(!by_right, how, false) && !gives_alone(!by_right, how, true) {
        return Ok(());
    }
    let met = matches.met(alloc)?;
    for (other, is_met) in met.iter().enumerate() {
        if gives_alone(!by_right, how, *is_met) {
            pairs.push(pair(by_right, None, Some(other)))?;
        }
    }
    Ok(())
}

/// The pairs that a join gives: rows that match, and rows of one side alone, as its kind says. They stand by their left rows
/// and then by their right ones; by their right rows first where the order that is asked speaks of these first. Absent rows
/// come last. The rows that match are those of the left side where the join goes through its right rows (`goes_right`), else
/// those of the right side. The time is that of the rows that are gone through and of the rows that match these. Refuses for
/// want of memory alone.
pub fn row_pairs(
    alloc: Global,
    how: JoinType,
    order: MaintainOrderJoin,
    matches: &Matches,
) -> Result<Items<RowPair>, AllocError>
    ensures { IfOk result (λ ps. (test : Test) (h k : ℕ) → AreJoined (is_by_right how order) test h k matches.now → ArePicked how (own_order order) test h k ps) }
{
    let by_right = goes_right(how, order);
    let mut pairs = Items::new(alloc);
    for row in 0..matches.numbers.len() {
        add_row(&mut pairs, by_right, how, row, matches.of(row))?;
    }
    add_others(alloc, &mut pairs, by_right, how, matches)?;
    Ok(pairs)
}
