//! What the kinds of joins give: pairs of rows that match, and rows of either side alone.
ghost use Rattle.std.specs.Prelude.{◌≡◌};
ghost use Rattle.plan_join.specs.Given.{gives_alone as is_given_alone};
ghost use Rattle.plan_join.specs.Pairs.{gives_left as is_left_given, gives_pairs as are_pairs_given, gives_right as is_right_given};
ghost use Rattle.plan_join.specs.Rows.{goes_right as is_by_right};

use plan_options::{JoinType, MaintainOrderJoin};

/// Whether a join gives the rows that match as pairs.
pub fn gives_pairs(how: JoinType) -> bool
    ensures { result ≡ are_pairs_given how }
{
    !matches!(how, JoinType::Semi | JoinType::Anti)
}

/// Whether a join gives a left row alone, by whether a right row matches it.
fn gives_left(how: JoinType, matched: bool) -> bool
    ensures { result ≡ is_left_given how matched }
{
    match how {
        JoinType::Left | JoinType::Full | JoinType::Anti => !matched,
        JoinType::Semi => matched,
        _ => false,
    }
}

/// Whether a join gives a right row alone, by whether it matches a left row.
fn gives_right(how: JoinType, matched: bool) -> bool
    ensures { result ≡ is_right_given how matched }
{
    matches!(how, JoinType::Right | JoinType::Full) && !matched
}

/// Whether a join gives a row of a side alone, of the right one or of the left, by whether a row of the other matches it.
pub fn gives_alone(of_right: bool, how: JoinType, matched: bool) -> bool
    ensures { result ≡ is_given_alone of_right how matched }
{
    if of_right {
        gives_right(how, matched)
    } else {
        gives_left(how, matched)
    }
}

/// Whether a join goes through its right rows, and matches left ones with them; else it goes through its left rows. It goes
/// through the right ones where it gives pairs and is asked for them by their right rows first.
pub fn goes_right(how: JoinType, order: MaintainOrderJoin) -> bool
    ensures { result ≡ is_by_right how order }
{
    match order {
        MaintainOrderJoin::Right | MaintainOrderJoin::RightLeft => gives_pairs(how),
        _ => false,
    }
}
