//! The one table of a list that has no other.
ghost use Rattle.std.specs.Prelude.{◌≡◌, [], ◌∷◌, length};

use plan_table::Table;

/// The only table.
pub fn only(tables: Vec<Table>) -> Table
    requires { length tables.items ≡ 1 }
    ensures { tables.items ≡ result ∷ [] }
{
    let mut tables = tables;
    match tables.pop() {
        Some(table) => table,
        None => unreachable!(),
    }
}
