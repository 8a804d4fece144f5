// The two editions.
ghost use Rattle.std.specs.Prelude.{◌≡◌};

use chains::Links;
use table::Tables;

// Which of the two a table is.
#[derive(Clone, Copy, Debug, PartialEq, Eq)]
pub enum Edition {
    Left,
    Right,
}

// An edition's tables, with its rows linked.
#[derive(Clone, Copy)]
pub struct Side<'t, 's> {
    pub edition: Edition,
    pub tables: Tables<'t, 's>,
    pub links: Links<'t>,
    ghost counted: { links.count ≡ tables.row_count },
}
