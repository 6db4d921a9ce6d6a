// The program record.
ghost use Rattle.layout.specs.Tables.{whole};
ghost use Rattle.std.specs.Prelude.{◌≡◌, true};

use layout::Table;

// A program. Every one that exists is one whole tree: each used place is reached from the head just once.
#[derive(Clone, Copy)]
pub struct Program {
    pub(crate) table: Table,
    ghost whole: { whole table ≡ true },
}
