ghost use Rattle.std.specs.Prelude.{◌≡◌};
ghost use Rattle.rings.specs.Arithmetic.{reading};
ghost use Rattle.rings.specs.Tables.{TableOf, table_of_prop, decoded};

use crate::field::Field;
use crate::ring::Ring;

// A field with its arithmetic as data, for a struct over any field F that keeps an invariant about F's arithmetic: `decoded` of the table is
// the field's arithmetic. A table is ghost: a tie takes no more memory than the field.
pub struct Tie<F: Field> {
    field: F,
    ghost table: { TableOf F.Ring.size (F.Ring.means field) (F.Field.inverse field) } by { table_of_prop F.Ring.size (F.Ring.means field) (F.Field.inverse field) },
}

impl<F: Field> Drop for Tie<F> {
    fn drop(self) {
        let Tie { field: _ } = self;
    }
}

impl<F: Field> Tie<F> {
    pub fn new(field: F) -> Tie<F>
        ensures arithmetic { decoded result.table.0 ≡ reading F.Ring.size (F.Ring.means field) (F.Field.inverse field) }
        ensures same { result.field ≡ field }
    {
        Tie { field }
    }

    // Runs nothing: a call brings the equation into the caller's proof.
    pub fn told(&self)
        ensures { decoded self.now.table.0 ≡ reading F.Ring.size (F.Ring.means self.now.field) (F.Field.inverse self.now.field) }
    {}

    pub fn field(&self) -> F
        ensures { result ≡ self.now.field }
    {
        self.field
    }
}
