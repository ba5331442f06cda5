ghost use Rattle.std.specs.Prelude.{◌≡◌, ℕ, ◌<◌, List};
ghost use Rattle.rings.specs.Powers.{power, place, product_by_places, inverse_by_places};

// A list of 255 powers, read by place, and the place of each code in it.
pub trait Powers: Copy {
    ghost powers: { Self → List ℕ };

    fn power_at(self, i: usize) -> u8
        requires { i < 255 }
        ensures { result ≡ power (powers self) i };

    fn place_of(self, a: usize) -> u8
        requires { a < 256 }
        ensures { result ≡ place (powers self) a };
}

pub fn product_by_places<P: Powers>(table: P, a: u32, b: u32) -> u32
    requires a_bound { a < 256 }
    requires b_bound { b < 256 }
    ensures { result ≡ product_by_places (P.powers table) a b }
{
    if a == 0 || b == 0 {
        return 0;
    }
    let sum = table.place_of(a as usize) as usize + table.place_of(b as usize) as usize;
    table.power_at(sum % 255) as u32
}

pub fn inverse_by_places<P: Powers>(table: P, a: u32) -> Option<u32>
    requires { a < 256 }
    ensures { result ≡ inverse_by_places (P.powers table) a }
{
    if a == 0 {
        return None;
    }
    let rest = 255 - table.place_of(a as usize) as usize;
    Some(table.power_at(rest % 255) as u32)
}
