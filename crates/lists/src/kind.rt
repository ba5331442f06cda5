ghost use Rattle.std.specs.Prelude.{◌≡◌};
ghost use Rattle.lists.specs.Kinds.{kind_of};

// The kind of a line.
#[derive(Clone, Copy, PartialEq, Eq, Debug)]
pub(crate) enum Kind {
    Start,
    Matrix,
    End,
}

pub(crate) fn kind_of(field: &[u8]) -> Option<Kind>
    ensures { result ≡ kind_of field.now }
{
    match field {
        b"S" => Some(Kind::Start),
        b"M" => Some(Kind::Matrix),
        b"E" => Some(Kind::End),
        _ => None,
    }
}
