ghost use Rattle.std.specs.Prelude.{◌≡◌, Ok, Err, length, min};
ghost use Rattle.std.specs.List.{list_all};
ghost use Rattle.cases.specs.Places.{held_in, written_in, put_in};

use crate::error::CallError;

fn is_blank<T: Copy + Eq>(place: &[T], blank: T) -> bool
    ensures { result ≡ list_all (λ x. T.eq x blank) place.now }
{
    place.iter().all(|x| *x == blank)
}

// Whether a place begins with a front and is blank behind it.
pub fn holds<T: Copy + Eq>(place: &[T], front: &[T], blank: T) -> bool
    ensures { result ≡ held_in T.eq front.now blank place.now }
{
    match place.strip_prefix(front) {
        Some(rest) => is_blank(rest, blank),
        None => false,
    }
}

// Puts a front into a place, as far as it goes in, and answers how far.
pub fn put<T: Copy>(place: &mut [T], front: &[T]) -> usize
    ensures place { place.new ≡ put_in front.now place.old }
    ensures length { result ≡ min (length front.now) (length place.old) }
{
    let length = front.len().min(place.len());
    place[..length].copy_from_slice(&front[..length]);
    length
}

// What a call wrote to the front of a place that was lent blank, if all behind it is blank yet.
pub fn written<T: Copy + Eq>(
    mut place: Vec<T>,
    length: usize,
    blank: T,
) -> Result<Vec<T>, CallError>
    ensures { elim result [ Ok v ↦ written_in T.eq length blank place.items ≡ Ok v.items | Err e ↦ written_in T.eq length blank place.items ≡ Err e ] }
{
    if length <= place.len() && is_blank(&place[length..], blank) {
        place.truncate(length);
        Ok(place)
    } else {
        Err(CallError::WrittenElsewhere)
    }
}
