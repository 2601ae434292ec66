// What differs in two lists of one length, counted and then listed.
ghost use Rattle.std.specs.Prelude.{ℕ, map, ◌≡◌, cond, [], ◌∷◌, ◌+◌, ◌*◌, ◌≤◌, eqb, length};
ghost use Rattle.std.proofs.lemmas.List.Edits.{sets};
ghost use Rattle.entries.specs.Listed.{differences_from, numbers_of};

/// A number of a list: a byte, or a register's value.
pub trait Number: Copy {
    ghost value: { Self → ℕ };

    fn value(self) -> usize
        ensures { result ≡ value self };
}

impl Number for u8 {
    ghost value = { λ n. n };

    fn value(self) -> usize {
        usize::from(self)
    }
}

impl Number for usize {
    ghost value = { λ n. n };

    fn value(self) -> usize {
        self
    }
}

// kept: a function that docs/PROMISES.md names
/// 0 of two numbers that are equal, 1 of others.
pub fn differ(one: usize, two: usize) -> usize
    ensures value { result ≡ cond (eqb one two) 0 1 }
    ensures upper_bound { result ≤ 1 }
{
    if one == two { 0 } else { 1 }
}

// How many places of two lists differ.
pub(crate) fn count_apart<T: Number>(one: &[T], two: &[T]) -> usize
    requires { length one.now ≡ length two.now }
    ensures { result ≡ length (differences_from 0 (map T.value one.now) (map T.value two.now)) }
{
    let mut count: usize = 0;
    // by index, here and below: an entry has the place, and the step of a `zip` has no index that the invariant could name
    for (i, x) in one.iter().enumerate() {
        count += differ(x.value(), two[i].value());
    }
    count
}

// Three numbers from a place on, and not at the start of `&mut list[at..]`: the contracts speak of the whole list, its rest as it was.
fn put_entry(list: &mut [usize], at: usize, place: usize, one: usize, two: usize)
    requires { at + 3 ≤ length list.old }
    ensures { list.new ≡ sets list.old at (place ∷ one ∷ two ∷ []) }
{
    list[at..at + 3].copy_from_slice(&[place, one, two]);
}

// An entry for each place where two lists differ, from a place of `list` on.
pub(crate) fn list_apart<T: Number>(one: &[T], two: &[T], list: &mut [usize], from: usize)
    requires one_len { length one.now ≡ length two.now }
    requires two_in_bounds { from + 3 * length (differences_from 0 (map T.value one.now) (map T.value two.now)) ≤ length list.old }
    ensures { list.new ≡ sets list.old from (numbers_of (differences_from 0 (map T.value one.now) (map T.value two.now))) }
{
    let mut at = from;
    for (place, first) in one.iter().enumerate() {
        let x = first.value();
        let y = two[place].value();
        if x != y {
            put_entry(list, at, place, x, y);
            at += 3;
        }
    }
}
