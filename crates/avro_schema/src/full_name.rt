//! Full names, without a copy of their texts.

ghost use Rattle.std.specs.Prelude.{◌≡◌, ◌<◌, ◌≤◌, Some, refl, length, drop, get_or};
ghost use Rattle.std.specs.Ordering.{is_eq, nat_cmp};
ghost use Rattle.std.specs.Cmp.{eq_by_cmp_equiv, on_equiv, on_per, on_po, on_total, partial_equiv_from_equiv};
ghost use Rattle.std.specs.Cmp.{partial_order_from_total};
ghost use Rattle.std.specs.Cmp.Lexicographic.{slice_cmp};
ghost use Rattle.avro_schema.specs.Joined.{joined};
ghost use Rattle.avro_schema.specs.Names.{last_of, name_order, names_total};

use std::cmp::Ordering;

/// A full name, which borrows both its parts: many names may stand in one long namespace.
#[derive(Clone, Copy)]
pub struct FullName<'a> {
    /// The namespace; an empty one is none.
    pub space: &'a [u8],
    /// The name in the namespace; a name with dots is full, and stands here whole.
    pub name: &'a [u8],
}

/// How many bytes a full name has.
fn length_of(name: &FullName) -> usize
    ensures { result ≡ length (joined name.now) }
{
    if name.space.is_empty() {
        name.name.len()
    } else {
        name.space.len() + 1 + name.name.len()
    }
}

/// A byte of a full name.
fn byte_at(name: &FullName, index: usize) -> u8
    requires { index < length (joined name.now) }
    ensures { result ≡ get_or (joined name.now) index 0 }
{
    let end = name.space.len();
    if end == 0 {
        name.name[index]
    } else if index < end {
        name.space[index]
    } else if index == end {
        b'.'
    } else {
        name.name[index - end - 1]
    }
}

/// The order of what two full names have from a place on.
fn order_from(left: &FullName, right: &FullName, start: usize) -> Ordering
    requires { (start ≤ length (joined left.now)) × (start ≤ length (joined right.now)) }
    ensures { result ≡ slice_cmp nat_cmp (drop start (joined left.now)) (drop start (joined right.now)) }
{
    let (first, second) = (length_of(left), length_of(right));
    let both = first.min(second);
    'bytes: for index in start..both {
        let found = byte_at(left, index).cmp(&byte_at(right, index));
        if found.is_ne() {
            return found;
        }
    }
    first.cmp(&second)
}

/// The text behind the last dot.
fn last_in(name: &[u8]) -> &[u8]
    ensures { result.now ≡ last_of name.now }
{
    let mut start = name.len();
    'bytes: while start > 0 {
        if name[start - 1] == b'.' {
            return &name[start..];
        }
        start -= 1;
    }
    name
}

/// The order of two slices. Blocks that both have are passed over at once.
fn order_of_slices(left: &[u8], right: &[u8]) -> Ordering
    ensures { result ≡ slice_cmp nat_cmp left.now right.now }
{
    let (mut first, mut second) = (left, right);
    'blocks: while first.len() >= 1024
        && second.len() >= 1024
        && &first[..1024] == &second[..1024]
    {
        first = &first[1024..];
        second = &second[1024..];
    }
    first.cmp(&second)
}

/// The order of two full names as texts: the fronts of their namespaces as slices, the rest byte by byte.
fn order_of_texts<'a>(left: &FullName<'a>, right: &FullName<'a>) -> Ordering
    ensures { result ≡ slice_cmp nat_cmp (joined left.now) (joined right.now) }
{
    let both = left.space.len().min(right.space.len());
    let (front, other) = (&left.space[..both], &right.space[..both]);
    let found = order_of_slices(front, other);
    if found.is_ne() {
        return found;
    }
    order_from(left, right, both)
}

/// The order of two full names: by their last parts, so that the names in a long namespace are soon told apart, and
/// then as texts.
fn order<'a>(left: &FullName<'a>, right: &FullName<'a>) -> Ordering
    ensures { result ≡ name_order (joined left.now) (joined right.now) }
{
    let (last, other) = (last_in(left.name), last_in(right.name));
    let found = last.cmp(&other);
    if found.is_ne() {
        return found;
    }
    order_of_texts(left, right)
}

impl<'a> PartialEq for FullName<'a> {
    ghost eq = { λ x y. is_eq (name_order (joined x) (joined y)) };

    ghost laws = { on_per joined (partial_equiv_from_equiv (eq_by_cmp_equiv names_total)) };

    fn eq(&self, other: &FullName<'a>) -> bool {
        order(self, other).is_eq()
    }
}

impl<'a> Eq for FullName<'a> {
    ghost laws = { on_equiv joined (eq_by_cmp_equiv names_total) };
}

impl<'a> PartialOrd for FullName<'a> {
    ghost partial_cmp = { λ x y. Some (name_order (joined x) (joined y)) };

    ghost laws = { on_po joined (partial_order_from_total names_total) };

    fn partial_cmp(&self, other: &FullName<'a>) -> Option<Ordering> {
        Some(order(self, other))
    }
}

impl<'a> Ord for FullName<'a> {
    ghost cmp = { λ x y. name_order (joined x) (joined y) };

    ghost total = { on_total joined names_total };

    ghost matches_partial_cmp = { λ x y. refl };

    ghost matches_eq = { λ x y. refl };

    fn cmp(&self, other: &FullName<'a>) -> Ordering {
        order(self, other)
    }
}
