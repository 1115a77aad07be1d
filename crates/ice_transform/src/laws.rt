//! Laws of transforms, on which the projection of filters stands.

ghost use Rattle.std.specs.Prelude.{◌≡◌, ◌≢◌, ◌≤◌, ◌<◌, ◌↔◌, ◌⊎◌, ℕ, List, Bool, true, false, None, Some, length, take};
ghost use Rattle.std.specs.Prelude.{nat_eq, encode_utf8_all};
ghost use Rattle.std.specs.List.{starts_with};
ghost use Rattle.std.specs.Str.{IsUtf8, chars};
ghost use Rattle.std.specs.declared.cmp.Ordering.TheVariants.{Equal};
ghost use Rattle.ice_value.specs.Bounds.{is_cell};
ghost use Rattle.ice_value.specs.Cells.{order, is_at_most};
ghost use Rattle.ice_value.specs.declared.cell.Cell.{Cell};
ghost use Rattle.ice_value.specs.declared.column_type.ColumnType.{ColumnType};
ghost use Rattle.ice_transform.specs.Cuts.{first_points, has_points};
ghost use Rattle.ice_transform.specs.Definitions.{IsValueOf};
ghost use Rattle.ice_transform.specs.Names.{IsNamed, IsOfText, name_of};
ghost use Rattle.ice_transform.specs.Values.{value_of, type_of, is_void, takes_any, is_rising};
ghost use Rattle.ice_transform.specs.declared.parameter.Parameter.{Parameter};
ghost use Rattle.ice_transform.specs.declared.transform.Transform.{Transform};

/// The value that `apply` gives is the one that the definition of the transform describes, and it gives none exactly
/// where there is no such value.
pub fn values_of_transforms()
    ensures { (f : Transform) (t : ColumnType) (c p : Cell) → IsValueOf f t c p ↔ (value_of f t c ≡ Some p) }
{}

/// A value of a cell of the source type is null or of the transform's result type, so there a transform that doesn't
/// take the source type has no other value. Of a cell that is neither null nor of the source type, identity and void
/// alone have a value.
pub fn typed_values()
    ensures of_source { (f : Transform) (t : ColumnType) (c p : Cell) → is_cell t c ≡ true → value_of f t c ≡ Some p
        → (p ≡ Cell.Null) ⊎ ((r : ColumnType) × (type_of f t ≡ Some r) × (is_cell r p ≡ true)) }
    ensures of_others { (f : Transform) (t : ColumnType) (c : Cell) → takes_any f ≡ false → is_cell t c ≡ false
        → c ≢ Cell.Null → value_of f t c ≡ None }
{}

/// What is written of a transform is read as that transform, what was read is written as the text that it was read
/// from, and a text names one transform.
pub fn texts_of_transforms()
    ensures read_back { (f : Transform) → IsOfText f → IsNamed f (name_of f) }
    ensures written_back { (f : Transform) (text : List ℕ) → IsNamed f text → name_of f ≡ text }
    ensures one { (f g : Transform) (text : List ℕ) → IsNamed f text → IsNamed g text → f ≡ g }
{}

/// Identity gives the cell itself.
pub fn identity_values()
    ensures { (t : ColumnType) (c : Cell) → value_of Transform.Identity t c ≡ Some c }
{}

/// Null has the value null, and but for void no other cell has.
pub fn null_values()
    ensures kept { (f : Transform) (t : ColumnType) → value_of f t Cell.Null ≡ Some Cell.Null }
    ensures alone { (f : Transform) (t : ColumnType) (c : Cell) → is_void f ≡ false
        → value_of f t c ≡ Some Cell.Null → c ≡ Cell.Null }
{}

/// Equal cells have equal values.
pub fn equal_cells()
    ensures { (f : Transform) (t : ColumnType) (a b : Cell) → order a b ≡ Some Equal
        → value_of f t a ≡ value_of f t b }
{}

/// Of each known transform but bucket and void, a smaller cell has no greater value.
pub fn rising_values()
    ensures { (f : Transform) (t : ColumnType) (a b p q : Cell) → is_rising f ≡ true
        → is_at_most a b ≡ true → value_of f t a ≡ Some p → value_of f t b ≡ Some q
        → is_at_most p q ≡ true }
{}

/// A text that starts with s is truncated as s is where s has as many code points as the width, and else to a text that
/// starts with s.
pub fn cut_texts()
    ensures whole { (width : ℕ) (text s : List ℕ) → starts_with nat_eq text s ≡ true
        → has_points width s ≡ true → first_points width text ≡ first_points width s }
    ensures short { (width : ℕ) (text s : List ℕ) → starts_with nat_eq text s ≡ true
        → has_points width s ≡ false → starts_with nat_eq (first_points width text) s ≡ true }

    // What the words mean of a text.
    ensures first { (width : ℕ) (text : List ℕ) → IsUtf8 text
        → first_points width text ≡ encode_utf8_all (take width (chars text)) }
    ensures has { (width : ℕ) (text : List ℕ) → IsUtf8 text
        → (has_points width text ≡ true) ↔ (width ≤ length (chars text)) }
{}
