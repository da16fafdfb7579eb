// Primitive types by their codes: 0 Int, 1 Float, 2 Number.
ghost use Rattle.lang_ty.specs.Shapes.{Subtype};

// PrimitiveTy::is_subtype_of
pub fn is_subtype_of(a: u32, b: u32) -> bool
    ensures { Subtype a b result }
{
    b == 2 && a < 2
}
