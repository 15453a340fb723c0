// Whether a scene's kind is that of an element type.
ghost use Rattle.std.specs.Prelude.{◌≡◌, ◌==◌};

use crate::element::Element;

// Kept: any number may be asked of, since other types of elements may have kinds of their own.
pub fn is_kind_of<E: Element>(kind: u8) -> bool
    ensures { result ≡ (kind == E.Element.algebra.kind) }
{
    kind == E::own_kind()
}
