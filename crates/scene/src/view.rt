// A view of the bytes of a scene that have been checked.
ghost use Rattle.std.specs.Prelude.{◌≡◌, ◌+◌, ◌≤◌, length, true};
ghost use Rattle.scene.specs.Layout.{end_at};
ghost use Rattle.scene.specs.Rules.{admits};

mod methods;

#[derive(Clone, Copy)]
pub struct SceneView<'a> {
    bytes: &'a [u8],
    ghost ok: { admits bytes.now ≡ true },
    // Follows from the rules. Said by itself, so that no reader need ask whether a byte is there.
    ghost long: { end_at bytes.now + 2 ≤ length bytes.now },
}
