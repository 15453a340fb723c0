// What a view says of its scene.
ghost use Rattle.std.specs.Prelude.{◌≡◌, [], ◌∷◌, length, is_ok, Some, None, Ok, Err, Decides};
ghost use Rattle.element.specs.Kinds.{kind_number};
ghost use Rattle.scene.specs.Layout.{number_at, corners_of, start_of};
ghost use Rattle.scene.specs.Views.{viewed, smallest_scene};
ghost use Rattle.scene.specs.Written.{Written, ReadsBack};
ghost use Rattle.scene.specs.Rules.{verdict, scene_rules, admits};
ghost use Rattle.scene.specs.Read.{board_of, corner_of, part_of};

use super::SceneView;
use crate::bytes::{byte_at, number_at};
use crate::check::check;
use crate::fault::SceneFault;
use crate::head::CORNERS;
use crate::record::CellRecord;
use element::kind::Kind;
use element::words::Words;

impl<'a> SceneView<'a> {
    // One board, kind 1, no overlap, no vertices and no cells.
    pub fn new() -> SceneView<'a>
        ensures scene { viewed result ≡ smallest_scene }
        ensures raw { result.bytes.now ≡ 0x53 ∷ 0x43 ∷ 1 ∷ 1 ∷ 1 ∷ 0 ∷ 0 ∷ 0 ∷ 0 ∷ 0 ∷ 0x45 ∷ 0x4E ∷ [] }
    {
        SceneView {
            bytes: b"\x53\x43\x01\x01\x01\x00\x00\x00\x00\x00\x45\x4E",
        }
    }

    // Becomes a view of `bytes`, or answers the first rule that they break and keeps what it viewed.
    pub fn take(&mut self, bytes: &'a [u8]) -> Result<(), SceneFault>
        ensures answer { result ≡ verdict (scene_rules bytes.now) }
        ensures exact { admits bytes.now ≡ is_ok result }
        ensures meaning { Decides (is_ok result) (Written bytes.now) }
        ensures back { ReadsBack bytes.now }
        ensures after { elim result [
          | Ok _ ↦ self.new.bytes ≡ bytes.entry
          | Err _ ↦ self.new ≡ self.old
        ] }
    {
        check(bytes)?;
        *self = SceneView { bytes };
        Ok(())
    }

    pub fn kind(&self) -> Kind
        ensures { kind_number result ≡ (viewed self.now).kind }
    {
        let Ok(kind) = Kind::try_from(byte_at(self.bytes, 3)) else {
            unreachable!()
        };
        kind
    }

    pub fn boards(&self) -> usize
        ensures { result ≡ (viewed self.now).boards }
    {
        usize::from(byte_at(self.bytes, 4))
    }

    pub fn overlap(&self) -> usize
        ensures { result ≡ (viewed self.now).overlap }
    {
        usize::from(byte_at(self.bytes, 5))
    }

    pub fn vertices(&self) -> usize
        ensures { result ≡ (viewed self.now).vertices }
    {
        usize::from(number_at(self.bytes, 6))
    }

    // How many cells the header counts.
    fn count(&self) -> u16
        ensures { result ≡ number_at self.now.bytes.now 8 }
    {
        number_at(self.bytes, 8)
    }

    pub fn cells(&self) -> usize
        ensures { result ≡ length (viewed self.now).cells }
    {
        usize::from(self.count())
    }

    // Corners a cell.
    pub fn corners(&self) -> usize
        ensures { result ≡ corners_of self.now.bytes.now }
    {
        usize::from(CORNERS)
    }

    // The record of cell number c, if there is such a cell.
    fn cell(&self, c: usize) -> Option<CellRecord<'a>>
        ensures { elim result [
          | Some cell ↦ (cell.bytes.now ≡ self.now.bytes.now)
              × (Some cell.at ≡ start_of self.now.bytes.now c)
              × (cell.corners ≡ corners_of self.now.bytes.now)
          | None ↦ None ≡ start_of self.now.bytes.now c
        ] }
    {
        if c < usize::from(self.count()) {
            Some(CellRecord::new(self.bytes, CORNERS, c as u16))
        } else {
            None
        }
    }

    // The board that owns cell number c.
    pub fn cell_board(&self, c: usize) -> Option<usize>
        ensures { result ≡ board_of (viewed self.now) c }
    {
        let cell = self.cell(c)?;
        Some(usize::from(cell.board()))
    }

    // The vertex at corner number k of cell number c.
    pub fn corner(&self, c: usize, k: usize) -> Option<usize>
        ensures { result ≡ corner_of (viewed self.now) c k }
    {
        let cell = self.cell(c)?;
        if k < self.corners() {
            Some(usize::from(cell.corner(k as u16)))
        } else {
            None
        }
    }

    // What cell number c contributes at its corner number k.
    pub fn contribution(&self, c: usize, k: usize) -> Option<Words>
        ensures { result ≡ part_of (viewed self.now) c k }
    {
        let cell = self.cell(c)?;
        if k < self.corners() {
            Some(cell.part(k as u16))
        } else {
            None
        }
    }
}
