// Checks the records of a scene in file order.
ghost use Rattle.std.specs.Prelude.{◌≡◌, ◌+◌, ◌^◌, ◌<◌, ◌≤◌, length, true, is_ok, Decides, Ok, Err};
ghost use Rattle.std.specs.List.{range_with_len, flat_map};
ghost use Rattle.scene.specs.declared.fault.RecordFault.TheVariants.{Header};
ghost use Rattle.scene.specs.Layout.{number_at, end_at};
ghost use Rattle.scene.specs.Written.{Written, ReadsBack};
ghost use Rattle.scene.specs.Rules.{verdict, head_of, header_rules, end_rules, cell_record, body_rules};
ghost use Rattle.scene.specs.Rules.{scene_rules, broken, admits};

use crate::bytes::{byte_at, is_marked, number_at};
use crate::cell::check_cell;
use crate::fault::{Broken, RecordFault, SceneFault};
use crate::head::{CORNERS, Head};
use crate::loops::first_fault;
use crate::marks;
use crate::record::cell_place;
use element::kind::Kind;

// How many vertices or cells there are.
fn read_count(bytes: &[u8], at: usize) -> Result<u16, RecordFault>
    requires { at + 1 < length bytes.now }
    ensures { elim result [
      | Ok count ↦ (count ≡ number_at bytes.now at) × (count ≤ 1024)
      | Err fault ↦ (fault ≡ Header at) × (1024 < number_at bytes.now at)
    ] }
{
    let count = number_at(bytes, at);
    if count > 1024 {
        return Err(RecordFault::Header { place: at });
    }
    Ok(count)
}

// What the header says, or the first fault in it.
fn read_header(bytes: &[u8]) -> Result<Head, RecordFault>
    ensures { elim result [
      | Ok head ↦ (head ≡ head_of bytes.now) × (Ok tt ≡ verdict (header_rules bytes.now))
      | Err fault ↦ Err fault ≡ verdict (header_rules bytes.now)
    ] }
{
    if bytes.len() < 10 {
        return Err(RecordFault::Short { place: 0 });
    }
    if !is_marked(bytes, 0, marks::HEADER) {
        return Err(RecordFault::Mark { place: 0 });
    }
    if byte_at(bytes, 2) != 1 {
        return Err(RecordFault::Header { place: 2 });
    }
    let Ok(kind) = Kind::try_from(byte_at(bytes, 3)) else {
        return Err(RecordFault::Header { place: 3 });
    };
    let boards = byte_at(bytes, 4);
    if boards < 1 || boards > 8 {
        return Err(RecordFault::Header { place: 4 });
    }
    if byte_at(bytes, 5) > 4 {
        return Err(RecordFault::Header { place: 5 });
    }
    let vertices = read_count(bytes, 6)?;
    let cells = read_count(bytes, 8)?;
    Ok(Head {
        corners: CORNERS,
        used: kind.used(),
        boards,
        vertices,
        cells,
    })
}

// The end, which nothing follows.
fn check_end(bytes: &[u8], at: usize) -> Result<(), RecordFault>
    requires { at < 2 ^ 31 }
    ensures { result ≡ verdict (end_rules bytes.now at) }
{
    if bytes.len() < at + 2 {
        return Err(RecordFault::Short { place: at });
    }
    if !is_marked(bytes, at, marks::END) {
        return Err(RecordFault::Mark { place: at });
    }
    if bytes.len() > at + 2 {
        return Err(RecordFault::Trailing { place: at + 2 });
    }
    Ok(())
}

// What the reader of a record found, with the record's number.
fn in_record<T>(number: usize, found: Result<T, RecordFault>) -> Result<T, Broken>
    ensures { result ≡ broken number found }
{
    found.map_err(|fault| Broken { number, fault })
}

// The record of cell number n.
fn check_record(bytes: &[u8], head: Head, n: u16) -> Result<(), SceneFault>
    ensures { result ≡ verdict (cell_record head bytes.now n) }
{
    in_record(usize::from(n) + 1, check_cell(bytes, head, n))?;
    Ok(())
}

fn check_cells(bytes: &[u8], head: Head) -> Result<(), SceneFault>
    ensures { result ≡ verdict (flat_map (cell_record head bytes.now) (range_with_len 0 head.cells)) }
{
    first_fault(0..head.cells, |n| check_record(bytes, head, n))
}

// The records behind the header.
fn check_body(bytes: &[u8], head: Head) -> Result<(), SceneFault>
    ensures { result ≡ verdict (body_rules head bytes.now) }
{
    check_cells(bytes, head)?;
    let at = cell_place(head.corners, head.cells);
    in_record(usize::from(head.cells) + 1, check_end(bytes, at))?;
    Ok(())
}

fn check_records(bytes: &[u8]) -> Result<(), SceneFault>
    ensures { result ≡ verdict (scene_rules bytes.now) }
{
    let head = in_record(0, read_header(bytes))?;
    check_body(bytes, head)
}

// Whether bytes are a scene, or else the first rule that they break. A scene's bytes reach to its end.
pub(crate) fn check(bytes: &[u8]) -> Result<(), SceneFault>
    ensures answer { result ≡ verdict (scene_rules bytes.now) }
    ensures exact { admits bytes.now ≡ is_ok result }
    ensures meaning { Decides (is_ok result) (Written bytes.now) }
    ensures back { ReadsBack bytes.now }
    ensures long { is_ok result ≡ true → end_at bytes.now + 2 ≤ length bytes.now }
{
    check_records(bytes)
}
