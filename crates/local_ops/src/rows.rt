//! The rows of a tile that an operation makes of lent ones.
ghost use Rattle.std.specs.Prelude.{◌≡◌, ◌<◌, ◌≤◌, length, map, take, option_and_then};
ghost use Rattle.std.specs.List.{All};
ghost use Rattle.map_nums.specs.Exact.{IsExact};
ghost use Rattle.map_nums.specs.Grids.{cell_at, numbers_in};
ghost use Rattle.map_nums.specs.Stats.{statistic_of};
ghost use Rattle.map_defs.specs.Local.{all_numbers, of_numbers};
ghost use Rattle.layer_tiles.specs.Tiles.{block_row, tiles_in, tile_height, tile_width, IsBlockOf};
ghost use Rattle.tile_frame.specs.Frames.{IsRowAnswer};
ghost use Rattle.local_ops.specs.Operations.{op_of, Takes};
ghost use Rattle.local_ops.specs.Operands.{cell_by, HaveSize};

use crate::ops::LocalOp;
use crate::pairs::Pairing;
use crate::values::value_of;
use layer_tiles::{Cell, Extent, KernelRefusal, Tile, TileView, Value};
use map_nums::{Stat, Wide, statistic_in};
use tile_frame::{RowMaker, make_row};

/// An operation on two values, and a row of each of two operands.
#[derive(Drop)]
struct RowOfTwo<'a, P> {
    pairing: &'a P,
    left: &'a [Cell],
    right: &'a [Cell],
}

impl<'a, P: Pairing> RowMaker for RowOfTwo<'a, P> {
    ghost use Rattle.std.specs.Prelude.{◌<◌, [], ◌∷◌, length};
    ghost use Rattle.map_nums.specs.Grids.{cell_at};
    ghost use Rattle.map_defs.specs.Local.{local_cell};

    ghost value = { λ m c. local_cell (P.op m.pairing.now) (cell_at m.left.now c ∷ cell_at m.right.now c ∷ []) };

    ghost has = { λ m c. (c < length m.left.now) × (c < length m.right.now) };

    fn value_at(&self, c: u32) -> Result<Option<Value>, Wide> {
        self.pairing
            .of(self.left[c as usize], self.right[c as usize])
    }
}

/// An operation that is null where one operand is, and a row of each of its operands.
#[derive(Drop)]
struct RowOfAll<'a, 'b> {
    op: &'a LocalOp,
    rows: &'a [&'b [Cell]],
}

impl<'a, 'b> RowMaker for RowOfAll<'a, 'b> {
    ghost use Rattle.std.specs.Prelude.{◌<◌, length, map, option_and_then};
    ghost use Rattle.std.specs.List.{All};
    ghost use Rattle.map_nums.specs.Grids.{cell_at};
    ghost use Rattle.map_defs.specs.Local.{all_numbers, of_numbers};
    ghost use Rattle.local_ops.specs.Operations.{op_of, Takes};

    ghost value = { λ m c. option_and_then (of_numbers (op_of m.op.now)) (all_numbers (map (λ row. cell_at row.now c) m.rows.now)) };

    ghost has = { λ m c. Takes (op_of m.op.now) (length m.rows.now) × All (λ row. c < length row.now) m.rows.now };

    fn value_at(&self, c: u32) -> Result<Option<Value>, Wide> {
        value_of_column(self.op, self.rows, c)
    }
}

/// A statistic of the values that are there, and a row of each of its operands.
#[derive(Drop)]
struct RowOfPresent<'a, 'b> {
    stat: Stat,
    rows: &'a [&'b [Cell]],
}

impl<'a, 'b> RowMaker for RowOfPresent<'a, 'b> {
    ghost use Rattle.std.specs.Prelude.{◌<◌, ◌≤◌, length, map};
    ghost use Rattle.std.specs.List.{All};
    ghost use Rattle.map_nums.specs.Grids.{cell_at, numbers_in};
    ghost use Rattle.map_nums.specs.Stats.{statistic_of};

    ghost value = { λ m c. statistic_of m.stat (numbers_in (map (λ row. cell_at row.now c) m.rows.now)) };

    ghost has = { λ m c. (length m.rows.now ≤ 8) × All (λ row. c < length row.now) m.rows.now };

    fn value_at(&self, c: u32) -> Result<Option<Value>, Wide> {
        statistic_of_column(self.stat, self.rows, c)
    }
}

/// A row of a tile of two operands.
pub fn row_of_two<P: Pairing>(
    pairing: &P,
    views: &[TileView<'_>],
    extent: Extent,
    tile: u32,
    r: u32,
    made: &mut Tile,
) -> Result<(), KernelRefusal>
    requires two { length views.now ≡ 2 }
    requires within { tile < tiles_in extent }
    requires sizes { HaveSize (tile_height extent tile) (tile_width extent tile) views.now }
    requires row { r < tile_height extent tile }
    requires size { IsBlockOf extent tile made.old }
    ensures { IsRowAnswer (cell_by (P.op pairing.now) views.now r) extent tile r made.old made.new result }
{
    let left = views[0].row(r);
    let right = views[1].row(r);
    let maker = RowOfTwo {
        pairing,
        left,
        right,
    };
    make_row(&maker, extent, tile, r, made)
}

/// A row of a tile of any operands.
pub fn row_of_any(
    op: &LocalOp,
    views: &[TileView<'_>],
    extent: Extent,
    tile: u32,
    r: u32,
    made: &mut Tile,
) -> Result<(), KernelRefusal>
    requires takes { Takes (op_of op.now) (length views.now) }
    requires within { tile < tiles_in extent }
    requires sizes { HaveSize (tile_height extent tile) (tile_width extent tile) views.now }
    requires row { r < tile_height extent tile }
    requires size { IsBlockOf extent tile made.old }
    ensures { IsRowAnswer (cell_by (op_of op.now) views.now r) extent tile r made.old made.new result }
{
    let all = rows_of(views, r);
    let rows = &all[..views.len()];
    match op {
        LocalOp::Ignoring(stat) => {
            make_row(&RowOfPresent { stat: *stat, rows }, extent, tile, r, made)
        }
        _ => make_row(&RowOfAll { op, rows }, extent, tile, r, made),
    }
}

/// Row `r` of each operand, then empty ones.
fn rows_of<'a, 'b>(views: &'a [TileView<'b>], r: u32) -> [&'a [Cell]; 8]
    requires most { length views.now ≤ 8 }
    requires within { All (λ b. r < b.height) views.now }
    ensures rows { map (λ row. row.now) (take (length views.now) result) ≡ map (λ b. block_row b r) views.now }
    ensures widths { map (λ row. length row.now) (take (length views.now) result) ≡ map (λ b. b.width) views.now }
{
    let mut rows: [&'a [Cell]; 8] = [&[]; 8];
    for (k, view) in views.iter().enumerate() {
        rows[k] = view.row(r);
    }
    rows
}

/// The operation's value in column `c` of rows, null where an operand is null there.
fn value_of_column(op: &LocalOp, rows: &[&[Cell]], c: u32) -> Result<Option<Value>, Wide>
    requires takes { Takes (op_of op.now) (length rows.now) }
    requires within { All (λ row. c < length row.now) rows.now }
    ensures { IsExact (option_and_then (of_numbers (op_of op.now)) (all_numbers (map (λ row. cell_at row.now c) rows.now))) result }
{
    let mut values = [0; 8];
    for (k, row) in rows.iter().enumerate() {
        match row[c as usize].get() {
            Some(value) => values[k] = value,
            None => return Ok(None),
        }
    }
    value_of(op, &mut values[..rows.len()])
}

/// The statistic of the values in column `c` of rows: nulls are passed over.
fn statistic_of_column(stat: Stat, rows: &[&[Cell]], c: u32) -> Result<Option<Value>, Wide>
    requires most { length rows.now ≤ 8 }
    requires within { All (λ row. c < length row.now) rows.now }
    ensures { IsExact (statistic_of stat (numbers_in (map (λ row. cell_at row.now c) rows.now))) result }
{
    let mut values = [0; 8];
    let mut count = 0;
    for row in rows {
        let Some(value) = row[c as usize].get() else {
            continue;
        };
        values[count] = value;
        count += 1;
    }
    statistic_in(stat, &mut values[..count])
}
