//! Worked examples of the map machine: each function's contract states what the definitions make of lines, words and whole
//! runs, and the check computes it. Other programs gave the values.
#![tactic(auto)]

ghost use Rattle.map_examples.specs.BranchRows.{BranchRows};
ghost use Rattle.map_examples.specs.CutRows.{CutRows};
ghost use Rattle.map_examples.specs.DisplayRows.{DisplayRows};
ghost use Rattle.map_examples.specs.LimitRows.{LimitRows};
ghost use Rattle.map_examples.specs.LineRows.{LineRows};
ghost use Rattle.map_examples.specs.LoadRows.{LoadRows};
ghost use Rattle.map_examples.specs.OperationRows.{OperationRows};
ghost use Rattle.map_examples.specs.ReadRows.{ReadRows};
ghost use Rattle.map_examples.specs.RepairRows.{RepairRows};
ghost use Rattle.map_examples.specs.SampleRows.{SampleRows};
ghost use Rattle.map_examples.specs.TileRows.{TileRows};
ghost use Rattle.map_examples.specs.UndoRows.{UndoRows};
ghost use Rattle.map_examples.specs.WordRows.{WordRows};

/// Texts that are cut into lines.
pub fn cut_rows()
    ensures { CutRows }
{}

/// Words of a run, and a whole run by its words.
pub fn word_rows()
    ensures { WordRows }
{}

/// Runs whose grids are loaded or refused.
pub fn load_rows()
    ensures { LoadRows }
{}

/// Runs of lines that are refused, of names that are missing, and of model files.
pub fn line_rows()
    ensures { LineRows }
{}

/// Runs with displays, labels and procedures.
pub fn display_rows()
    ensures { DisplayRows }
{}

/// Runs of each operation on small maps.
pub fn operation_rows()
    ensures { OperationRows }
{}

/// Runs whose edits repair costs, flow, regions, sight and zones.
pub fn repair_rows()
    ensures { RepairRows }
{}

/// Runs over maps of several tiles.
pub fn tile_rows()
    ensures { TileRows }
{}

/// Runs whose edits are taken back.
pub fn undo_rows()
    ensures { UndoRows }
{}

/// Runs with branches.
pub fn branch_rows()
    ensures { BranchRows }
{}

/// The grids, the lines and the text of the sample.
pub fn sample_rows()
    ensures { SampleRows }
{}

/// What may be read where a part of a text is written, and what is too long.
pub fn read_rows()
    ensures { ReadRows }
{}

/// How many names, procedures, labels and symbols there may be.
pub fn limit_rows()
    ensures { LimitRows }
{}
