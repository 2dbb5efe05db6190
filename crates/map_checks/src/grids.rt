//! Texts that are read and printed.
use grid_text::{GridRefusal, print_grid, read_grid};
use map_outside::Counts;
use std::alloc::Global;
use std::process::Abort;
use std::test::Fail;

/// What is printed of the grid that a text holds.
fn reprinted(alloc: Global, text: &[u8]) -> Result<Vec<u8>, Fail> {
    let grid = read_grid(alloc, text, 1)?;
    let mut tally = Counts::new();
    Ok(print_grid(alloc, &grid.header, &grid.layer, &mut tally)?)
}

/// What is printed of a grid is this.
fn prints(rt: &(impl AllocGlobal + Abort), text: &[u8], want: &[u8]) -> Result<(), Fail> {
    assert_eq!(rt; reprinted(rt.alloc(), text)?.as_slice(), want);
    Ok(())
}

#[test]
fn upper_case_and_padding(rt: HostRuntime) -> Result<(), Fail> {
    prints(
        &rt,
        b"NCOLS        2\r\nNROWS        2\r\nXLLCORNER    100.5\r\nYLLCORNER    -20.000000000000\r\nCELLSIZE     60.000000000000\r\n 1 2\r\n -9999 4\r\n",
        b"ncols 2\nnrows 2\nxllcorner 100.5\nyllcorner -20.000000000000\ncellsize 60.000000000000\nNODATA_value -1000000000000001\n1 2\n-1000000000000001 4\n",
    )
}

/// What is printed of a grid ends in this.
fn ends_in(rt: &(impl AllocGlobal + Abort), text: &[u8], want: &[u8]) -> Result<(), Fail> {
    let printed = reprinted(rt.alloc(), text)?;
    assert!(rt; printed.ends_with(want), "{text:?}");
    Ok(())
}

/// The rows of the grids that other programs wrote.
const ROWS: &[u8] = b"NODATA_value -1000000000000001\n107 123 -1000000000000001\n115 -9999 132\n";

#[test]
fn grids_of_other_programs(rt: HostRuntime) -> Result<(), Fail> {
    // GDAL
    ends_in(
        &rt,
        b"ncols        3\nnrows        2\nxllcorner    440720.000000000000\nyllcorner    3751320.000000000000\ncellsize     60.000000000000\nNODATA_value -32768\n 107 123 -32768\n 115 -9999 132\n",
        ROWS,
    )?;
    // GRASS
    ends_in(
        &rt,
        b"ncols 3\nnrows 2\nxllcorner 440720\nyllcorner 3751320\ncellsize 60\nNODATA_value -2147483648\n107 123 -2147483648 \n115 -9999 132 \n",
        ROWS,
    )?;
    // ArcGIS
    ends_in(
        &rt,
        b"NCOLS 3\r\nNROWS 2\r\nXLLCENTER 440750\r\nYLLCENTER 3751350\r\nCELLSIZE 60\r\nNODATA_VALUE 4294967295\r\n107 123 4294967295\r\n115 -9999 132",
        ROWS,
    )?;
    // the number that stands for null first, and cells with a fraction of zeros
    ends_in(
        &rt,
        b"nodata_value 0.0 nrows 2.0 ncols 3 cellsize 6e1 yllcorner +3751320 xllcorner .44072E6\n107.0 123 0 115 -9999 132.\n",
        ROWS,
    )
}

/// Why a text is refused.
fn refusal(alloc: Global, text: &[u8]) -> Option<GridRefusal> {
    read_grid(alloc, text, 1).err()
}

/// A text is refused for this.
fn refused(rt: &(impl AllocGlobal + Abort), text: &[u8], want: GridRefusal) {
    assert_eq!(rt; refusal(rt.alloc(), text), Some(want));
}

#[test]
fn refused_keys(rt: HostRuntime) {
    refused(&rt, b"", GridRefusal::Key(1));
    refused(
        &rt,
        b"ncols 1\nnrows 1\nxllcorner 0\nyllcorner 0\n5\n",
        GridRefusal::Key(41),
    );
    refused(
        &rt,
        b"ncols 1\nnrows 1\nxllcorner 0\nyllcorner 0\ndx 1\n",
        GridRefusal::Key(41),
    );
    refused(&rt, b"ncols 1 NCOLS 1", GridRefusal::Key(9));
}

#[test]
fn refused_numbers_and_sizes(rt: HostRuntime) {
    refused(&rt, b"ncols x\n", GridRefusal::Number(7));
    refused(&rt, b"ncols nrows 3", GridRefusal::Number(7));
    refused(&rt, b"ncols 1 nrows ", GridRefusal::Number(15));
    refused(
        &rt,
        b"ncols 0\nnrows 1\nxllcorner 0\nyllcorner 0\ncellsize 1\n",
        GridRefusal::Size(1, 0),
    );
    refused(
        &rt,
        b"ncols 4096\nnrows 367\nxllcorner 0\nyllcorner 0\ncellsize 1\n1",
        GridRefusal::Size(367, 4096),
    );
}

/// Why these cells are refused behind a header of two rows and two columns.
fn refusal_of_cells(alloc: Global, cells: &[u8]) -> Option<GridRefusal> {
    let header = b"ncols 2\nnrows 2\nxllcorner 0\nyllcorner 0\ncellsize 1\n";
    let mut text = Vec::from_slice(alloc, header).ok()?;
    text.extend_from_slice(cells).ok()?;
    refusal(alloc, &text)
}

/// These cells are refused for this.
fn cells_refused(rt: &(impl AllocGlobal + Abort), cells: &[u8], want: GridRefusal) {
    assert_eq!(rt; refusal_of_cells(rt.alloc(), cells), Some(want));
}

#[test]
fn refused_cells(rt: HostRuntime) {
    cells_refused(&rt, b"1 2 3\n", GridRefusal::Few(3, 4));
    cells_refused(&rt, b"1 2 3 4 5\n", GridRefusal::More(60));
    cells_refused(&rt, b"1 2 7.5 4\n", GridRefusal::Cell(3));
    cells_refused(&rt, b"1 1000000000000001 3 4\n", GridRefusal::Range(2));
    cells_refused(&rt, b"1 2 3 1000000000000000000\n", GridRefusal::Range(4));
}
