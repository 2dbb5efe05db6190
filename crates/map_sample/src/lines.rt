//! The sample's lines.
ghost use Rattle.std.specs.Prelude.{◌≡◌, ◌≤◌, ◌<◌, [], IfOk, OnOk, slice_index_or};
ghost use Rattle.map_machine.specs.Causes.{counted};
ghost use Rattle.map_machine.specs.SampleLines.{sample_paint, sample_lines, sample_statements};

use itoa::Buffer;
use map_nums::NoMemory;
use std::alloc::Global;

/// How many lines there are.
pub const SAMPLE_LINES: u32 = 58;

// A space and a number.
fn push_number(text: &mut Vec<u8>, n: u32) -> Result<(), NoMemory>
    ensures { OnOk result (text.new.items ≡ counted text.old.items n) }
{
    text.push(b' ')?;
    text.extend_from_slice(Buffer::new().format(n).as_bytes())?;
    Ok(())
}

// Paint number i, from 1 on.
fn paint(alloc: Global, side: u32, i: u32) -> Result<Vec<u8>, NoMemory>
    requires some { 1 ≤ side }
    requires most { side ≤ 1224 }
    requires few { i ≤ 50 }
    ensures { IfOk result (λ line. line.items ≡ sample_paint side i) }
{
    let r = 1 + 37 * i % side;
    let c = 1 + 53 * i % side;
    let name = if i % 2 == 1 { b"paint F" } else { b"paint H" };
    let mut line = Vec::from_slice(alloc, name)?;
    push_number(&mut line, r)?;
    push_number(&mut line, c)?;
    push_number(&mut line, r)?;
    push_number(&mut line, c)?;
    push_number(&mut line, 1 + i % 9)?;
    Ok(line)
}

// Statement k, from 0 on.
fn statement(k: u32) -> &'static [u8]
    requires { k < 6 }
    ensures { result.now ≡ slice_index_or sample_statements k [] }
{
    match k {
        0 => b"G = IncrementalGradient of H",
        1 => b"M = ZonalMean of G within Z",
        2 => b"D = FocalProximity of S spreading in F within 100000",
        3 => b"W = IncrementalDrainage of H carrying 1",
        4 => b"R = FocalInsularity of Z",
        _ => b"Q = FocalMaximum of H at 3",
    }
}

/// Line k of the sample on a map of so many rows and columns, counted from 0: six statements, fifty paints, a legend, `quit`.
///
/// # Errors
///
/// `NoMemory` where there is none for the line.
pub fn sample_line(alloc: Global, side: u32, k: u32) -> Result<Vec<u8>, NoMemory>
    requires some { 1 ≤ side }
    requires most { side ≤ 1224 }
    requires within { k < 58 }
    ensures { IfOk result (λ line. line.items ≡ slice_index_or (sample_lines side) k []) }
{
    if k < 6 {
        return Ok(Vec::from_slice(alloc, statement(k))?);
    }
    if k < 56 {
        return paint(alloc, side, k - 5);
    }
    let last: &[u8] = if k == 56 { b"legend M" } else { b"quit" };
    Ok(Vec::from_slice(alloc, last)?)
}
