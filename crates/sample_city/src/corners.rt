//! The corners of the sample city.

ghost use Rattle.std.specs.Prelude.{◌≡◌, ◌<◌, ◌≤◌, ◌++◌, length, map, All, IfOk, OnOk};
ghost use Rattle.sample_city.specs.Corners as spec;

use plan_base::Place;
use std::alloc::{AllocError, Global};

/// A corner: its row and its column from 0, and the OSM id of the nodes there.
#[derive(Clone, Copy)]
pub(crate) struct Corner {
    pub(crate) row: u32,
    pub(crate) column: u32,
    pub(crate) id: u32,
}

/// The corner of a row and a column, in a city of so many of both.
pub(crate) fn corner_at(n: u32, row: u32, column: u32) -> Corner
    requires size { n ≤ 300 }
    requires row { row < 300 }
    requires column { column < 300 }
    ensures { result ≡ spec.corner n row column }
{
    Corner {
        row,
        column,
        id: 1 + row * n + column,
    }
}

/// Lines run along rows, or along columns.
#[derive(Clone, Copy)]
pub(crate) enum Direction {
    Row,
    Column,
}

/// Where a line of one way and another of the other way cross.
pub(crate) fn crossing(n: u32, way: Direction, line: u32, other: u32) -> Corner
    requires size { n ≤ 300 }
    requires line { line < 300 }
    requires other { other < 300 }
    ensures { result ≡ spec.crossing n way line other }
{
    match way {
        Direction::Row => corner_at(n, line, other),
        Direction::Column => corner_at(n, other, line),
    }
}

/// The numbers of rows or columns.
pub(crate) fn lines(alloc: Global, n: u32) -> Result<Vec<u32>, AllocError>
    ensures lines { IfOk result (λ lines. lines.items ≡ spec.lines n) }
    ensures below { IfOk result (λ lines. All (λ line. line < n) lines.items) }
    ensures count { IfOk result (λ lines. length lines.items ≡ n) }
{
    let mut lines = Vec::new(alloc);
    for line in 0..n {
        lines.push(line)?;
    }
    Ok(lines)
}

/// Those lines that have stops.
pub(crate) fn stop_lines(alloc: Global, n: u32) -> Result<Vec<u32>, AllocError>
    requires { n ≤ 300 }
    ensures lines { IfOk result (λ stopped. stopped.items ≡ spec.stop_lines n) }
    ensures below { IfOk result (λ stopped. All (λ line. line < 300) stopped.items) }
    ensures few { IfOk result (λ stopped. length stopped.items ≤ 300) }
{
    let lines = lines(alloc, n)?;
    let mut stopped = Vec::new(alloc);
    for line in &lines {
        if is_stop_line(*line) {
            stopped.push(*line)?;
        }
    }
    Ok(stopped)
}

fn push_row(corners: &mut Vec<Corner>, n: u32, row: u32, columns: &[u32]) -> Result<(), AllocError>
    requires size { n ≤ 300 }
    requires row { row < n }
    requires columns { All (λ column. column < n) columns.now }
    ensures { OnOk result (corners.new.items ≡ corners.old.items ++ map (spec.corner n row) columns.now) }
{
    for column in columns {
        corners.push(corner_at(n, row, *column))?;
    }
    Ok(())
}

/// All corners, row by row.
pub(crate) fn all_corners(alloc: Global, n: u32) -> Result<Vec<Corner>, AllocError>
    requires { n ≤ 300 }
    ensures { IfOk result (λ corners. corners.items ≡ spec.corners n) }
{
    let lines = lines(alloc, n)?;
    let mut corners = Vec::new(alloc);
    for row in &lines {
        push_row(&mut corners, n, *row, &lines)?;
    }
    Ok(corners)
}

pub(crate) fn is_car_line(line: u32) -> bool
    ensures { result ≡ spec.is_car_line line }
{
    line % 3 == 0
}

pub(crate) fn is_stop_line(line: u32) -> bool
    ensures { result ≡ spec.is_stop_line line }
{
    line % 3 == 1
}

pub(crate) fn has_cars(at: Corner) -> bool
    ensures { result ≡ spec.has_cars at }
{
    is_car_line(at.row) || is_car_line(at.column)
}

/// Where a corner lies.
pub(crate) fn place_at(at: Corner) -> Option<Place>
    ensures { result ≡ spec.corner_place at }
{
    let lat = 480_000_000 + 10_000 * u64::from(at.row);
    let lon = 110_000_000 + 10_000 * u64::from(at.column);
    Place::new(lat as i64, lon as i64)
}
