//! The common front of keys: the bytes with which all of them begin.
use crate::cursor::Cursor;
use crate::ranks::begins_with;
use crate::run::Run;
use uc_run_points::PointSlice;

/// The common front of a front and a key; if there is only one of them, all of it.
fn narrowed<'a>(front: Option<&'a [u8]>, key: Option<&'a [u8]>) -> Option<&'a [u8]> {
    match (front, key) {
        (Some(front), Some(key)) => Some(&front[..begins_with(front, key)]),
        (Some(front), None) => Some(front),
        (None, key) => key,
    }
}

/// The common front of the keys of points in order, if there are points: that of the first and the last.
fn front_of_points<'a>(points: &PointSlice<'a>) -> Option<&'a [u8]> {
    let first = points.first()?;
    let last = points.get(points.len().saturating_sub(1))?;
    narrowed(Some(first.key()), Some(last.key()))
}

/// The common front of most keys of a run, if it has points. It is found from the fences, and the last point, which may not be in
/// the cache, isn't read. One fence alone says nothing about the other keys.
fn front_of_run(run: &Run) -> Option<&[u8]> {
    if run.blocks() > 1 {
        return Some(run.fences().front());
    }
    front_of_points(&run.entries().as_slice())
}

/// The common front of the keys of all runs.
pub(crate) fn front_of_runs<'a>(runs: &[PointSlice<'a>]) -> &'a [u8] {
    let mut front = None;
    for points in runs {
        front = narrowed(front, front_of_points(points));
    }
    front.unwrap_or(&[])
}

/// The common front of most keys of the runs of all cursors.
pub(crate) fn front_of_cursors<'a>(cursors: &[Cursor<'a>]) -> &'a [u8] {
    let mut front = None;
    for cursor in cursors {
        front = narrowed(front, front_of_run(cursor.run()));
    }
    front.unwrap_or(&[])
}
